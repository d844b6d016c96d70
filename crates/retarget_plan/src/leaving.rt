//! The problem that a rollout leaves where it stands.
ghost use Rattle.std.specs.Prelude.{◌≡◌, None, IfOk};
ghost use Rattle.rollout_rules.specs.History.{places_of};
ghost use Rattle.retarget_plan.specs.Left as left;
ghost use Rattle.retarget_plan.specs.Leaving.{IsLeft, IsLeftUnless};
ghost use Rattle.retarget_plan.specs.Leaving as leaving;
ghost use Rattle.retarget_plan.specs.Standing.{GoesOnFrom, OldSideFits};

use crate::copying::remake;
use crate::limits::first_large;
use crate::looking::{is_whole, tunnel_total};
use crate::rows::{left_capacities, left_rates, left_targets};
use crate::units::{divisor_of, factor_of};
use crate::unleft::Unleft;
use dependency_graph::{Graph, Index, checked_plan_is_valid};
use std::alloc::Global;
use wan_model::{CheckedPlan, Problem};

/// The problem that a rollout leaves where it stands: the same network and the same tunnels by the same numbers,
/// what is settled as its old split, and the rollout's own new split as its new one. Its numbers are in units in
/// which all settled rates are whole: capacities and new rates are so many times larger.
///
/// An Err is, in this order, the first item with an operation in flight, the first tunnel of which some entries
/// are there alone, and the first capacity, old rate or new rate that is above its limit in those units; or want of
/// memory. Its old side fits, so no plan of it is refused for that. Time: the items, each with the plan's stages.
pub fn left(alloc: Global, graph: &Graph) -> Result<Problem, Unleft>
    ensures answer { IsLeft graph.now.rollout.problem graph.now.rollout.plan graph.now.history
        result }
    ensures goes_on { IfOk result
        (GoesOnFrom graph.now.rollout.problem graph.now.rollout.plan
        (places_of graph.now.rollout.problem graph.now.history)
        (left.divisor_of graph.now.rollout.problem graph.now.rollout.plan
        (places_of graph.now.rollout.problem graph.now.history))) }
    ensures fits { IfOk result OldSideFits }
{
    let _ = graph.woken();
    let plan = graph.plan();
    checked_plan_is_valid(plan);
    still_left(alloc, plan, graph)
}

// Unless something is in flight.
fn still_left(alloc: Global, plan: &CheckedPlan, graph: &Graph) -> Result<Problem, Unleft>
    requires { plan.now ≡ graph.now.rollout }
    ensures { IsLeft plan.now.problem plan.now.plan graph.now.history result }
{
    match first_flying(graph) {
        Some(cause) => Err(cause),
        None => whole_left(alloc, plan, graph),
    }
}

// Unless some tunnel has a part of its entries.
fn whole_left(alloc: Global, plan: &CheckedPlan, graph: &Graph) -> Result<Problem, Unleft>
    requires { plan.now ≡ graph.now.rollout }
    ensures { IsLeftUnless
        (leaving.partly_or_large plan.now.problem plan.now.plan
        (places_of plan.now.problem graph.now.history))
        (left.left_problem plan.now.problem plan.now.plan
        (places_of plan.now.problem graph.now.history))
        result }
{
    let index = Index::new(alloc, plan)?;
    match first_partly(plan, graph, &index) {
        Some(cause) => Err(cause),
        None => small_left(alloc, plan, graph, &index),
    }
}

// Unless a number of it is too large.
fn small_left(
    alloc: Global,
    plan: &CheckedPlan,
    graph: &Graph,
    index: &Index,
) -> Result<Problem, Unleft>
    requires own { plan.now ≡ graph.now.rollout }
    requires index { index.now ≡ plan.now }
    ensures { IsLeftUnless
        (leaving.large_left plan.now.problem plan.now.plan
        (places_of plan.now.problem graph.now.history))
        (left.left_problem plan.now.problem plan.now.plan
        (places_of plan.now.problem graph.now.history))
        result }
{
    let divisor = divisor_of(plan, graph);
    let factor = factor_of(plan, divisor);
    let capacities = left_capacities(alloc, plan, factor)?;
    let old = left_rates(alloc, plan, graph, index, divisor)?;
    let new = left_targets(alloc, plan, factor)?;
    make_problem(
        alloc,
        plan,
        capacities.as_slice(),
        old.as_slice(),
        new.as_slice(),
    )
}

// The network with these numbers, unless one of them is too large.
pub(crate) fn make_problem(
    alloc: Global,
    plan: &CheckedPlan,
    capacities: &[u64],
    old: &[Option<u64>],
    new: &[Option<u64>],
) -> Result<Problem, Unleft>
    requires { leaving.AreRows plan.now.problem capacities.now old.now new.now }
    ensures { IsLeftUnless (leaving.first_large capacities.now old.now new.now)
        (left.remade plan.now.problem capacities.now old.now new.now)
        result }
{
    checked_plan_is_valid(plan);
    match first_large(capacities, old, new) {
        Some(cause) => Err(cause),
        None => copy_problem(alloc, plan, capacities, old, new),
    }
}

// The same, where none is.
fn copy_problem(
    alloc: Global,
    plan: &CheckedPlan,
    capacities: &[u64],
    old: &[Option<u64>],
    new: &[Option<u64>],
) -> Result<Problem, Unleft>
    requires rows { leaving.AreRows plan.now.problem capacities.now old.now new.now }
    requires small { None ≡ leaving.first_large capacities.now old.now new.now }
    ensures { IsLeftUnless None
        (left.remade plan.now.problem capacities.now old.now new.now)
        result }
{
    let problem = plan.problem();
    let copy = remake(alloc, problem, capacities, old, new)?;
    Ok(copy)
}

// The first item with an operation in flight.
pub(crate) fn first_flying(graph: &Graph) -> Option<Unleft>
    ensures { result
        ≡ leaving.first_flying graph.now.rollout.problem graph.now.history }
{
    for item in 0..graph.item_count() {
        if graph.flying(item) {
            return Some(Unleft::Flying {
                item,
                operation: graph.begun(item),
            });
        }
    }
    None
}

// The first tunnel of which some entries are there alone.
pub(crate) fn first_partly(plan: &CheckedPlan, graph: &Graph, index: &Index) -> Option<Unleft>
    requires own { plan.now ≡ graph.now.rollout }
    requires index { index.now ≡ plan.now }
    ensures { result
        ≡ leaving.first_partly plan.now.problem plan.now.plan
        (places_of plan.now.problem graph.now.history) }
{
    for tunnel in 0..tunnel_total(plan) {
        let first = index.first_entry(tunnel);
        if !is_whole(plan, graph, tunnel, first) {
            return Some(Unleft::Partly {
                tunnel: tunnel as u32,
            });
        }
    }
    None
}
