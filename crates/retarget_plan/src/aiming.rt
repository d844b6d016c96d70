//! The problem of another aim, from where a rollout stands.
ghost use Rattle.std.specs.Prelude.{◌≡◌, None, IfOk};
ghost use Rattle.rollout_rules.specs.History.{places_of};
ghost use Rattle.retarget_plan.specs.Aiming as aiming;
ghost use Rattle.retarget_plan.specs.Aiming.{IsAimed, KeepsCapacities, MayAim, StandsAt};
ghost use Rattle.retarget_plan.specs.Left as left;
ghost use Rattle.retarget_plan.specs.Leaving.{IsLeftUnless};
ghost use Rattle.retarget_plan.specs.Standing.{OldSideFits};

use crate::aim::Aim;
use crate::aimed_rows::{aimed_capacities, aimed_rates};
use crate::leaving::{first_flying, first_partly, make_problem};
use crate::rows::left_rates;
use crate::units::{divisor_of, factor_of};
use crate::unleft::Unleft;
use dependency_graph::{Graph, Index, checked_plan_is_valid};
use std::alloc::Global;
use wan_model::{CheckedPlan, Problem};

/// The problem of another aim from where a rollout stands: the same network and the same tunnels by the same
/// numbers, what is settled as its old split, and the aim's rates as its new one. Its numbers are in units in
/// which all settled rates are whole: capacities and a target's rates are so many times larger.
///
/// An Err is as for [`left`](crate::left). The old side fits where the aim gives no link less than it had. Time:
/// the items, each with the plan's stages.
pub fn aimed(alloc: Global, graph: &Graph, aim: &Aim) -> Result<Problem, Unleft>
    requires { MayAim aim.now }
    ensures answer { IsAimed graph.now.rollout.problem graph.now.rollout.plan graph.now.history
        aim.now result }
    ensures stands { IfOk result
        (StandsAt graph.now.rollout.problem graph.now.rollout.plan
        (places_of graph.now.rollout.problem graph.now.history)
        (left.divisor_of graph.now.rollout.problem graph.now.rollout.plan
        (places_of graph.now.rollout.problem graph.now.history))) }
    ensures fits { KeepsCapacities graph.now.rollout.problem aim.now → IfOk result OldSideFits }
{
    let _ = graph.woken();
    let plan = graph.plan();
    checked_plan_is_valid(plan);
    still_aimed(alloc, plan, graph, aim)
}

// Unless something is in flight.
fn still_aimed(
    alloc: Global,
    plan: &CheckedPlan,
    graph: &Graph,
    aim: &Aim,
) -> Result<Problem, Unleft>
    requires own { plan.now ≡ graph.now.rollout }
    requires aim { MayAim aim.now }
    ensures { IsAimed plan.now.problem plan.now.plan graph.now.history aim.now result }
{
    match first_flying(graph) {
        Some(cause) => Err(cause),
        None => whole_aimed(alloc, plan, graph, aim),
    }
}

// Unless some tunnel has a part of its entries.
fn whole_aimed(
    alloc: Global,
    plan: &CheckedPlan,
    graph: &Graph,
    aim: &Aim,
) -> Result<Problem, Unleft>
    requires own { plan.now ≡ graph.now.rollout }
    requires aim { MayAim aim.now }
    ensures { IsLeftUnless
        (aiming.partly_or_large_aimed plan.now.problem plan.now.plan
        (places_of plan.now.problem graph.now.history) aim.now)
        (aiming.aimed_problem plan.now.problem plan.now.plan
        (places_of plan.now.problem graph.now.history) aim.now)
        result }
{
    let index = Index::new(alloc, plan)?;
    match first_partly(plan, graph, &index) {
        Some(cause) => Err(cause),
        None => small_aimed(alloc, plan, graph, &index, aim),
    }
}

// Unless a number of it is too large.
fn small_aimed(
    alloc: Global,
    plan: &CheckedPlan,
    graph: &Graph,
    index: &Index,
    aim: &Aim,
) -> Result<Problem, Unleft>
    requires own { plan.now ≡ graph.now.rollout }
    requires index { index.now ≡ plan.now }
    requires aim { MayAim aim.now }
    ensures { IsLeftUnless
        (aiming.large_aimed plan.now.problem plan.now.plan
        (places_of plan.now.problem graph.now.history) aim.now)
        (aiming.aimed_problem plan.now.problem plan.now.plan
        (places_of plan.now.problem graph.now.history) aim.now)
        result }
{
    let divisor = divisor_of(plan, graph);
    let factor = factor_of(plan, divisor);
    let capacities = aimed_capacities(alloc, plan, aim, factor)?;
    let old = left_rates(alloc, plan, graph, index, divisor)?;
    let new = aimed_rates(alloc, plan, graph, aim, factor, old.as_slice())?;
    make_problem(
        alloc,
        plan,
        capacities.as_slice(),
        old.as_slice(),
        new.as_slice(),
    )
}
