ghost use Rattle.std.specs.Prelude.{◌≡◌, ◌≤◌, Some, length, IfOk, IsTrue};
ghost use Rattle.rollout_rules.specs.declared.limits.TheConstants.{LARGEST_SCALE};
ghost use Rattle.scratch_plan.specs.Frame as frame;
ghost use Rattle.plan_choose.specs.Choice as choice;
ghost use Rattle.fewest_plan.specs.Growth as growth;
ghost use Rattle.fewest_plan.specs.Greedy as greedy;
ghost use Rattle.fewest_plan.specs.Walk as spec;

use crate::gain::GainList;
use crate::stepping::{row, step};
use lists::{Many, Memory, Nums};
use plan_check::{PlanFault, check_plan};
use plan_choose::Planned;
use scratch_plan::frame;
use std::alloc::{AllocError, Global};
use wan_model::{Plan, Problem};

/// The plan of the greedy rule with shares in parts of 1/scale and the flows in this order, where all
/// arrive within so many rate steps. A step in which nothing moves ends it without a plan.
pub(crate) fn greedy(
    alloc: Global,
    problem: &Problem,
    scale: u32,
    order: &[u32],
    gains: &[GainList],
    most: u32,
) -> Result<Option<Planned>, Memory>
    requires scale { scale ≤ LARGEST_SCALE }
    requires order { greedy.IsOrder problem.now order.now }
    requires gains { gains.now ≡ growth.all_gains problem.now }
    requires most { most ≤ 252 }
    ensures { IfOk result (λ found. found ≡ spec.greedy problem.now scale order.now most) }
{
    let mut shares = at_first(alloc, problem)?;
    let mut rows = Many::new(alloc);
    for i in 0..most {
        let before = shares.as_slice();
        let next = step(alloc, problem, scale, order, gains, before)?;
        let after = next.as_slice();
        if have_arrived(problem, scale, after) {
            return accept_frame(alloc, problem, scale, &rows, i + 1);
        }
        if are_same(before, after) {
            return Ok(None);
        }
        let rates = row(alloc, problem, scale, after)?;
        rows.push(rates)?;
        shares = next;
    }
    Ok(None)
}

// All flows at the beginning of their way.
fn at_first(alloc: Global, problem: &Problem) -> Result<Vec<u64>, Memory>
    ensures { IfOk result (λ shares. shares.items ≡ spec.at_first problem.now) }
{
    vec![in alloc; 0u64; problem.flows().len()]
}

// Whether all flows stand at the end of their way.
fn have_arrived(problem: &Problem, scale: u32, shares: &[u64]) -> bool
    requires { length shares.now ≡ length problem.now.flows }
    ensures { result ≡ spec.have_arrived problem.now scale shares.now }
{
    let whole = u64::from(scale);
    for f in 0..shares.len() {
        let share = shares[f];
        if share != whole {
            return false;
        }
    }
    true
}

// Whether nothing has moved.
fn are_same(before: &[u64], after: &[u64]) -> bool
    requires { length before.now ≡ length after.now }
    ensures { IsTrue result → after.now ≡ before.now }
{
    for f in 0..before.len() {
        if before[f] != after[f] {
            return false;
        }
    }
    true
}

// The plan over the rates between, where the checker accepts it.
fn accept_frame(
    alloc: Global,
    problem: &Problem,
    scale: u32,
    rows: &Many<Nums>,
    rate_steps: u32,
) -> Result<Option<Planned>, Memory>
    ensures { IfOk result
        (λ found. found
        ≡ spec.accepted problem.now rate_steps (frame.frame problem.now scale rows.now)) }
{
    let plan = frame(alloc, problem, scale, rows.as_slice())?;
    accept(alloc, problem, plan, rate_steps)
}

fn accept(
    alloc: Global,
    problem: &Problem,
    plan: Plan,
    rate_steps: u32,
) -> Result<Option<Planned>, Memory>
    ensures { IfOk result (λ found. found ≡ spec.accepted problem.now rate_steps plan) }
{
    let found = where_valid(alloc, problem, plan)?;
    match found {
        Some(plan) => Ok(Some(Planned { plan, rate_steps })),
        None => Ok(None),
    }
}

// The plan, where the checker accepts it.
fn where_valid(alloc: Global, problem: &Problem, plan: Plan) -> Result<Option<Plan>, Memory>
    ensures { IfOk result (λ found. found ≡ choice.where_valid problem.now (Some plan)) }
{
    match check_plan(alloc, problem, &plan) {
        Ok(()) => Ok(Some(plan)),
        Err(PlanFault::Broken(_)) => Ok(None),
        Err(PlanFault::Memory) => Err(AllocError),
    }
}
