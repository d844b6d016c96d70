ghost use Rattle.std.specs.Prelude.{◌≡◌, IfOk};
ghost use Rattle.rollout_rules.specs.Valid.{is_valid_plan};
ghost use Rattle.plan_check.specs.FirstBroken as first;
ghost use Rattle.plan_check.specs.Verdict.{IsVerdict, TellsValid};

use crate::broken::Broken;
use crate::carried::first_bare;
use crate::ends::off_side;
use crate::fault::PlanFault;
use crate::shape::shape_fault;
use crate::steps::first_over;
use crate::totals::first_astray;
use lists::Memory;
use std::alloc::Global;
use wan_model::{Plan, Problem, Side};

/// Whether the plan is valid, or else the first clause that it breaks, from P0 to P5, each tested only
/// where the ones before it hold. Rates are in units of 1/scale, and sums don't wrap, however large the
/// plan's rates are.
pub fn check_plan(alloc: Global, problem: &Problem, plan: &Plan) -> Result<(), PlanFault>
    ensures verdict { IsVerdict result (first.first_broken problem.now plan.now) }
    ensures valid { TellsValid result (is_valid_plan problem.now plan.now) }
{
    match first_broken(alloc, problem, plan)? {
        Some(broken) => Err(PlanFault::Broken(broken)),
        None => Ok(()),
    }
}

fn first_broken(alloc: Global, problem: &Problem, plan: &Plan) -> Result<Option<Broken>, Memory>
    ensures { IfOk result (λ broken. broken ≡ first.first_broken problem.now plan.now) }
{
    if let Some(broken) = shape_fault(problem, plan) {
        return Ok(Some(broken));
    }
    if let Some(broken) = off_side(problem, plan, 1, 0, Side::Old) {
        return Ok(Some(broken));
    }
    if let Some(broken) = off_side(problem, plan, 2, plan.last_stage(), Side::New) {
        return Ok(Some(broken));
    }
    if let Some(broken) = first_over(alloc, problem, plan)? {
        return Ok(Some(broken));
    }
    if let Some(broken) = first_bare(problem, plan) {
        return Ok(Some(broken));
    }
    Ok(first_astray(problem, plan))
}
