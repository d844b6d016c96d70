ghost use Rattle.std.specs.Prelude.{◌≡◌, Some, IfOk};
ghost use Rattle.plan_choose.specs.Choice as spec;

use lists::Memory;
use plan_check::{PlanFault, check_plan};
use std::alloc::{AllocError, Global};
use wan_model::{Plan, Problem};

/// The plan, where the checker accepts it.
pub(crate) fn where_valid(
    alloc: Global,
    problem: &Problem,
    plan: Plan,
) -> Result<Option<Plan>, Memory>
    ensures { IfOk result (λ found. found ≡ spec.where_valid problem.now (Some plan)) }
{
    match check_plan(alloc, problem, &plan) {
        Ok(()) => Ok(Some(plan)),
        Err(PlanFault::Broken(_)) => Ok(None),
        Err(PlanFault::Memory) => Err(AllocError),
    }
}
