ghost use Rattle.std.specs.Prelude.{◌≡◌, IfOk};
ghost use Rattle.plan_check.specs.SplitLoads.{AreSplitLoads};
ghost use Rattle.scratch_plan.specs.Refusals as spec;

use crate::links::{Rule, first_lack};
use crate::no_plan::NoPlan;
use crate::tables::table_full;
use lists::Memory;
use plan_check::SplitLoads;
use std::alloc::Global;
use wan_model::Problem;

/// What no plan helps against: the first link whose old or then new load exceeds its capacity, else the
/// first switch whose table has no room for the entries of the old split or then for those while rates
/// move. Time: the lengths of the tunnels, the links and the switches.
pub fn refused(alloc: Global, problem: &Problem) -> Result<(), NoPlan>
    ensures { spec.Answers result (spec.refused_of problem.now) }
{
    let loads = SplitLoads::of(alloc, problem)?;
    refused_over(alloc, problem, &loads)
}

/// The same over its loads. Time: the lengths of the tunnels, the links and the switches.
pub fn refused_over(alloc: Global, problem: &Problem, loads: &SplitLoads) -> Result<(), NoPlan>
    requires { AreSplitLoads problem.now loads.now }
    ensures { spec.Answers result (spec.refused_of problem.now) }
{
    match refusal(alloc, problem, loads)? {
        Some(cause) => Err(cause),
        None => Ok(()),
    }
}

/// The same, where there is one.
pub(crate) fn refusal(
    alloc: Global,
    problem: &Problem,
    loads: &SplitLoads,
) -> Result<Option<NoPlan>, Memory>
    requires { AreSplitLoads problem.now loads.now }
    ensures { IfOk result (λ cause. cause ≡ spec.refusal problem.now) }
{
    if let Some(cause) = first_lack(problem, Rule::Capacity, loads) {
        return Ok(Some(cause));
    }
    table_full(alloc, problem)
}
