ghost use Rattle.std.specs.Prelude.{◌≡◌, Some, None, IsTrue, IfOk};
ghost use Rattle.rollout_rules.specs.Valid.{is_valid_plan};
ghost use Rattle.plan_check.specs.LeastSlack as slack;
ghost use Rattle.plan_check.specs.SplitLoads.{AreSplitLoads};
ghost use Rattle.scratch_plan.specs.Refusals.{refusal, Answers};
ghost use Rattle.plan_choose.specs.Choice as spec;
ghost use Rattle.plan_choose.specs.Chosen.{IsChosen};

use crate::chosen::{Chosen, Unplanned};
use crate::planned::Planned;
use crate::steps::{fewer_steps, most_tried};
use crate::validity::where_valid;
use lists::Memory;
use plan_check::{SplitLoads, slack_over};
use scratch_plan::{NoPlan, frame, has_equal_rates, refused_over, scratch_over, still};
use std::alloc::Global;
use wan_model::{CheckedPlan, Plan, Problem};

/// The plan of a problem: none where a load exceeds its link or entries exceed their table; the still
/// plan for equal rates; else the direct one, where it is valid; else the one of the fewest steps, up to
/// 8 and fewer than scratch takes, that its linear program gives and the checker accepts; else the
/// scratch plan, where every link has slack. The problem comes back with either answer.
pub fn choose(alloc: Global, problem: Problem) -> Result<Chosen, Unplanned>
    ensures { IsChosen problem result }
{
    match plan_for(alloc, &problem) {
        Ok(Planned { plan, rate_steps }) => Ok(Chosen {
            plan: CheckedPlan::seal(problem, plan),
            rate_steps,
        }),
        Err(cause) => Err(Unplanned { problem, cause }),
    }
}

/// The plan that [`choose`] gives, without its problem, or the cause that there is none.
pub fn plan_for(alloc: Global, problem: &Problem) -> Result<Planned, NoPlan>
    ensures value { Answers result (spec.chosen problem.now) }
    ensures valid { IfOk result (λ found. IsTrue (is_valid_plan problem.now found.plan)) }
{
    let loads = SplitLoads::of(alloc, problem)?;
    plan_over(alloc, problem, &loads)
}

/// The same over its loads.
pub fn plan_over(alloc: Global, problem: &Problem, loads: &SplitLoads) -> Result<Planned, NoPlan>
    requires { AreSplitLoads problem.now loads.now }
    ensures value { Answers result (spec.chosen problem.now) }
    ensures valid { IfOk result (λ found. IsTrue (is_valid_plan problem.now found.plan)) }
{
    refused_over(alloc, problem, loads)?;
    best_plan(alloc, problem, loads)
}

fn best_plan(alloc: Global, problem: &Problem, loads: &SplitLoads) -> Result<Planned, NoPlan>
    requires loads { AreSplitLoads problem.now loads.now }
    requires fits { refusal problem.now ≡ None }
    ensures value { Answers result (spec.best_choice problem.now) }
    ensures valid { IfOk result (λ found. IsTrue (is_valid_plan problem.now found.plan)) }
{
    if has_equal_rates(problem) {
        return Ok(Planned {
            plan: still(alloc, problem)?,
            rate_steps: 0,
        });
    }
    if let Some(plan) = direct_plan(alloc, problem)? {
        return Ok(Planned {
            plan,
            rate_steps: 1,
        });
    }
    moving_plan(alloc, problem, loads)
}

// The plan of one rate step, where it is valid.
fn direct_plan(alloc: Global, problem: &Problem) -> Result<Option<Plan>, Memory>
    ensures { IfOk result
        (λ plan. plan ≡ spec.where_valid problem.now (Some (spec.direct_plan problem.now))) }
{
    let plan = frame(alloc, problem, 1, &[])?;
    where_valid(alloc, problem, plan)
}

// By fewer steps than scratch takes, else from scratch.
fn moving_plan(alloc: Global, problem: &Problem, loads: &SplitLoads) -> Result<Planned, NoPlan>
    requires loads { AreSplitLoads problem.now loads.now }
    requires fits { refusal problem.now ≡ None }
    ensures value { Answers result (spec.moving_choice problem.now (spec.fewer_steps problem.now)) }
    ensures valid { IfOk result (λ found. IsTrue (is_valid_plan problem.now found.plan)) }
{
    let least = slack_over(problem, loads);
    if let Some(planned) = fewer_steps(alloc, problem, most_tried(least))? {
        return Ok(planned);
    }
    plan_from_scratch(alloc, problem, loads, least)
}

fn plan_from_scratch(
    alloc: Global,
    problem: &Problem,
    loads: &SplitLoads,
    least: Option<u64>,
) -> Result<Planned, NoPlan>
    requires loads { AreSplitLoads problem.now loads.now }
    requires least { least ≡ slack.least_slack problem.now }
    requires fits { refusal problem.now ≡ None }
    ensures value { Answers result
        (spec.scratch_choice problem.now (slack.least_slack problem.now)) }
    ensures valid { IfOk result (λ found. IsTrue (is_valid_plan problem.now found.plan)) }
{
    let plan = scratch_over(alloc, problem, loads, least)?;
    let rate_steps = plan.scale;
    Ok(Planned { plan, rate_steps })
}
