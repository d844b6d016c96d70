ghost use Rattle.std.specs.Prelude.{◌≡◌, ◌≤◌, Ok, Err, IfOk, IsTrue};
ghost use Rattle.rollout_rules.specs.Valid.{is_valid_plan};
ghost use Rattle.plan_check.specs.SplitLoads.{AreSplitLoads};
ghost use Rattle.fewest_plan.specs.Fewest as spec;
ghost use Rattle.fewest_plan.specs.Found.{Answers, IsFewest};
ghost use Rattle.fewest_plan.specs.Stuck.{stuck_link};

use crate::cause::{Cause, NotFound};
use crate::rule::by_rule;
use crate::stuck::stuck_link;
use plan_check::{SplitLoads, slack_over};
use plan_choose::{Chosen, Planned, plan_over};
use scratch_plan::NoPlan;
use std::alloc::Global;
use wan_model::{CheckedPlan, Problem};

/// The plan with the fewest rate steps among those of the linear program, of the greedy rule and from
/// scratch, and the first of several in this order; still or direct where that is enough. It has no more
/// rate steps than the one that [`plan_choose::choose`] gives, and there is one wherever that gives one. The
/// problem comes back with either answer.
pub fn fewest(alloc: Global, problem: Problem) -> Result<Chosen, NotFound>
    ensures { IsFewest problem result }
{
    match fewest_for(alloc, &problem) {
        Ok(Planned { plan, rate_steps }) => Ok(Chosen {
            plan: CheckedPlan::seal(problem, plan),
            rate_steps,
        }),
        Err(cause) => Err(NotFound { problem, cause }),
    }
}

fn fewest_for(alloc: Global, problem: &Problem) -> Result<Planned, Cause>
    ensures value { Answers result (spec.fewest problem.now) }
    ensures valid { IfOk result (λ found. IsTrue (is_valid_plan problem.now found.plan)) }
{
    let loads = SplitLoads::of(alloc, problem)?;
    match plan_over(alloc, problem, &loads) {
        Ok(chosen) => beside(alloc, problem, &loads, chosen),
        Err(cause) => in_place(alloc, problem, cause),
    }
}

// The plan of the rule, where it may take the place of what is chosen.
fn beside(
    alloc: Global,
    problem: &Problem,
    loads: &SplitLoads,
    chosen: Planned,
) -> Result<Planned, Cause>
    requires { AreSplitLoads problem.now loads.now }
    ensures { Answers result (Ok (spec.beside problem.now chosen)) }
{
    let room = room_beside(slack_over(problem, loads), chosen.rate_steps);
    let found = by_rule(alloc, problem, room)?;
    match found {
        Some(better) => Ok(better),
        None => Ok(chosen),
    }
}

// How many rate steps the rule may have beside a plan with so many.
fn room_beside(slack: Option<u64>, steps: u32) -> u32
    ensures value { result ≡ spec.room_beside slack steps }
    ensures most { result ≤ 252 }
{
    room_of(is_from_scratch(slack, steps), steps)
}

fn room_of(from_scratch: bool, steps: u32) -> u32
    ensures value { result ≡ spec.room_of from_scratch steps }
    ensures most { result ≤ 252 }
{
    if from_scratch {
        return steps.min(252);
    }
    steps.saturating_sub(1).min(252)
}

// Whether so many rate steps are those of the plan from scratch.
fn is_from_scratch(slack: Option<u64>, steps: u32) -> bool
    ensures { result ≡ spec.is_from_scratch slack steps }
{
    match slack {
        Some(k) => k.saturating_sub(1) == u64::from(steps),
        None => false,
    }
}

// What is found where nothing is chosen.
fn in_place(alloc: Global, problem: &Problem, cause: NoPlan) -> Result<Planned, Cause>
    ensures { Answers result (spec.in_place problem.now cause) }
{
    if is_no_slack(cause) {
        return without_slack(alloc, problem, cause);
    }
    Err(Cause::Unchosen(cause))
}

fn without_slack(alloc: Global, problem: &Problem, cause: NoPlan) -> Result<Planned, Cause>
    ensures { Answers result
        (spec.or_why (spec.by_rule problem.now 252) cause (stuck_link problem.now)) }
{
    let found = by_rule(alloc, problem, 252)?;
    match found {
        Some(better) => Ok(better),
        None => cause_of_none(alloc, problem, cause),
    }
}

fn cause_of_none(alloc: Global, problem: &Problem, cause: NoPlan) -> Result<Planned, Cause>
    ensures { Answers result (Err (spec.why_none cause (stuck_link problem.now))) }
{
    let stuck = stuck_link(alloc, problem)?;
    Err(why_none(cause, stuck))
}

fn is_no_slack(cause: NoPlan) -> bool
    ensures { result ≡ spec.is_no_slack cause }
{
    matches!(cause, NoPlan::NoSlack { .. })
}

fn why_none(cause: NoPlan, stuck: Option<u32>) -> Cause
    ensures { result ≡ spec.why_none cause stuck }
{
    match stuck {
        Some(link) => Cause::Stuck(link),
        None => Cause::Unfound(cause),
    }
}
