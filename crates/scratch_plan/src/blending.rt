ghost use Rattle.std.specs.Prelude.{◌≡◌, ◌+◌, ◌-◌, ◌≤◌, None, IsTrue, IfOk, OnOk, map};
ghost use Rattle.rollout_rules.specs.Valid.{is_valid_plan};
ghost use Rattle.plan_check.specs.LeastSlack as slack;
ghost use Rattle.plan_check.specs.SplitLoads.{AreSplitLoads};
ghost use Rattle.scratch_plan.specs.Building.{with_stages};
ghost use Rattle.scratch_plan.specs.Frame.{stage_of};
ghost use Rattle.scratch_plan.specs.Marks.{is_used};
ghost use Rattle.scratch_plan.specs.Refusals as refusals;
ghost use Rattle.scratch_plan.specs.Scratch as spec;

use crate::framing::{add_row, add_stage, add_where, begin, split_row};
use crate::group::Group;
use crate::links::{Rule, first_lack};
use crate::no_plan::NoPlan;
use crate::refusing::refusal;
use lists::{Memory, Nums};
use plan_check::{SplitLoads, slack_over};
use std::alloc::Global;
use wan_model::{Plan, Problem, Side};

/// The scratch plan: where a share 1/k of every link is free in both splits, for the least such k from 2
/// to 64, it moves all rates in k - 1 equal steps. A problem that is refused has none, and where there is
/// no such k the cause is a link without slack.
pub fn scratch(alloc: Global, problem: &Problem) -> Result<Plan, NoPlan>
    ensures value { refusals.Answers result (spec.scratch_of problem.now) }
    ensures valid { IfOk result (λ plan. IsTrue (is_valid_plan problem.now plan)) }
{
    let loads = SplitLoads::of(alloc, problem)?;
    if let Some(cause) = refusal(alloc, problem, &loads)? {
        return Err(cause);
    }
    let least = slack_over(problem, &loads);
    scratch_over(alloc, problem, &loads, least)
}

/// The same of a problem that isn't refused, over its loads and its least slack 1/k.
pub fn scratch_over(
    alloc: Global,
    problem: &Problem,
    loads: &SplitLoads,
    least: Option<u64>,
) -> Result<Plan, NoPlan>
    requires loads { AreSplitLoads problem.now loads.now }
    requires least { least ≡ slack.least_slack problem.now }
    requires fits { refusals.refusal problem.now ≡ None }
    ensures value { refusals.Answers result (spec.scratch_of problem.now) }
    ensures valid { IfOk result (λ plan. IsTrue (is_valid_plan problem.now plan)) }
{
    let _ = problem.links();
    match least {
        Some(k) => Ok(by_slack(alloc, problem, k as u32)?),
        None => Err(no_slack(problem, loads)),
    }
}

fn by_slack(alloc: Global, problem: &Problem, k: u32) -> Result<Plan, Memory>
    requires least { 2 ≤ k }
    requires most { k ≤ 64 }
    ensures { IfOk result (λ plan. plan ≡ spec.by_slack problem.now k) }
{
    let new = split_row(alloc, problem, Side::New, k - 1)?;
    let row = new.as_slice();
    let mut plan = begin(alloc, problem, k - 1)?;
    add_blended(alloc, &mut plan, problem, k - 1)?;
    add_stage(alloc, &mut plan, problem, row, Group::Used)?;
    add_where(alloc, &mut plan, problem, Group::Left, row, Group::Wanted)?;
    Ok(plan)
}

// Adds the rates after 1 to n - 1 of n equal steps, each row as it is made.
fn add_blended(alloc: Global, plan: &mut Plan, problem: &Problem, n: u32) -> Result<(), Memory>
    requires least { 1 ≤ n }
    requires most { n ≤ 64 }
    ensures { OnOk result
        (plan.new
        ≡ with_stages plan.old
        (map (λ row. stage_of problem.now row is_used) (spec.blended_rows problem.now n))) }
{
    for a in 0..n - 1 {
        let row = blended_row(alloc, problem, n, a + 1)?;
        add_row(alloc, plan, problem, row, Group::Used)?;
    }
    Ok(())
}

// The rates after a of n equal steps, in units of 1/n.
fn blended_row(alloc: Global, problem: &Problem, n: u32, a: u32) -> Result<Nums, Memory>
    requires part { a ≤ n }
    requires most { n ≤ 64 }
    ensures { IfOk result (λ row. row ≡ spec.blended_row problem.now n a) }
{
    let mut row = Nums::new(alloc);
    for t in 0..problem.tunnels().len() {
        let old = u64::from(n - a) * problem.old_rate(t);
        let new = u64::from(a) * problem.new_rate(t);
        row.push(old + new)?;
    }
    Ok(row)
}

// The first link without slack 1/64.
fn no_slack(problem: &Problem, loads: &SplitLoads) -> NoPlan
    requires loads { AreSplitLoads problem.now loads.now }
    requires none { slack.least_slack problem.now ≡ None }
    ensures { result ≡ refusals.no_slack problem.now }
{
    match first_lack(problem, Rule::Slack, loads) {
        Some(cause) => cause,
        None => unreachable!(),
    }
}
