ghost use Rattle.std.specs.Prelude.{◌≡◌, ◌-◌, ◌*◌, ◌≤◌, ◌<◌, IfOk, length, nat_le};
ghost use Rattle.rollout_rules.specs.Slack.{has_slack};
ghost use Rattle.wan_model.specs.declared.side.Side.TheVariants.{Old, New};
ghost use Rattle.plan_check.specs.LeastSlack.{AreLoads};
ghost use Rattle.plan_check.specs.LeastSlack as spec;
ghost use Rattle.plan_check.specs.SplitLoads.{AreSplitLoads};

use crate::split_loads::SplitLoads;
use lists::Memory;
use std::alloc::Global;
use wan_model::Problem;

/// The least k from 2 to 64 for which a share 1/k of every link is free in the old and in the new split
/// (SWAN's slack), or None where there is none. Time: 63 times the links, and the tunnels once a split.
pub fn least_slack(alloc: Global, problem: &Problem) -> Result<Option<u64>, Memory>
    ensures { IfOk result (λ k. k ≡ spec.least_slack problem.now) }
{
    let loads = SplitLoads::of(alloc, problem)?;
    Ok(slack_over(problem, &loads))
}

/// The same over its loads. Time: 63 times the links.
pub fn slack_over(problem: &Problem, loads: &SplitLoads) -> Option<u64>
    requires { AreSplitLoads problem.now loads.now }
    ensures { result ≡ spec.least_slack problem.now }
{
    least_over(problem, loads.old.as_slice(), loads.new.as_slice())
}

fn least_over(problem: &Problem, old: &[u64], new: &[u64]) -> Option<u64>
    requires old { AreLoads Old problem.now old.now }
    requires new { AreLoads New problem.now new.now }
    ensures { result ≡ spec.least_slack problem.now }
{
    for k in 2..65 {
        if all_have_slack(problem, old, new, k) {
            return Some(k);
        }
    }
    None
}

fn all_have_slack(problem: &Problem, old: &[u64], new: &[u64], k: u64) -> bool
    requires old { AreLoads Old problem.now old.now }
    requires new { AreLoads New problem.now new.now }
    requires some { 1 ≤ k }
    ensures { result ≡ has_slack problem.now k }
{
    for l in 0..problem.links().len() {
        if !has_slack_at(problem, old, new, k, l) {
            return false;
        }
    }
    true
}

fn has_slack_at(problem: &Problem, old: &[u64], new: &[u64], k: u64, l: usize) -> bool
    requires old { AreLoads Old problem.now old.now }
    requires new { AreLoads New problem.now new.now }
    requires some { 1 ≤ k }
    requires link { l < length problem.now.links }
    ensures { result ≡ spec.has_slack_at problem.now k l }
{
    let capacity = problem.capacity(l);
    leaves_slack(old[l], capacity, k) && leaves_slack(new[l], capacity, k)
}

// Whether a share 1/k of the capacity is free beside the load.
fn leaves_slack(load: u64, capacity: u64, k: u64) -> bool
    requires { 1 ≤ k }
    ensures { result ≡ nat_le (k * load) ((k - 1) * capacity) }
{
    u128::from(k) * u128::from(load) <= u128::from(k - 1) * u128::from(capacity)
}
