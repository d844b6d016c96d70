ghost use Rattle.std.specs.Prelude.{◌≡◌, ◌<◌, length};
ghost use Rattle.rollout_rules.specs.Wan as wan;
ghost use Rattle.rollout_rules.specs.Valid as valid;
ghost use Rattle.rollout_rules.specs.Network.{IsNetwork};
ghost use Rattle.wan_model.specs.Shaped.{IsShaped};
ghost use Rattle.plan_check.specs.First.{first_below};
ghost use Rattle.plan_check.specs.FirstBroken as first;

use crate::broken::{Broken, breaks};
use wan_model::{Plan, Problem, Spot};

/// P5: the first stage and flow whose total lies outside the smaller and the larger of its scaled old
/// and new totals.
pub fn first_astray(problem: &Problem, plan: &Plan) -> Option<Broken>
    requires { IsShaped problem.now plan.now }
    ensures { result ≡ first_below (length plan.now.stages) (first.astray_at problem.now plan.now) }
{
    for s in 0..plan.stages.as_slice().len() {
        if let Some(broken) = astray_at(problem, plan, s) {
            return Some(broken);
        }
    }
    None
}

fn astray_at(problem: &Problem, plan: &Plan, s: usize) -> Option<Broken>
    requires shape { IsShaped problem.now plan.now }
    requires stage { s < length plan.now.stages }
    ensures { result ≡ first.astray_at problem.now plan.now s }
{
    for f in 0..problem.flows().len() {
        if let Some(broken) = astray(problem, plan, s, f) {
            return Some(broken);
        }
    }
    None
}

fn astray(problem: &Problem, plan: &Plan, s: usize, f: usize) -> Option<Broken>
    requires shape { IsShaped problem.now plan.now }
    requires stage { s < length plan.now.stages }
    requires network { IsNetwork problem.now }
    requires flow { f < length problem.now.flows }
    ensures { result ≡ first.astray problem.now plan.now s f }
{
    let spot = Spot::Flow(f as u32);
    let old = u128::from(plan.scale) * problem.old_total(f);
    let new = u128::from(plan.scale) * problem.new_total(f);
    let total = total_at(problem, plan, s, f);
    if total < old.min(new) {
        return Some(breaks(5, s, spot, total, old.min(new)));
    }
    if total > old.max(new) {
        return Some(breaks(5, s, spot, total, old.max(new)));
    }
    None
}

fn total_at(problem: &Problem, plan: &Plan, s: usize, f: usize) -> u128
    requires shape { IsShaped problem.now plan.now }
    requires stage { s < length plan.now.stages }
    requires flow { f < length problem.now.flows }
    ensures { result ≡ valid.flow_total problem.now (wan.rate_at plan.now s) f }
{
    let mut sum = 0;
    for j in 0..problem.tunnel_count(f) {
        sum += u128::from(plan.rate(s, problem.tunnel_of(f, j)));
    }
    sum
}
