ghost use Rattle.std.specs.Prelude.{◌≡◌, ◌<◌, length};
ghost use Rattle.rollout_rules.specs.Valid as valid;
ghost use Rattle.rollout_rules.specs.Network.{IsNetwork};
ghost use Rattle.wan_model.specs.Shaped.{IsShaped};
ghost use Rattle.plan_check.specs.First.{first_below};
ghost use Rattle.plan_check.specs.FirstBroken as first;

use crate::broken::{Broken, breaks};
use wan_model::{Plan, Problem, Spot};

/// P4: the first stage and tunnel with a positive rate that isn't installed there or at the stages before
/// and after, where these exist.
pub fn first_bare(problem: &Problem, plan: &Plan) -> Option<Broken>
    requires { IsShaped problem.now plan.now }
    ensures { result ≡ first_below (length plan.now.stages) (first.bare_at problem.now plan.now) }
{
    for s in 0..plan.stages.as_slice().len() {
        if let Some(broken) = bare_at(problem, plan, s) {
            return Some(broken);
        }
    }
    None
}

fn bare_at(problem: &Problem, plan: &Plan, s: usize) -> Option<Broken>
    requires shape { IsShaped problem.now plan.now }
    requires stage { s < length plan.now.stages }
    ensures { result ≡ first.bare_at problem.now plan.now s }
{
    for t in 0..problem.tunnels().len() {
        if let Some(broken) = bare(problem, plan, s, t) {
            return Some(broken);
        }
    }
    None
}

fn bare(problem: &Problem, plan: &Plan, s: usize, t: usize) -> Option<Broken>
    requires shape { IsShaped problem.now plan.now }
    requires stage { s < length plan.now.stages }
    requires network { IsNetwork problem.now }
    requires tunnel { t < length problem.now.tunnels }
    ensures { result ≡ first.bare plan.now s t }
{
    if is_carried_at(problem, plan, s, t) {
        return None;
    }
    let stage = bare_stage(problem, plan, s, t);
    Some(breaks(4, s, Spot::Tunnel(t as u32), stage as u128, s as u128))
}

fn is_carried_at(problem: &Problem, plan: &Plan, s: usize, t: usize) -> bool
    requires shape { IsShaped problem.now plan.now }
    requires stage { s < length plan.now.stages }
    requires tunnel { t < length problem.now.tunnels }
    ensures { result ≡ valid.is_carried_at plan.now s t }
{
    if plan.rate(s, t) == 0 {
        return true;
    }
    if !plan.mark(s.saturating_sub(1), t) {
        return false;
    }
    if !plan.mark(s, t) {
        return false;
    }
    plan.mark(plan.next_stage(s), t)
}

fn bare_stage(problem: &Problem, plan: &Plan, s: usize, t: usize) -> usize
    requires shape { IsShaped problem.now plan.now }
    requires stage { s < length plan.now.stages }
    requires tunnel { t < length problem.now.tunnels }
    ensures { result ≡ first.bare_stage plan.now s t }
{
    if !plan.mark(s.saturating_sub(1), t) {
        return s.saturating_sub(1);
    }
    if !plan.mark(s, t) {
        return s;
    }
    plan.next_stage(s)
}
