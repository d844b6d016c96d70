ghost use Rattle.std.specs.Prelude.{◌≡◌, ◌<◌, ◌≤◌, length};
ghost use Rattle.wan_model.specs.Shaped.{IsShaped};
ghost use Rattle.plan_check.specs.First.{first_below};
ghost use Rattle.plan_check.specs.FirstBroken as first;

use crate::broken::{Broken, breaks};
use rollout_rules::{LARGEST_SCALE, MOST_STAGES, Spot};
use wan_model::{Plan, Problem};

/// P0: what isn't within the limits, of the scale and the number of stages, or the first stage without a
/// rate and a mark per tunnel.
pub fn shape_fault(problem: &Problem, plan: &Plan) -> Option<Broken>
    ensures value { result ≡ first.misshapen problem.now plan.now }
    ensures shape { result ≡ None → IsShaped problem.now plan.now }
{
    if let Some(broken) = outside(plan.scale as usize, LARGEST_SCALE as usize) {
        return Some(broken);
    }
    if let Some(broken) = outside(plan.stages.as_slice().len(), MOST_STAGES) {
        return Some(broken);
    }
    first_not_full(problem, plan)
}

fn outside(number: usize, most: usize) -> Option<Broken>
    ensures { result ≡ first.outside number most }
{
    if number < 1 {
        return Some(breaks(0, 0, Spot::Whole, number as u128, 1));
    }
    if number > most {
        return Some(breaks(0, 0, Spot::Whole, number as u128, most as u128));
    }
    None
}

fn first_not_full(problem: &Problem, plan: &Plan) -> Option<Broken>
    requires { length plan.now.stages ≤ MOST_STAGES }
    ensures { result ≡ first_below (length plan.now.stages) (first.not_full problem.now plan.now) }
{
    for s in 0..plan.stages.as_slice().len() {
        if let Some(broken) = not_full(problem, plan, s) {
            return Some(broken);
        }
    }
    None
}

fn not_full(problem: &Problem, plan: &Plan, s: usize) -> Option<Broken>
    requires few { length plan.now.stages ≤ MOST_STAGES }
    requires stage { s < length plan.now.stages }
    ensures { result ≡ first.not_full problem.now plan.now s }
{
    let stage = &plan.stages.as_slice()[s];
    let tunnels = problem.tunnels().len();
    let rates = stage.rates.as_slice().len();
    if rates != tunnels {
        return Some(breaks(0, s, Spot::Whole, rates as u128, tunnels as u128));
    }
    let marks = stage.installed.as_slice().len();
    if marks != tunnels {
        return Some(breaks(0, s, Spot::Whole, marks as u128, tunnels as u128));
    }
    None
}
