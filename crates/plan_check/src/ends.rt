ghost use Rattle.std.specs.Prelude.{◌≡◌, ◌<◌, length};
ghost use Rattle.rollout_rules.specs.Wan.{tunnel_at};
ghost use Rattle.rollout_rules.specs.Network.{IsNetwork};
ghost use Rattle.wan_model.specs.Shaped.{IsShaped};
ghost use Rattle.wan_model.specs.Sides.{rate_on};
ghost use Rattle.plan_check.specs.FirstBroken as first;

use crate::broken::{Broken, breaks};
use wan_model::{Plan, Problem, Side, Spot};

/// P1 of stage 0 and the old split, P2 of the last stage and the new one: the first tunnel whose rate
/// isn't scale times that of the split, or whose mark is another.
pub fn off_side(problem: &Problem, plan: &Plan, clause: u8, s: usize, side: Side) -> Option<Broken>
    requires shape { IsShaped problem.now plan.now }
    requires stage { s < length plan.now.stages }
    ensures { result ≡ first.off_side problem.now plan.now clause s side }
{
    for t in 0..problem.tunnels().len() {
        if let Some(broken) = stands_off(problem, plan, clause, s, side, t) {
            return Some(broken);
        }
    }
    None
}

fn stands_off(
    problem: &Problem,
    plan: &Plan,
    clause: u8,
    s: usize,
    side: Side,
    t: usize,
) -> Option<Broken>
    requires shape { IsShaped problem.now plan.now }
    requires stage { s < length plan.now.stages }
    requires network { IsNetwork problem.now }
    requires tunnel { t < length problem.now.tunnels }
    ensures { result
        ≡ first.stands_off plan.now clause s t (rate_on side (tunnel_at problem.now t)) }
{
    let spot = Spot::Tunnel(t as u32);
    let split = problem.rate_on(side, t);
    let rate = u128::from(plan.rate(s, t));
    let wanted = u128::from(plan.scale) * u128::from(split.unwrap_or(0));
    if rate != wanted {
        return Some(breaks(clause, s, spot, rate, wanted));
    }
    let mark = plan.mark(s, t);
    if mark != split.is_some() {
        return Some(breaks(clause, s, spot, as_number(mark), as_number(split.is_some())));
    }
    None
}

fn as_number(mark: bool) -> u128
    ensures { result ≡ first.as_number mark }
{
    if mark { 1 } else { 0 }
}
