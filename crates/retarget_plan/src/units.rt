//! Units in which all settled rates are whole.
ghost use Rattle.std.specs.Prelude.{◌≡◌, ◌/◌, ◌<◌, ◌≤◌};
ghost use Rattle.fraction_lp.specs.Divisors.{gcd};
ghost use Rattle.rollout_rules.specs.declared.limits.TheConstants.{LARGEST_SCALE};
ghost use Rattle.rollout_rules.specs.History.{places_of};
ghost use Rattle.rollout_rules.specs.Network.{IsRate};
ghost use Rattle.retarget_plan.specs.Left as left;
ghost use Rattle.retarget_plan.specs.Units as units;

use crate::looking::{scale_of, settled_rate, tunnel_total};
use dependency_graph::Graph;
use fraction_lp::greatest_common_divisor;
use wan_model::CheckedPlan;

/// How many units of 1/scale make one in which all settled rates are whole: the most. Time: the tunnels.
pub(crate) fn divisor_of(plan: &CheckedPlan, graph: &Graph) -> u64
    requires { plan.now ≡ graph.now.rollout }
    ensures value { result
        ≡ left.divisor_of plan.now.problem plan.now.plan
        (places_of plan.now.problem graph.now.history) }
    ensures some { 0 < result }
{
    let mut divisor = u64::from(scale_of(plan));
    for tunnel in 0..tunnel_total(plan) {
        let rate = settled_rate(plan, graph, tunnel);
        divisor = common(rate, divisor);
    }
    divisor
}

fn common(rate: u64, divisor: u64) -> u64
    requires { 0 < divisor }
    ensures { result ≡ gcd rate divisor }
{
    let one = u128::from(rate);
    let other = u128::from(divisor);
    let most = greatest_common_divisor(one, other);
    most as u64
}

/// How many of these units are 1.
pub(crate) fn factor_of(plan: &CheckedPlan, divisor: u64) -> u64
    requires { 0 < divisor }
    ensures value { result ≡ plan.now.plan.scale / divisor }
    ensures most { result ≤ LARGEST_SCALE }
{
    let scale = u64::from(scale_of(plan));
    scale / divisor
}

/// A rate, where there is one, so many times.
pub(crate) fn times(rate: Option<u64>, factor: u64) -> Option<u64>
    requires rate { IsRate rate }
    requires factor { factor ≤ LARGEST_SCALE }
    ensures { result ≡ units.times factor rate }
{
    match rate {
        Some(number) => {
            let product = number * factor;
            Some(product)
        }
        None => None,
    }
}
