//! The numbers of the problem that is left: capacities, old rates, new rates.
ghost use Rattle.std.specs.Prelude.{◌≡◌, ◌<◌, ◌≤◌, length, if◌then◌else◌, IfOk, None, Some};
ghost use Rattle.rollout_rules.specs.declared.limits.TheConstants.{LARGEST_SCALE};
ghost use Rattle.rollout_rules.specs.Items.{number_of};
ghost use Rattle.rollout_rules.specs.History.{places_of};
ghost use Rattle.rollout_rules.specs.declared.item.Item.TheVariants as variants;
ghost use Rattle.retarget_plan.specs.Left as left;

use crate::looking::{is_there, link_total, settled_rate, tunnel_total};
use crate::units::times;
use dependency_graph::{Graph, Index, checked_plan_is_valid};
use lists::{Many, Memory, Nums};
use std::alloc::Global;
use wan_model::{CheckedPlan, Side};

/// The settled rate of each tunnel in units of so many of 1/scale, where its entries are there.
pub(crate) fn left_rates(
    alloc: Global,
    plan: &CheckedPlan,
    graph: &Graph,
    index: &Index,
    divisor: u64,
) -> Result<Many<Option<u64>>, Memory>
    requires own { plan.now ≡ graph.now.rollout }
    requires index { index.now ≡ plan.now }
    requires divisor { divisor
        ≡ left.divisor_of plan.now.problem plan.now.plan
        (places_of plan.now.problem graph.now.history) }
    requires some { 0 < divisor }
    ensures { IfOk result
        (λ rates. rates
        ≡ left.left_rates plan.now.problem plan.now.plan
        (places_of plan.now.problem graph.now.history)) }
{
    let mut rates = Many::new(alloc);
    for tunnel in 0..tunnel_total(plan) {
        let first = index.first_entry(tunnel);
        let rate = left_rate(plan, graph, tunnel, first, divisor);
        rates.push(rate)?;
    }
    Ok(rates)
}

fn left_rate(
    plan: &CheckedPlan,
    graph: &Graph,
    tunnel: usize,
    first: u32,
    divisor: u64,
) -> Option<u64>
    requires own { plan.now ≡ graph.now.rollout }
    requires tunnel { tunnel < length plan.now.problem.tunnels }
    requires first { first ≡ number_of plan.now.problem (variants.Entry tunnel 0) }
    requires divisor { divisor
        ≡ left.divisor_of plan.now.problem plan.now.plan
        (places_of plan.now.problem graph.now.history) }
    requires some { 0 < divisor }
    ensures { result
        ≡ left.left_rate plan.now.problem plan.now.plan
        (places_of plan.now.problem graph.now.history) tunnel }
{
    checked_plan_is_valid(plan);
    let there = is_there(plan, graph, first, tunnel);
    let rate = settled_rate(plan, graph, tunnel);
    rate_where_there(there, rate / divisor)
}

// A rate, where its tunnel is there.
fn rate_where_there(there: bool, rate: u64) -> Option<u64>
    ensures { result ≡ if there then Some rate else None }
{
    if there { Some(rate) } else { None }
}

/// The new rate of each tunnel so many times.
pub(crate) fn left_targets(
    alloc: Global,
    plan: &CheckedPlan,
    factor: u64,
) -> Result<Many<Option<u64>>, Memory>
    requires { factor ≤ LARGEST_SCALE }
    ensures { IfOk result
        (λ rates. rates ≡ left.scaled_targets plan.now.problem factor) }
{
    let mut rates = Many::new(alloc);
    for tunnel in 0..tunnel_total(plan) {
        let rate = scaled_target(plan, tunnel, factor);
        rates.push(rate)?;
    }
    Ok(rates)
}

fn scaled_target(plan: &CheckedPlan, tunnel: usize, factor: u64) -> Option<u64>
    requires tunnel { tunnel < length plan.now.problem.tunnels }
    requires factor { factor ≤ LARGEST_SCALE }
    ensures { result ≡ left.scaled_target plan.now.problem factor tunnel }
{
    let problem = plan.problem();
    let rate = problem.rate_on(Side::New, tunnel);
    times(rate, factor)
}

/// The capacity of each link so many times.
pub(crate) fn left_capacities(
    alloc: Global,
    plan: &CheckedPlan,
    factor: u64,
) -> Result<Nums, Memory>
    requires { factor ≤ LARGEST_SCALE }
    ensures { IfOk result
        (λ capacities. capacities ≡ left.scaled_capacities plan.now.problem factor) }
{
    let mut capacities = Nums::new(alloc);
    for link in 0..link_total(plan) {
        let capacity = scaled_capacity(plan, link, factor);
        capacities.push(capacity)?;
    }
    Ok(capacities)
}

fn scaled_capacity(plan: &CheckedPlan, link: usize, factor: u64) -> u64
    requires link { link < length plan.now.problem.links }
    requires factor { factor ≤ LARGEST_SCALE }
    ensures { result ≡ left.scaled_capacity plan.now.problem factor link }
{
    checked_plan_is_valid(plan);
    let problem = plan.problem();
    let capacity = problem.capacity(link);
    capacity * factor
}
