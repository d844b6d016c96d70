//! The numbers of the problem of an aim: capacities and new rates.
ghost use Rattle.std.specs.Prelude.{◌≡◌, ◌<◌, ◌≤◌, length, unwrap_or, IfOk};
ghost use Rattle.rollout_rules.specs.declared.limits.TheConstants.{LARGEST_CAPACITY, LARGEST_SCALE};
ghost use Rattle.rollout_rules.specs.Wan as wan;
ghost use Rattle.rollout_rules.specs.History.{places_of};
ghost use Rattle.wan_model.specs.Rates.{rate_in};
ghost use Rattle.retarget_plan.specs.Aiming as aiming;
ghost use Rattle.retarget_plan.specs.Aiming.{AreGiven, IsGiven, MayAim};
ghost use Rattle.retarget_plan.specs.Left as left;

use crate::aim::Aim;
use crate::looking::{link_total, tunnel_total};
use crate::units::times;
use dependency_graph::{Graph, checked_plan_is_valid};
use lists::{Many, Memory, Nums};
use std::alloc::Global;
use wan_model::CheckedPlan;

/// The capacity of each link so many times: the one that a target gives, and else its own.
pub(crate) fn aimed_capacities(
    alloc: Global,
    plan: &CheckedPlan,
    aim: &Aim,
    factor: u64,
) -> Result<Nums, Memory>
    requires aim { MayAim aim.now }
    requires factor { factor ≤ LARGEST_SCALE }
    ensures { IfOk result
        (λ capacities. capacities
        ≡ aiming.aimed_capacities plan.now.problem aim.now factor) }
{
    let mut capacities = Nums::new(alloc);
    for link in 0..link_total(plan) {
        let capacity = aimed_capacity(plan, aim, link);
        let product = capacity * factor;
        capacities.push(product)?;
    }
    Ok(capacities)
}

fn aimed_capacity(plan: &CheckedPlan, aim: &Aim, link: usize) -> u64
    requires aim { MayAim aim.now }
    requires link { link < length plan.now.problem.links }
    ensures value { result ≡ aiming.aimed_capacity plan.now.problem aim.now link }
    ensures most { result ≤ LARGEST_CAPACITY }
{
    let own = own_capacity(plan, link);
    match aim {
        Aim::Toward(target) => given_or(nth(target.capacities.as_slice(), link), own),
        Aim::Shed(_) => own,
    }
}

fn own_capacity(plan: &CheckedPlan, link: usize) -> u64
    requires link { link < length plan.now.problem.links }
    ensures value { result ≡ (wan.link_at plan.now.problem link).capacity }
    ensures most { result ≤ LARGEST_CAPACITY }
{
    checked_plan_is_valid(plan);
    let problem = plan.problem();
    problem.capacity(link)
}

fn given_or(given: Option<u64>, own: u64) -> u64
    requires given { IsGiven given }
    requires own { own ≤ LARGEST_CAPACITY }
    ensures value { result ≡ unwrap_or given own }
    ensures most { result ≤ LARGEST_CAPACITY }
{
    match given {
        Some(capacity) => capacity,
        None => own,
    }
}

// The number at a place of a row; none past its end.
fn nth(row: &[Option<u64>], place: usize) -> Option<u64>
    ensures { result ≡ rate_in row.now place }
{
    if place < row.len() { row[place] } else { None }
}

/// The new rate of each tunnel: a target's so many times, or the old one but for what crosses a link.
pub(crate) fn aimed_rates(
    alloc: Global,
    plan: &CheckedPlan,
    graph: &Graph,
    aim: &Aim,
    factor: u64,
    old: &[Option<u64>],
) -> Result<Many<Option<u64>>, Memory>
    requires aim { MayAim aim.now }
    requires factor { factor
        ≡ left.factor_of plan.now.problem plan.now.plan
        (places_of plan.now.problem graph.now.history) }
    requires most { factor ≤ LARGEST_SCALE }
    requires old { old.now
        ≡ left.left_rates plan.now.problem plan.now.plan
        (places_of plan.now.problem graph.now.history) }
    ensures { IfOk result
        (λ rates. rates
        ≡ aiming.aimed_rates plan.now.problem plan.now.plan
        (places_of plan.now.problem graph.now.history) aim.now) }
{
    let mut rates = Many::new(alloc);
    for tunnel in 0..tunnel_total(plan) {
        let rate = aimed_rate(plan, aim, factor, nth(old, tunnel), tunnel);
        rates.push(rate)?;
    }
    Ok(rates)
}

fn aimed_rate(
    plan: &CheckedPlan,
    aim: &Aim,
    factor: u64,
    old: Option<u64>,
    tunnel: usize,
) -> Option<u64>
    requires aim { MayAim aim.now }
    requires factor { factor ≤ LARGEST_SCALE }
    requires tunnel { tunnel < length plan.now.problem.tunnels }
    ensures { result ≡ aiming.rate_with plan.now.problem aim.now factor old tunnel }
{
    match aim {
        Aim::Toward(target) => times(nth(target.new.as_slice(), tunnel), factor),
        Aim::Shed(link) => shed(crosses(plan, tunnel, *link), old),
    }
}

// 0 in place of a rate, where it is to be given up.
fn shed(crosses: bool, old: Option<u64>) -> Option<u64>
    ensures { result ≡ aiming.shed_where crosses old }
{
    match old {
        Some(rate) => Some(if crosses { 0 } else { rate }),
        None => None,
    }
}

fn crosses(plan: &CheckedPlan, tunnel: usize, link: u32) -> bool
    requires { tunnel < length plan.now.problem.tunnels }
    ensures { result ≡ wan.crosses plan.now.problem tunnel link }
{
    checked_plan_is_valid(plan);
    let problem = plan.problem();
    problem.links_of(tunnel).contains(&link)
}
