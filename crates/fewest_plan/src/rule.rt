ghost use Rattle.std.specs.Prelude.{◌≡◌, ◌≤◌, None, IfOk};
ghost use Rattle.rollout_rules.specs.declared.limits.TheConstants.{LARGEST_SCALE};
ghost use Rattle.fewest_plan.specs.Growth as growth;
ghost use Rattle.fewest_plan.specs.Greedy.{IsOrder};
ghost use Rattle.fewest_plan.specs.Relief.{by_relief};
ghost use Rattle.fewest_plan.specs.Fewest as spec;

use crate::gain::GainList;
use crate::growing::all_gains;
use crate::relief::by_relief;
use crate::walking::greedy;
use lists::{Ids, Memory};
use plan_choose::Planned;
use std::alloc::Global;
use wan_model::Problem;

/// The plan of the rule with the fewest rate steps, no more than so many, and the first of several: the flows
/// by item, then those first that relieve the fullest links.
pub(crate) fn by_rule(
    alloc: Global,
    problem: &Problem,
    most: u32,
) -> Result<Option<Planned>, Memory>
    requires { most ≤ 252 }
    ensures { IfOk result (λ found. found ≡ spec.by_rule problem.now most) }
{
    if most == 0 {
        return Ok(None);
    }
    let gains = all_gains(alloc, problem)?;
    by_both(alloc, problem, gains.as_slice(), most)
}

fn by_both(
    alloc: Global,
    problem: &Problem,
    gains: &[GainList],
    most: u32,
) -> Result<Option<Planned>, Memory>
    requires gains { gains.now ≡ growth.all_gains problem.now }
    requires most { most ≤ 252 }
    ensures { IfOk result (λ found. found ≡ spec.by_rule problem.now most) }
{
    let found = least_by_item(alloc, problem, gains, most)?;
    least_by_relief(alloc, problem, gains, most, found)
}

fn least_by_item(
    alloc: Global,
    problem: &Problem,
    gains: &[GainList],
    most: u32,
) -> Result<Option<Planned>, Memory>
    requires gains { gains.now ≡ growth.all_gains problem.now }
    requires most { most ≤ 252 }
    ensures { IfOk result
        (λ found. found ≡ spec.in_parts problem.now most (spec.by_item problem.now) None) }
{
    let order = by_item(alloc, problem)?;
    in_parts(alloc, problem, order.as_slice(), gains, most, None)
}

fn by_item(alloc: Global, problem: &Problem) -> Result<Ids, Memory>
    ensures { IfOk result (λ order. order ≡ spec.by_item problem.now) }
{
    let mut order = Ids::new(alloc);
    for f in 0..problem.flows().len() {
        order.push(f as u32)?;
    }
    Ok(order)
}

fn least_by_relief(
    alloc: Global,
    problem: &Problem,
    gains: &[GainList],
    most: u32,
    found: Option<Planned>,
) -> Result<Option<Planned>, Memory>
    requires gains { gains.now ≡ growth.all_gains problem.now }
    requires most { most ≤ 252 }
    ensures { IfOk result
        (λ best. best ≡ spec.in_parts problem.now most (by_relief problem.now) found) }
{
    let order = by_relief(alloc, problem)?;
    in_parts(alloc, problem, order.as_slice(), gains, most, found)
}

// With whole flows, halves and twelfths.
#[tactic(auto, unfolding(crate::specs::Fewest::in_parts))]
fn in_parts(
    alloc: Global,
    problem: &Problem,
    order: &[u32],
    gains: &[GainList],
    most: u32,
    found: Option<Planned>,
) -> Result<Option<Planned>, Memory>
    requires order { IsOrder problem.now order.now }
    requires gains { gains.now ≡ growth.all_gains problem.now }
    requires most { most ≤ 252 }
    ensures { IfOk result (λ best. best ≡ spec.in_parts problem.now most order.now found) }
{
    let found = improve(alloc, problem, 1, order, gains, most, found)?;
    let found = improve(alloc, problem, 2, order, gains, most, found)?;
    improve(alloc, problem, 12, order, gains, most, found)
}

// What was found, unless the rule gives fewer rate steps.
fn improve(
    alloc: Global,
    problem: &Problem,
    scale: u32,
    order: &[u32],
    gains: &[GainList],
    most: u32,
    found: Option<Planned>,
) -> Result<Option<Planned>, Memory>
    requires scale { scale ≤ LARGEST_SCALE }
    requires order { IsOrder problem.now order.now }
    requires gains { gains.now ≡ growth.all_gains problem.now }
    requires most { most ≤ 252 }
    ensures { IfOk result (λ best. best ≡ spec.improved problem.now most order.now scale found) }
{
    let fewer = fewer_than(most, &found);
    match greedy(alloc, problem, scale, order, gains, fewer)? {
        Some(better) => Ok(Some(better)),
        None => Ok(found),
    }
}

fn fewer_than(most: u32, found: &Option<Planned>) -> u32
    ensures value { result ≡ spec.fewer_than most found.now }
    ensures most { result ≤ most }
{
    match found {
        Some(planned) => planned.rate_steps.saturating_sub(1).min(most),
        None => most,
    }
}
