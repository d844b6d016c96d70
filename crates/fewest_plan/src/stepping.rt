ghost use Rattle.std.specs.Prelude.{◌≡◌, ℕ, ◌+◌, ◌^◌, ◌<◌, ◌≤◌, length, slice_index, IfOk};
ghost use Rattle.rollout_rules.specs.declared.limits.TheConstants.{LARGEST_SCALE};
ghost use Rattle.rollout_rules.specs.Network.{IsNetwork};
ghost use Rattle.plan_check.specs.Parts.{GrownBy, largest_share, rate_share};
ghost use Rattle.fewest_plan.specs.Growth as growth;
ghost use Rattle.fewest_plan.specs.Greedy as spec;

use crate::gain::GainList;
use crate::growing::raise_links;
use crate::reaching::move_flow;
use lists::{Memory, Nums};
use std::alloc::Global;
use wan_model::Problem;

/// The shares after a rate step in which each flow of an order goes in turn as far as SWAN's test lets
/// it. Time: the lengths of the tunnels, and the links on which flows grow.
pub(crate) fn step(
    alloc: Global,
    problem: &Problem,
    scale: u32,
    order: &[u32],
    gains: &[GainList],
    shares: &[u64],
) -> Result<Vec<u64>, Memory>
    requires scale { scale ≤ LARGEST_SCALE }
    requires order { spec.IsOrder problem.now order.now }
    requires gains { gains.now ≡ growth.all_gains problem.now }
    requires shares { spec.AreShares problem.now scale shares.now }
    ensures value { IfOk result
        (λ next. next.items ≡ spec.step problem.now scale order.now shares.now) }
    ensures shares { IfOk result (λ next. spec.AreShares problem.now scale next.items) }
{
    let mut tops = tops(alloc, problem, scale, shares)?;
    let mut next = Vec::from_slice(alloc, shares)?;
    try_all(
        problem,
        scale,
        order,
        gains,
        tops.as_mut_slice(),
        next.as_mut_slice(),
    );
    Ok(next)
}

fn try_all(
    problem: &Problem,
    scale: u32,
    order: &[u32],
    gains: &[GainList],
    tops: &mut [u128],
    shares: &mut [u64],
)
    requires scale { scale ≤ LARGEST_SCALE }
    requires network { IsNetwork problem.now }
    requires order { spec.IsOrder problem.now order.now }
    requires gains { gains.now ≡ growth.all_gains problem.now }
    requires shares { spec.AreShares problem.now scale shares.old }
    requires tops { tops.old ≡ spec.tops problem.now scale shares.old shares.old }
    ensures value { shares.new ≡ spec.step problem.now scale order.now shares.old }
    ensures shares { spec.AreShares problem.now scale shares.new }
{
    for i in 0..order.len() {
        let f = order[i] as usize;
        let links = &gains[f];
        move_flow(problem, scale, tops, links.as_slice(), shares, f);
    }
}

// The tops of the links before any flow has moved.
fn tops(alloc: Global, problem: &Problem, scale: u32, shares: &[u64]) -> Result<Vec<u128>, Memory>
    requires scale { scale ≤ LARGEST_SCALE }
    requires shares { spec.AreShares problem.now scale shares.now }
    ensures value { IfOk result
        (λ sums. sums.items ≡ spec.tops problem.now scale shares.now shares.now) }
    ensures network { IsNetwork problem.now }
{
    let mut sums = vec![in alloc; 0u128; problem.links().len()]?;
    for t in 0..problem.tunnels().len() {
        add_rate(sums.as_mut_slice(), problem, scale, shares, t);
    }
    Ok(sums)
}

fn add_rate(sums: &mut [u128], problem: &Problem, scale: u32, shares: &[u64], t: usize)
    requires scale { scale ≤ LARGEST_SCALE }
    requires shares { spec.AreShares problem.now scale shares.now }
    requires tunnel { t < length problem.now.tunnels }
    requires count { length sums.old ≡ length problem.now.links }
    requires room { (k : ℕ)
        → k < length sums.old
        → slice_index sums.old k + largest_share < 2 ^ 128 }
    ensures { GrownBy sums.old sums.new
        (rate_share problem.now (spec.rate_after problem.now scale shares.now) t)
        largest_share }
{
    raise_links(sums, problem.links_of(t), rate(problem, scale, shares, t));
}

/// The rates of all tunnels at these shares, in units of 1/scale.
pub(crate) fn row(
    alloc: Global,
    problem: &Problem,
    scale: u32,
    shares: &[u64],
) -> Result<Nums, Memory>
    requires scale { scale ≤ LARGEST_SCALE }
    requires shares { spec.AreShares problem.now scale shares.now }
    ensures { IfOk result (λ row. row ≡ spec.row_after problem.now scale shares.now) }
{
    let mut row = Nums::new(alloc);
    for t in 0..problem.tunnels().len() {
        row.push(rate(problem, scale, shares, t))?;
    }
    Ok(row)
}

fn rate(problem: &Problem, scale: u32, shares: &[u64], t: usize) -> u64
    requires scale { scale ≤ LARGEST_SCALE }
    requires shares { spec.AreShares problem.now scale shares.now }
    requires tunnel { t < length problem.now.tunnels }
    ensures { result ≡ spec.rate_after problem.now scale shares.now t }
{
    let share = shares[problem.flow_of(t)];
    let old = (u64::from(scale) - share) * problem.old_rate(t);
    let new = share * problem.new_rate(t);
    old + new
}
