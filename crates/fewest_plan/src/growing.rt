ghost use Rattle.std.specs.Prelude.{◌≡◌, ℕ, ◌+◌, ◌*◌, ◌^◌, ◌<◌, ◌≤◌, ◌++◌, length, slice_index, IfOk, OnOk};
ghost use Rattle.rollout_rules.specs.declared.limits.TheConstants.{MOST_LINKS};
ghost use Rattle.plan_check.specs.Parts.{GrownBy, added, largest_share};
ghost use Rattle.rollout_rules.specs.Wan.{flow_at};
ghost use Rattle.fewest_plan.specs.Growth as spec;

use crate::gain::{Gain, GainList};
use lists::{Many, Memory};
use std::alloc::Global;
use wan_model::Problem;

/// For each flow the links on which it grows. Time: the lengths of the tunnels, and flows times links.
pub(crate) fn all_gains(alloc: Global, problem: &Problem) -> Result<Many<GainList>, Memory>
    ensures { IfOk result (λ gains. gains ≡ spec.all_gains problem.now) }
{
    let mut gains = Many::new(alloc);
    for f in 0..problem.flows().len() {
        gains.push(gains_of(alloc, problem, f)?)?;
    }
    Ok(gains)
}

fn gains_of(alloc: Global, problem: &Problem, f: usize) -> Result<GainList, Memory>
    requires { f < length problem.now.flows }
    ensures { IfOk result (λ gains. gains ≡ spec.gains_of problem.now f) }
{
    let growths = growths(alloc, problem, f)?;
    growing(alloc, growths.as_slice())
}

// A flow's growth on each link.
fn growths(alloc: Global, problem: &Problem, f: usize) -> Result<Vec<u128>, Memory>
    requires { f < length problem.now.flows }
    ensures value { IfOk result (λ sums. sums.items ≡ spec.growths problem.now f) }
    ensures few { length problem.now.links ≤ MOST_LINKS }
{
    let mut sums = vec![in alloc; 0u128; problem.links().len()]?;
    for j in 0..problem.tunnel_count(f) {
        add_gain(sums.as_mut_slice(), problem, f, j);
    }
    Ok(sums)
}

// Those above 0, with their links.
fn growing(alloc: Global, growths: &[u128]) -> Result<GainList, Memory>
    requires { length growths.now ≤ MOST_LINKS }
    ensures { IfOk result
        (λ gains. gains ≡ spec.gains_in (slice_index growths.now) (length growths.now)) }
{
    let mut gains = GainList::new(alloc);
    for l in 0..growths.len() {
        push_gain(&mut gains, l as u32, growths[l])?;
    }
    Ok(gains)
}

fn push_gain(gains: &mut GainList, link: u32, growth: u128) -> Result<(), Memory>
    ensures { OnOk result (gains.new ≡ gains.old ++ spec.gain_on link growth) }
{
    if growth > 0 {
        gains.push(Gain { link, growth })?;
    }
    Ok(())
}

// What the j-th tunnel of a flow adds.
fn add_gain(sums: &mut [u128], problem: &Problem, f: usize, j: u32)
    requires flow { f < length problem.now.flows }
    requires tunnel { j < (flow_at problem.now f).tunnels }
    requires count { length sums.old ≡ length problem.now.links }
    requires room { (k : ℕ)
        → k < length sums.old
        → slice_index sums.old k + largest_share < 2 ^ 128 }
    ensures { GrownBy sums.old sums.new (spec.part_at problem.now f j) largest_share }
{
    let t = problem.tunnel_of(f, j);
    let gain = problem.new_rate(t).saturating_sub(problem.old_rate(t));
    raise_links(sums, problem.links_of(t), gain);
}

/// Adds an amount to the sum of each link of a row.
pub(crate) fn raise_links(sums: &mut [u128], row: &[u32], amount: u64)
    requires known { (h : ℕ) → h < length row.now → slice_index row.now h < length sums.old }
    requires room { (k : ℕ)
        → k < length sums.old
        → slice_index sums.old k + length row.now * amount < 2 ^ 128 }
    ensures { GrownBy sums.old sums.new (added row.now amount) (length row.now * amount) }
{
    for link in row {
        sums[*link as usize] += u128::from(amount);
    }
}
