ghost use Rattle.std.specs.Prelude.{◌≡◌, ◌*◌, ◌<◌, ◌≤◌, not, ◌&&◌, length, IfOk};
ghost use Rattle.rollout_rules.specs.declared.limits.TheConstants.{LARGEST_RATE, MOST_HOPS, MOST_TUNNELS_OF_FLOW};
ghost use Rattle.rollout_rules.specs.Wan as wan;
ghost use Rattle.wan_model.specs.declared.side.Side.TheVariants.{Old, New};
ghost use Rattle.plan_check.specs.LeastSlack.{AreLoads};
ghost use Rattle.fewest_plan.specs.Stuck as spec;

use crate::marked::count_crossed;
use lists::{Marks, Memory};
use plan_check::SplitLoads;
use rollout_rules::MOST_HOPS;
use std::alloc::Global;
use wan_model::Problem;

/// The links that have a weight of 1 in a test of a link; the others have none.
#[derive(Clone, Copy, Debug, PartialEq, Eq)]
pub(crate) enum Weight {
    /// The link itself.
    Alone,
    /// Those from its first switch.
    Leaving,
    /// Those to its second switch.
    Entering,
}

/// The first link that stays full at every stage of every plan, though something across it is to move. Time:
/// for each link that is full in both splits, the lengths of the tunnels.
pub(crate) fn stuck_link(alloc: Global, problem: &Problem) -> Result<Option<u32>, Memory>
    ensures { IfOk result (λ link. link ≡ spec.stuck_link problem.now) }
{
    let loads = SplitLoads::of(alloc, problem)?;
    first_stuck(alloc, problem, loads.old.as_slice(), loads.new.as_slice())
}

fn first_stuck(
    alloc: Global,
    problem: &Problem,
    old: &[u64],
    new: &[u64],
) -> Result<Option<u32>, Memory>
    requires old { AreLoads Old problem.now old.now }
    requires new { AreLoads New problem.now new.now }
    ensures { IfOk result (λ link. link ≡ spec.stuck_link problem.now) }
{
    for l in 0..problem.links().len() {
        let stuck = is_stuck(alloc, problem, old, new, l as u32)?;
        if stuck {
            return Ok(Some(l as u32));
        }
    }
    Ok(None)
}

fn is_stuck(
    alloc: Global,
    problem: &Problem,
    old: &[u64],
    new: &[u64],
    l: u32,
) -> Result<bool, Memory>
    requires old { AreLoads Old problem.now old.now }
    requires new { AreLoads New problem.now new.now }
    requires link { l < length problem.now.links }
    ensures { IfOk result (λ is. is ≡ spec.is_stuck problem.now l) }
{
    if may_be_stuck(problem, old, new, l) {
        return stays_full(alloc, problem, l as usize);
    }
    Ok(false)
}

fn may_be_stuck(problem: &Problem, old: &[u64], new: &[u64], l: u32) -> bool
    requires old { AreLoads Old problem.now old.now }
    requires new { AreLoads New problem.now new.now }
    requires link { l < length problem.now.links }
    ensures { result ≡ (spec.is_full problem.now l && not (spec.rests problem.now l)) }
{
    is_full(problem, old, new, l as usize) && !rests(problem, l)
}

fn is_full(problem: &Problem, old: &[u64], new: &[u64], l: usize) -> bool
    requires old { AreLoads Old problem.now old.now }
    requires new { AreLoads New problem.now new.now }
    requires link { l < length problem.now.links }
    ensures { result ≡ spec.is_full problem.now l }
{
    let capacity = problem.capacity(l);
    old[l] == capacity && new[l] == capacity
}

// Whether each tunnel across a link keeps its rate.
fn rests(problem: &Problem, l: u32) -> bool
    ensures { result ≡ spec.rests problem.now l }
{
    for t in 0..problem.tunnels().len() {
        if !rests_at(problem, l, t) {
            return false;
        }
    }
    true
}

fn rests_at(problem: &Problem, l: u32, t: usize) -> bool
    requires { t < length problem.now.tunnels }
    ensures { result ≡ spec.rests_at problem.now l t }
{
    !crosses(problem, l, t) || problem.old_rate(t) == problem.new_rate(t)
}

fn crosses(problem: &Problem, l: u32, t: usize) -> bool
    requires { t < length problem.now.tunnels }
    ensures { result ≡ wan.crosses problem.now t l }
{
    problem.links_of(t).contains(&l)
}

// Whether a link stays full by one of the weights.
fn stays_full(alloc: Global, problem: &Problem, l: usize) -> Result<bool, Memory>
    requires { l < length problem.now.links }
    ensures { IfOk result (λ is. is ≡ spec.stays_full problem.now l) }
{
    let alone = stays_by(alloc, problem, Weight::Alone, l)?;
    let leaving = stays_by(alloc, problem, Weight::Leaving, l)?;
    let entering = stays_by(alloc, problem, Weight::Entering, l)?;
    Ok(alone || leaving || entering)
}

fn stays_by(alloc: Global, problem: &Problem, weight: Weight, l: usize) -> Result<bool, Memory>
    requires { l < length problem.now.links }
    ensures { IfOk result
        (λ is. is ≡ spec.stay_full problem.now (spec.weighed weight problem.now l)) }
{
    let marks = weigh_links(alloc, problem, weight, l)?;
    Ok(stay_full(problem, marks.as_slice()))
}

fn weigh_links(alloc: Global, problem: &Problem, weight: Weight, l: usize) -> Result<Marks, Memory>
    requires { l < length problem.now.links }
    ensures { IfOk result (λ marks. marks ≡ spec.weighed weight problem.now l) }
{
    let mut marks = Marks::new(alloc);
    for k in 0..problem.links().len() {
        marks.push(weighs(problem, weight, l, k))?;
    }
    Ok(marks)
}

fn weighs(problem: &Problem, weight: Weight, l: usize, k: usize) -> bool
    requires link { l < length problem.now.links }
    requires other { k < length problem.now.links }
    ensures { result ≡ spec.weighs weight problem.now l k }
{
    let links = problem.links();
    let link = &links[l];
    let other = &links[k];
    match weight {
        Weight::Alone => k == l,
        Weight::Leaving => other.from == link.from,
        Weight::Entering => other.to == link.to,
    }
}

// Whether flows always take all of the marked links.
fn stay_full(problem: &Problem, marks: &[bool]) -> bool
    requires { length marks.now ≡ length problem.now.links }
    ensures { result ≡ spec.stay_full problem.now marks.now }
{
    room(problem, marks) <= sum_kept(problem, marks)
}

fn room(problem: &Problem, marks: &[bool]) -> u128
    requires { length marks.now ≡ length problem.now.links }
    ensures { result ≡ spec.room problem.now marks.now }
{
    let mut sum = 0;
    for l in 0..problem.links().len() {
        sum += u128::from(room_on(problem, marks, l));
    }
    sum
}

fn room_on(problem: &Problem, marks: &[bool], l: usize) -> u64
    requires count { length marks.now ≡ length problem.now.links }
    requires link { l < length problem.now.links }
    ensures { result ≡ spec.room_on problem.now marks.now l }
{
    if marks[l] { problem.capacity(l) } else { 0 }
}

fn sum_kept(problem: &Problem, marks: &[bool]) -> u128
    requires { length marks.now ≡ length problem.now.links }
    ensures { result ≡ spec.kept problem.now marks.now }
{
    let mut sum = 0;
    for f in 0..problem.flows().len() {
        sum += kept_by(problem, marks, f);
    }
    sum
}

fn kept_by(problem: &Problem, marks: &[bool], f: usize) -> u128
    requires count { length marks.now ≡ length problem.now.links }
    requires flow { f < length problem.now.flows }
    ensures value { result ≡ spec.kept_by problem.now marks.now f }
    ensures most { result ≤ MOST_HOPS * (MOST_TUNNELS_OF_FLOW * LARGEST_RATE) }
{
    let total = problem.old_total(f).min(problem.new_total(f));
    times(u128::from(least_crossed(problem, marks, f)), total)
}

fn times(often: u128, total: u128) -> u128
    requires often { often ≤ MOST_HOPS }
    requires total { total ≤ MOST_TUNNELS_OF_FLOW * LARGEST_RATE }
    ensures value { result ≡ often * total }
    ensures most { result ≤ MOST_HOPS * (MOST_TUNNELS_OF_FLOW * LARGEST_RATE) }
{
    often * total
}

fn least_crossed(problem: &Problem, marks: &[bool], f: usize) -> u64
    requires count { length marks.now ≡ length problem.now.links }
    requires flow { f < length problem.now.flows }
    ensures value { result ≡ spec.least_crossed problem.now marks.now f }
    ensures most { result ≤ MOST_HOPS }
{
    let mut least = MOST_HOPS as u64;
    for j in 0..problem.tunnel_count(f) {
        least = least.min(count_crossed(problem, marks, problem.tunnel_of(f, j)));
    }
    least
}
