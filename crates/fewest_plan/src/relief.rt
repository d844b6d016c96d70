ghost use Rattle.std.specs.Prelude.{◌≡◌, ◌*◌, ◌^◌, ◌<◌, ◌≤◌, length, nat_le, IfOk};
ghost use Rattle.rollout_rules.specs.declared.limits.TheConstants.{LARGEST_CAPACITY, MOST_FLOWS};
ghost use Rattle.rollout_rules.specs.Network.{IsNetwork};
ghost use Rattle.rollout_rules.specs.Sums.{list_below};
ghost use Rattle.rollout_rules.specs.Wan.{link_at};
ghost use Rattle.wan_model.specs.declared.side.Side.TheVariants.{Old, New};
ghost use Rattle.plan_check.specs.LeastSlack.{AreLoads};
ghost use Rattle.fewest_plan.specs.Greedy.{IsOrder};
ghost use Rattle.fewest_plan.specs.Marked as marked;
ghost use Rattle.fewest_plan.specs.Relief as spec;

use crate::marked::{borne, one_where};
use lists::{Ids, Marks, Memory, Nums};
use plan_check::SplitLoads;
use std::alloc::Global;
use wan_model::{Problem, Side};

/// The flows, those first that relieve the fullest links of most. Time: links times links and flows times
/// flows.
pub(crate) fn by_relief(alloc: Global, problem: &Problem) -> Result<Ids, Memory>
    ensures value { IfOk result (λ order. order ≡ spec.by_relief problem.now) }
    ensures order { IfOk result (λ order. IsOrder problem.now order) }
{
    let marks = fullest(alloc, problem)?;
    relieving(alloc, problem, marks.as_slice())
}

fn relieving(alloc: Global, problem: &Problem, marks: &[bool]) -> Result<Ids, Memory>
    requires network { IsNetwork problem.now }
    requires count { length marks.now ≡ length problem.now.links }
    requires marks { marks.now ≡ spec.fullest problem.now }
    ensures value { IfOk result (λ order. order ≡ spec.by_relief problem.now) }
    ensures order { IfOk result (λ order. IsOrder problem.now order) }
{
    let earlier = borne_by_all(alloc, problem, marks, Side::Old)?;
    let later = borne_by_all(alloc, problem, marks, Side::New)?;
    let before = earlier.as_slice();
    let after = later.as_slice();
    by_loads(alloc, before, after)
}

// A mark per link: whether it is among the fullest.
fn fullest(alloc: Global, problem: &Problem) -> Result<Marks, Memory>
    ensures value { IfOk result (λ marks. marks ≡ spec.fullest problem.now) }
    ensures network { IsNetwork problem.now }
{
    let loads = SplitLoads::of(alloc, problem)?;
    fullest_by(alloc, problem, loads.old.as_slice(), loads.new.as_slice())
}

fn fullest_by(alloc: Global, problem: &Problem, old: &[u64], new: &[u64]) -> Result<Marks, Memory>
    requires old { AreLoads Old problem.now old.now }
    requires new { AreLoads New problem.now new.now }
    ensures { IfOk result (λ marks. marks ≡ spec.fullest problem.now) }
{
    let mut marks = Marks::new(alloc);
    for l in 0..problem.links().len() {
        marks.push(is_fullest(problem, old, new, l))?;
    }
    Ok(marks)
}

fn is_fullest(problem: &Problem, old: &[u64], new: &[u64], l: usize) -> bool
    requires old { AreLoads Old problem.now old.now }
    requires new { AreLoads New problem.now new.now }
    requires link { l < length problem.now.links }
    ensures { result ≡ spec.is_fullest problem.now l }
{
    for m in 0..problem.links().len() {
        if !is_near(problem, old, new, l, m) {
            return false;
        }
    }
    true
}

fn is_near(problem: &Problem, old: &[u64], new: &[u64], l: usize, m: usize) -> bool
    requires old { AreLoads Old problem.now old.now }
    requires new { AreLoads New problem.now new.now }
    requires link { l < length problem.now.links }
    requires other { m < length problem.now.links }
    ensures { result ≡ spec.is_near problem.now l m }
{
    let here = u128::from(old[l].max(new[l]));
    let there = u128::from(old[m].max(new[m]));
    is_as_full(
        here,
        capacity_of(problem, l),
        there,
        capacity_of(problem, m),
    )
}

fn capacity_of(problem: &Problem, l: usize) -> u128
    requires { l < length problem.now.links }
    ensures value { result ≡ (link_at problem.now l).capacity }
    ensures most { result ≤ LARGEST_CAPACITY }
{
    let rows = problem.links();
    let row = &rows[l];
    u128::from(row.capacity)
}

// Whether a load is at least four fifths as large a share of its capacity as another one of its own.
fn is_as_full(load: u128, capacity: u128, other: u128, its: u128) -> bool
    requires load { load < 2 ^ 64 }
    requires capacity { capacity ≤ LARGEST_CAPACITY }
    requires other { other < 2 ^ 64 }
    requires its { its ≤ LARGEST_CAPACITY }
    ensures { result ≡ nat_le (4 * (other * capacity)) (5 * (load * its)) }
{
    let left = other * capacity;
    let right = load * its;
    let least = 4 * left;
    let most = 5 * right;
    least <= most
}

// What each flow loads the marked links with in a split.
fn borne_by_all(
    alloc: Global,
    problem: &Problem,
    marks: &[bool],
    side: Side,
) -> Result<Nums, Memory>
    requires { length marks.now ≡ length problem.now.links }
    ensures { IfOk result
        (λ row. row
        ≡ list_below (length problem.now.flows) (marked.borne problem.now marks.now side)) }
{
    let mut row = Nums::new(alloc);
    for f in 0..problem.flows().len() {
        row.push(borne(problem, marks, side, f))?;
    }
    Ok(row)
}

// How many flows come before each.
fn ranks(alloc: Global, before: &[u64], after: &[u64]) -> Result<Nums, Memory>
    requires { length after.now ≡ length before.now }
    ensures { IfOk result (λ row. row ≡ spec.ranks before.now after.now) }
{
    let mut row = Nums::new(alloc);
    for f in 0..before.len() {
        row.push(rank(before, after, f))?;
    }
    Ok(row)
}

fn rank(before: &[u64], after: &[u64], f: usize) -> u64
    requires count { length after.now ≡ length before.now }
    requires flow { f < length before.now }
    ensures { result ≡ spec.rank before.now after.now f }
{
    let mut sum = 0;
    for g in 0..before.len() {
        sum += one_where(comes_first(before, after, f, g));
    }
    sum
}

fn comes_first(before: &[u64], after: &[u64], f: usize, g: usize) -> bool
    requires count { length after.now ≡ length before.now }
    requires flow { f < length before.now }
    requires other { g < length before.now }
    ensures { result ≡ spec.comes_first before.now after.now f g }
{
    let here = u128::from(after[f]) + u128::from(before[g]);
    let there = u128::from(after[g]) + u128::from(before[f]);
    there < here || (there == here && g < f)
}

// The flows by how much more they load the marked links with in the end.
fn by_loads(alloc: Global, before: &[u64], after: &[u64]) -> Result<Ids, Memory>
    requires count { length after.now ≡ length before.now }
    requires few { length before.now ≤ MOST_FLOWS }
    ensures { IfOk result (λ order. order ≡ spec.by_loads before.now after.now) }
{
    let row = ranks(alloc, before, after)?;
    by_rank(alloc, row.as_slice())
}

fn by_rank(alloc: Global, row: &[u64]) -> Result<Ids, Memory>
    requires { length row.now ≤ MOST_FLOWS }
    ensures { IfOk result
        (λ order. order ≡ list_below (length row.now) (spec.of_rank row.now)) }
{
    let mut order = Ids::new(alloc);
    for i in 0..row.len() {
        order.push(of_rank(row, i))?;
    }
    Ok(order)
}

fn of_rank(row: &[u64], i: usize) -> u32
    requires { length row.now ≤ MOST_FLOWS }
    ensures { result ≡ spec.of_rank row.now i }
{
    for f in 0..row.len() {
        if has_rank(row, i, f) {
            return f as u32;
        }
    }
    0
}

fn has_rank(row: &[u64], i: usize, f: usize) -> bool
    requires { f < length row.now }
    ensures { result ≡ spec.has_rank row.now i f }
{
    row[f] == i as u64
}
