//! A row of sums, one a link or a table, over all tunnels.
ghost use Rattle.std.specs.Prelude.{◌≡◌, ℕ, ◌+◌, ◌*◌, ◌^◌, ◌<◌, length, slice_index, IfOk};
ghost use Rattle.rollout_rules.specs.Sums.{list_below};
ghost use Rattle.rollout_rules.specs.Wan as wan;
ghost use Rattle.rollout_rules.specs.Items.{load, entries_at};
ghost use Rattle.wan_model.specs.Shaped.{IsShaped};
ghost use Rattle.plan_check.specs.Parts.{GrownBy, added, largest_share, rate_share};
ghost use Rattle.plan_texts.specs.Rows.{larger_at, either_at, entry_share};

use lists::{Many, Memory};
use std::alloc::Global;
use wan_model::{Plan, Problem};

/// A sum for each number, as of a link or a table.
pub(crate) type Sums = Many<u128>;

/// Per link the sum over the tunnels that cross it of the larger rate at two stages.
pub(crate) fn link_sums(
    alloc: Global,
    problem: &Problem,
    plan: &Plan,
    here: usize,
    next: usize,
) -> Result<Sums, Memory>
    requires shape { IsShaped problem.now plan.now }
    requires here { here < length plan.now.stages }
    requires next { next < length plan.now.stages }
    ensures { IfOk result
        (λ sums. sums
        ≡ list_below (length problem.now.links)
        (load problem.now (larger_at plan.now here next))) }
{
    let sums = wide_loads(alloc, problem, plan, here, next)?;
    sums_of(alloc, sums.as_slice())
}

fn wide_loads(
    alloc: Global,
    problem: &Problem,
    plan: &Plan,
    here: usize,
    next: usize,
) -> Result<Vec<u128>, Memory>
    requires shape { IsShaped problem.now plan.now }
    requires here { here < length plan.now.stages }
    requires next { next < length plan.now.stages }
    ensures { IfOk result
        (λ sums. sums.items
        ≡ list_below (length problem.now.links)
        (load problem.now (larger_at plan.now here next))) }
{
    let mut sums = vec![in alloc; 0u128; problem.links().len()]?;
    for t in 0..problem.tunnels().len() {
        add_rate(sums.as_mut_slice(), problem, plan, here, next, t);
    }
    Ok(sums)
}

fn add_rate(sums: &mut [u128], problem: &Problem, plan: &Plan, here: usize, next: usize, t: usize)
    requires shape { IsShaped problem.now plan.now }
    requires here { here < length plan.now.stages }
    requires next { next < length plan.now.stages }
    requires tunnel { t < length problem.now.tunnels }
    requires count { length sums.old ≡ length problem.now.links }
    requires room { (k : ℕ)
        → k < length sums.old
        → slice_index sums.old k + largest_share < 2 ^ 128 }
    ensures { GrownBy sums.old sums.new
        (rate_share problem.now (larger_at plan.now here next) t) largest_share }
{
    add_along(sums, problem.links_of(t), larger_rate(plan, here, next, t));
}

fn larger_rate(plan: &Plan, here: usize, next: usize, t: usize) -> u64
    requires here { here < length plan.now.stages }
    requires next { next < length plan.now.stages }
    requires here_rate { t < length (wan.stage_at plan.now here).rates }
    requires next_rate { t < length (wan.stage_at plan.now next).rates }
    ensures { result ≡ larger_at plan.now here next t }
{
    plan.rate(here, t).max(plan.rate(next, t))
}

/// Per switch the sum of the widths of the entries that are there at either of two stages.
pub(crate) fn table_sums(
    alloc: Global,
    problem: &Problem,
    plan: &Plan,
    here: usize,
    next: usize,
) -> Result<Sums, Memory>
    requires shape { IsShaped problem.now plan.now }
    requires here { here < length plan.now.stages }
    requires next { next < length plan.now.stages }
    ensures { IfOk result
        (λ sums. sums
        ≡ list_below (length problem.now.switches)
        (entries_at problem.now (λ t h. either_at plan.now here next t))) }
{
    let sums = wide_entries(alloc, problem, plan, here, next)?;
    sums_of(alloc, sums.as_slice())
}

fn wide_entries(
    alloc: Global,
    problem: &Problem,
    plan: &Plan,
    here: usize,
    next: usize,
) -> Result<Vec<u128>, Memory>
    requires shape { IsShaped problem.now plan.now }
    requires here { here < length plan.now.stages }
    requires next { next < length plan.now.stages }
    ensures { IfOk result
        (λ sums. sums.items
        ≡ list_below (length problem.now.switches)
        (entries_at problem.now (λ t h. either_at plan.now here next t))) }
{
    let mut sums = vec![in alloc; 0u128; problem.switches().len()]?;
    for t in 0..problem.tunnels().len() {
        add_entries(sums.as_mut_slice(), problem, plan, here, next, t);
    }
    Ok(sums)
}

fn add_entries(
    sums: &mut [u128],
    problem: &Problem,
    plan: &Plan,
    here: usize,
    next: usize,
    t: usize,
)
    requires shape { IsShaped problem.now plan.now }
    requires here { here < length plan.now.stages }
    requires next { next < length plan.now.stages }
    requires tunnel { t < length problem.now.tunnels }
    requires count { length sums.old ≡ length problem.now.switches }
    requires room { (k : ℕ)
        → k < length sums.old
        → slice_index sums.old k + largest_share < 2 ^ 128 }
    ensures { GrownBy sums.old sums.new
        (entry_share problem.now (either_at plan.now here next) t) largest_share }
{
    if either_mark(plan, here, next, t) {
        add_along(sums, problem.path(t), u64::from(problem.width(t)));
    }
}

fn either_mark(plan: &Plan, here: usize, next: usize, t: usize) -> bool
    requires here { here < length plan.now.stages }
    requires next { next < length plan.now.stages }
    requires here_mark { t < length (wan.stage_at plan.now here).installed }
    requires next_mark { t < length (wan.stage_at plan.now next).installed }
    ensures { result ≡ either_at plan.now here next t }
{
    plan.mark(here, t) || plan.mark(next, t)
}

fn add_along(sums: &mut [u128], row: &[u32], amount: u64)
    requires known { (h : ℕ) → h < length row.now → slice_index row.now h < length sums.old }
    requires room { (k : ℕ)
        → k < length sums.old
        → slice_index sums.old k + length row.now * amount < 2 ^ 128 }
    ensures { GrownBy sums.old sums.new (added row.now amount) (length row.now * amount) }
{
    for number in row {
        sums[*number as usize] += u128::from(amount);
    }
}

// A list of the same numbers.
fn sums_of(alloc: Global, sums: &[u128]) -> Result<Sums, Memory>
    ensures { IfOk result (λ list. list ≡ sums.now) }
{
    let mut list = Sums::new(alloc);
    for sum in sums {
        list.push(*sum)?;
    }
    Ok(list)
}
