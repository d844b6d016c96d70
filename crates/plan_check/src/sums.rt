ghost use Rattle.std.specs.Prelude.{◌≡◌, ℕ, ◌+◌, ◌*◌, ◌^◌, ◌<◌, length, slice_index, IfOk};
ghost use Rattle.rollout_rules.specs.Items.{the_link, the_table};
ghost use Rattle.wan_model.specs.Shaped.{IsShaped};
ghost use Rattle.plan_check.specs.Parts.{GrownBy, AreTotals, added, largest_share, load_share, entry_share};

use lists::Memory;
use std::alloc::Global;
use wan_model::{Plan, Problem};

/// Per link the sum over the tunnels that cross it of the larger rate in the step from stage `s` on, in
/// units of 1/scale.
pub fn step_loads(
    alloc: Global,
    problem: &Problem,
    plan: &Plan,
    s: usize,
) -> Result<Vec<u128>, Memory>
    requires shape { IsShaped problem.now plan.now }
    requires stage { s < length plan.now.stages }
    ensures { IfOk result
        (λ sums. AreTotals problem.now plan.now s (length problem.now.links) the_link sums.items) }
{
    let mut sums = vec![in alloc; 0u128; problem.links().len()]?;
    for t in 0..problem.tunnels().len() {
        add_load(sums.as_mut_slice(), problem, plan, s, t);
    }
    Ok(sums)
}

/// Per switch the sum of the widths of the entries that are there at either end of the step from stage
/// `s` on.
pub fn step_entries(
    alloc: Global,
    problem: &Problem,
    plan: &Plan,
    s: usize,
) -> Result<Vec<u128>, Memory>
    requires shape { IsShaped problem.now plan.now }
    requires stage { s < length plan.now.stages }
    ensures { IfOk result
        (λ sums. AreTotals problem.now plan.now s (length problem.now.switches) the_table
        sums.items) }
{
    let mut sums = vec![in alloc; 0u128; problem.switches().len()]?;
    for t in 0..problem.tunnels().len() {
        add_entries(sums.as_mut_slice(), problem, plan, s, t);
    }
    Ok(sums)
}

fn add_load(sums: &mut [u128], problem: &Problem, plan: &Plan, s: usize, t: usize)
    requires shape { IsShaped problem.now plan.now }
    requires stage { s < length plan.now.stages }
    requires tunnel { t < length problem.now.tunnels }
    requires count { length sums.old ≡ length problem.now.links }
    requires room { (k : ℕ)
        → k < length sums.old
        → slice_index sums.old k + largest_share < 2 ^ 128 }
    ensures { GrownBy sums.old sums.new (load_share problem.now plan.now s t) largest_share }
{
    add_along(sums, problem.links_of(t), plan.greater_rate(s, t));
}

fn add_entries(sums: &mut [u128], problem: &Problem, plan: &Plan, s: usize, t: usize)
    requires shape { IsShaped problem.now plan.now }
    requires stage { s < length plan.now.stages }
    requires tunnel { t < length problem.now.tunnels }
    requires count { length sums.old ≡ length problem.now.switches }
    requires room { (k : ℕ)
        → k < length sums.old
        → slice_index sums.old k + largest_share < 2 ^ 128 }
    ensures { GrownBy sums.old sums.new (entry_share problem.now plan.now s t) largest_share }
{
    if plan.either_mark(s, t) {
        add_along(sums, problem.path(t), u64::from(problem.width(t)));
    }
}

pub fn add_along(sums: &mut [u128], row: &[u32], amount: u64)
    requires known { (h : ℕ) → h < length row.now → slice_index row.now h < length sums.old }
    requires room { (k : ℕ)
        → k < length sums.old
        → slice_index sums.old k + length row.now * amount < 2 ^ 128 }
    ensures { GrownBy sums.old sums.new (added row.now amount) (length row.now * amount) }
{
    for number in row {
        sums[*number as usize] += u128::from(amount);
    }
}
