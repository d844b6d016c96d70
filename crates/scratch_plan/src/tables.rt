ghost use Rattle.std.specs.Prelude.{◌≡◌, ℕ, ◌+◌, ◌*◌, ◌^◌, ◌<◌, length, slice_index, IfOk};
ghost use Rattle.plan_check.specs.Parts.{GrownBy, added};
ghost use Rattle.plan_check.specs.First.{first_of};
ghost use Rattle.scratch_plan.specs.Lacks.{AreEntries};
ghost use Rattle.scratch_plan.specs.Tables.{group_share, largest_group_share};
ghost use Rattle.scratch_plan.specs.Refusals as spec;
ghost use Rattle.scratch_plan.specs.declared.group.Group.TheVariants as group;

use crate::group::Group;
use crate::no_plan::NoPlan;
use lists::Memory;
use std::alloc::Global;
use wan_model::Problem;

/// The first switch whose table hasn't room for what is installed at first, or else for what is wanted or
/// carrying.
pub(crate) fn table_full(alloc: Global, problem: &Problem) -> Result<Option<NoPlan>, Memory>
    ensures { IfOk result (λ cause. cause ≡ spec.table_full problem.now) }
{
    let first = entries(alloc, problem, Group::WasThere)?;
    let moving = entries(alloc, problem, Group::Used)?;
    Ok(first_full(problem, first.as_slice(), moving.as_slice()))
}

// Per switch the sum of the widths of a group's entries there.
fn entries(alloc: Global, problem: &Problem, group: Group) -> Result<Vec<u64>, Memory>
    ensures { IfOk result (λ sums. AreEntries group problem.now sums.items) }
{
    let mut sums = vec![in alloc; 0u64; problem.switches().len()]?;
    for t in 0..problem.tunnels().len() {
        add_entries(sums.as_mut_slice(), problem, group, t);
    }
    Ok(sums)
}

fn add_entries(sums: &mut [u64], problem: &Problem, group: Group, t: usize)
    requires tunnel { t < length problem.now.tunnels }
    requires count { length sums.old ≡ length problem.now.switches }
    requires room { (w : ℕ)
        → w < length sums.old
        → slice_index sums.old w + largest_group_share < 2 ^ 64 }
    ensures { GrownBy sums.old sums.new (group_share problem.now group t) largest_group_share }
{
    if group.has(problem, t) {
        add_along(sums, problem.path(t), u64::from(problem.width(t)));
    }
}

fn add_along(sums: &mut [u64], row: &[u32], amount: u64)
    requires known { (h : ℕ) → h < length row.now → slice_index row.now h < length sums.old }
    requires room { (w : ℕ)
        → w < length sums.old
        → slice_index sums.old w + length row.now * amount < 2 ^ 64 }
    ensures { GrownBy sums.old sums.new (added row.now amount) (length row.now * amount) }
{
    for number in row {
        sums[*number as usize] += amount;
    }
}

fn first_full(problem: &Problem, first: &[u64], moving: &[u64]) -> Option<NoPlan>
    requires first { AreEntries group.WasThere problem.now first.now }
    requires moving { AreEntries group.Used problem.now moving.now }
    ensures { result ≡ spec.table_full problem.now }
{
    for w in 0..problem.switches().len() {
        if let Some(cause) = full_at(problem, w as u32, first[w], moving[w]) {
            return Some(cause);
        }
    }
    None
}

fn full_at(problem: &Problem, w: u32, first: u64, moving: u64) -> Option<NoPlan>
    requires { w < length problem.now.switches }
    ensures { result
        ≡ first_of (spec.overfull problem.now w first) (spec.overfull problem.now w moving) }
{
    if let Some(cause) = overfull(problem, w, first) {
        return Some(cause);
    }
    overfull(problem, w, moving)
}

fn overfull(problem: &Problem, w: u32, wanted: u64) -> Option<NoPlan>
    requires { w < length problem.now.switches }
    ensures { result ≡ spec.overfull problem.now w wanted }
{
    let table = problem.table(w as usize);
    if wanted <= u64::from(table) {
        return None;
    }
    Some(NoPlan::TableFull {
        switch: w,
        wanted,
        size: u64::from(table),
    })
}
