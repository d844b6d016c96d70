//! The switches at which a rollout has work.
ghost use Rattle.std.specs.Prelude.{◌≡◌, ℕ, ◌<◌, ◌^◌, ◌||◌, false, length, slice_index_or, IfOk, IsTrue};
ghost use Rattle.rollout_rules.specs.Items.{is_item};
ghost use Rattle.switch_ports.specs.Homes.{is_working_home, passing_below, working_homes, works_at};

use dependency_graph::{items, operations};
use lists::{Ids, Memory};
use rollout_rules::Item;
use std::alloc::Global;
use wan_model::{CheckedPlan, home_of_item};

/// The switches that are the home of an item with an operation, from number 0 up. Time: the switches, and
/// the stages of each item.
pub(crate) fn working_homes(alloc: Global, plan: &CheckedPlan) -> Result<Ids, Memory>
    ensures { IfOk result (λ homes. homes ≡ working_homes plan.now.problem plan.now.plan) }
{
    let marks = home_marks(alloc, plan)?;
    marked_numbers(alloc, &marks)
}

// The numbers of the marks that are set.
fn marked_numbers(alloc: Global, marks: &[bool]) -> Result<Ids, Memory>
    requires few { length marks.now < 2 ^ 32 }
    ensures { IfOk result
        (λ numbers. numbers
        ≡ passing_below (length marks.now) (λ n. slice_index_or marks.now n false)) }
{
    let mut numbers = Ids::new(alloc);
    for number in 0..marks.len() {
        if marks[number] {
            numbers.push(number as u32)?;
        }
    }
    Ok(numbers)
}

// For each switch, whether it is the home of an item with an operation.
fn home_marks(alloc: Global, plan: &CheckedPlan) -> Result<Vec<bool>, Memory>
    ensures count { IfOk result (λ marks. length marks.items ≡ length plan.now.problem.switches) }
    ensures few { IfOk result (λ marks. length marks.items < 2 ^ 32) }
    ensures each { IfOk result
        (λ marks. (w : ℕ)
        → w < length plan.now.problem.switches
        → slice_index_or marks.items w false ≡ is_working_home plan.now.problem plan.now.plan w) }
{
    let items = items(alloc, plan)?;
    let mut marks = vec![in alloc; false; plan.problem().switches().len()]?;
    for item in items.as_slice() {
        mark_home(plan, *item, &mut marks);
    }
    Ok(marks)
}

// Marks the home of an item that has an operation.
fn mark_home(plan: &CheckedPlan, item: Item, marks: &mut [bool])
    requires item { IsTrue (is_item plan.now.problem item) }
    requires count { length marks.old ≡ length plan.now.problem.switches }
    ensures { (w : ℕ)
        → w < length plan.now.problem.switches
        → slice_index_or marks.new w false
        ≡ (slice_index_or marks.old w false || works_at plan.now.problem plan.now.plan w item) }
{
    if operations(plan, item) == 0 {
        return;
    }
    if let Some(home) = home_of_item(plan.problem(), item) {
        marks[home as usize] = true;
    }
}
