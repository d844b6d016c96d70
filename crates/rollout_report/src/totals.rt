ghost use Rattle.std.specs.Prelude.{◌≡◌, ◌+◌, ◌≤◌, ◌==◌, length, slice_index};
ghost use Rattle.rollout_rules.specs.Sums.{sum_below, count_below};
ghost use Rattle.rollout_rules.specs.Items as rules;
ghost use Rattle.dependency_graph.specs.Index.{AreItems};
ghost use Rattle.rollout_report.specs.Report as totals;

use crate::Counts;
use dependency_graph::operations;
use rollout_rules::Item;
use wan_model::{CheckedPlan, item_count};

/// How many operations all items have.
pub(crate) fn operations_of_all(plan: &CheckedPlan, items: &[Item]) -> u64
    requires { AreItems plan.now.problem (rules.item_count plan.now.problem) items.now }
    ensures { result ≡ totals.operations_of_all plan.now.problem plan.now.plan }
{
    let mut sum = 0;
    for number in 0..item_count(plan.problem()) {
        sum += u64::from(operations(plan, items[number as usize]));
    }
    sum
}

/// How many operations of so many items are settled.
pub(crate) fn settled_of_all(items: u32, counts: &Counts) -> u128
    requires { items ≤ length counts.now.settled }
    ensures { result ≡ sum_below items (slice_index counts.now.settled) }
{
    let mut sum = 0;
    for item in 0..items {
        sum += u128::from(counts.settled(item));
    }
    sum
}

/// How many of so many items have an operation in flight.
pub(crate) fn flying_of_all(items: u32, counts: &Counts) -> u32
    requires settled { items ≤ length counts.now.settled }
    requires begun { items ≤ length counts.now.begun }
    ensures { result
        ≡ count_below items
        (λ n. slice_index counts.now.begun n == slice_index counts.now.settled n + 1) }
{
    let mut count = 0;
    for item in 0..items {
        if counts.begun(item).checked_sub(1) == Some(counts.settled(item)) {
            count += 1;
        }
    }
    count
}
