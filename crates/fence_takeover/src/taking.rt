//! The start that follows from what switches hold.
ghost use Rattle.std.specs.Prelude.{◌≡◌, ◌⊎◌, ◌<◌, Some, IfErr, IfOk};
ghost use Rattle.rollout_rules.specs.Items.{item_count};
ghost use Rattle.held_service.specs.HeldText.{operations_of};
ghost use Rattle.held_service.specs.Noting.{noted_at};
ghost use Rattle.fence_takeover.specs.Starts.{IsTaken, IsUntaken, TakesOne};
ghost use Rattle.fence_takeover.specs.declared.end.FenceEnd.TheVariants as fence;

use crate::FenceEnd;
use dependency_graph::operations;
use lists::Ids;
use rollout_rules::Held;
use std::alloc::Global;
use wan_model::{CheckedPlan, item_at, item_count};

/// Of each item the number that its home holds of the migration, 0 where that is of an earlier one or nothing is
/// noted.
///
/// # Errors
///
/// `Above` and `Later` with the first item whose pair can't be taken over, and `Memory`.
pub(crate) fn taken_start(
    alloc: Global,
    plan: &CheckedPlan,
    migration: u32,
    notes: &[Option<Held>],
) -> Result<Ids, FenceEnd>
    ensures ok { IfOk result
        (λ start. IsTaken plan.now.problem plan.now.plan migration notes.now start) }
    ensures err { IfErr result
        (λ end. (end ≡ fence.Memory)
        ⊎ IsUntaken
        plan.now.problem plan.now.plan migration notes.now end) }
{
    let mut start = Ids::new(alloc);
    for item in 0..item_count(plan.problem()) {
        let number = taken_at(plan, migration, notes, item)?;
        start.push(number)?;
    }
    Ok(start)
}

// The same of one item.
fn taken_at(
    plan: &CheckedPlan,
    migration: u32,
    notes: &[Option<Held>],
    item: u32,
) -> Result<u32, FenceEnd>
    requires { item < item_count plan.now.problem }
    ensures { TakesOne migration item (operations_of plan.now.problem plan.now.plan item)
        (noted_at notes.now item) result }
{
    let noted = noted_at(notes, item);
    let count = operation_count(plan, item);
    count_taken(migration, item, count, noted)
}

// How many operations the item with a number has.
fn operation_count(plan: &CheckedPlan, item: u32) -> u32
    requires { item < item_count plan.now.problem }
    ensures { result ≡ operations_of plan.now.problem plan.now.plan item }
{
    operations(plan, item_at(plan.problem(), item))
}

// What is noted of an item.
fn noted_at(notes: &[Option<Held>], item: u32) -> Option<Held>
    ensures { result ≡ noted_at notes.now item }
{
    *notes.get(item as usize)?
}

fn count_taken(migration: u32, item: u32, count: u32, noted: Option<Held>) -> Result<u32, FenceEnd>
    ensures { TakesOne migration item count noted result }
{
    match noted {
        Some(held) => taken_of(migration, item, count, held),
        None => Ok(0),
    }
}

// The number of a pair that is held of an item with so many operations.
#[tactic(auto, using(crate::proofs::Taken::of_later, crate::proofs::Taken::of_earlier, crate::proofs::Taken::of_above, crate::proofs::Taken::of_own))]
fn taken_of(migration: u32, item: u32, count: u32, held: Held) -> Result<u32, FenceEnd>
    ensures { TakesOne migration item count (Some held) result }
{
    let found = held.migration;
    if migration < found {
        return Err(FenceEnd::Later {
            item,
            migration: found,
        });
    }
    if found < migration {
        return Ok(0);
    }
    let number = held.number;
    if count < number {
        return Err(FenceEnd::Above {
            item,
            held: number,
            count,
        });
    }
    Ok(number)
}
