//! How much room the journal of a plan is given on its disk.

ghost use Rattle.std.specs.Prelude.{◌≡◌, ◌*◌, ◌<◌, ◌^◌};
ghost use Rattle.retarget_service.specs.JournalRoom as room;

use rollout_rules::MOST_STAGES;
use std::cmp::max;
use wan_model::{CheckedPlan, item_count};

// What any journal may take, however small its plan.
const LEAST_ROOM: u64 = 33_554_432;

/// How many bytes the journal of a plan may take: more than it ever comes to, whatever is begun and done. A
/// file that is longer, or that names a place further out, is none that a rollout of the plan has left.
pub fn journal_room(plan: &CheckedPlan) -> u64
    ensures { result ≡ room.journal_room plan.now }
{
    max(LEAST_ROOM, 35 + 3 * part_room(plan))
}

// How many bytes a part of it comes to at most.
fn part_room(plan: &CheckedPlan) -> u64
    ensures value { result ≡ room.part_room plan.now }
    ensures few { result < 2 ^ 46 }
{
    let items = item_count(plan.problem());
    45 + 4 * u64::from(items) + 28 * turns(items, plan.last_stage())
}

// An operation for each item in each step.
fn turns(items: u32, steps: usize) -> u64
    requires { steps < MOST_STAGES }
    ensures value { result ≡ items * steps }
    ensures few { result < 2 ^ 40 }
{
    u64::from(items) * steps as u64
}
