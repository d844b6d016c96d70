ghost use Rattle.std.specs.Prelude.{◌≡◌, ℕ, Bool, length, IfOk, IsTrue};
ghost use Rattle.rollout_rules.specs.Sums.{list_below};
ghost use Rattle.dependency_graph.specs.FirstFault.{TellsSound};
ghost use Rattle.intent_journal.specs.Parts as parts;
ghost use Rattle.intent_journal.specs.Verdicts as verdicts;

use crate::part::start_count;
use crate::slot::Slot;
use dependency_graph::{StartFault, checked_plan_is_valid, sound};
use disk_model::bytes::{from_place, number_of_4};
use lists::Memory;
use std::alloc::{AllocError, Global};
use wan_model::{CheckedPlan, item_count};

// Where the first number of a part's start stands, and how many bytes each has.
const STARTS: usize = 40;

const NUMBER: usize = 4;

/// The start of a part.
pub(crate) fn start_of(
    alloc: Global,
    plan: &CheckedPlan,
    slot: &Slot,
    part: &[u8],
) -> Result<Vec<u32>, Memory>
    ensures { IfOk result
        (λ start. start.items ≡ verdicts.start_of plan.now.problem slot.now part.now) }
{
    if slot.is_second() {
        numbers(alloc, start_count(slot, part), from_place(part, STARTS))
    } else {
        zeros(alloc, item_count(plan.problem()))
    }
}

/// Whether a rollout may begin at a start. Where nothing is settled it may.
pub(crate) fn is_start(alloc: Global, plan: &CheckedPlan, start: &[u32]) -> Result<bool, Memory>
    ensures { IfOk result (λ is. is ≡ verdicts.is_start plan.now start.now) }
{
    if start.len() as u64 != u64::from(item_count(plan.problem())) {
        return Ok(false);
    }
    if is_nothing(start) {
        checked_plan_is_valid(plan);
        return Ok(true);
    }
    match sound(alloc, plan, start) {
        Ok(()) => Ok(true),
        Err(fault) => unsound(fault),
    }
}

/// No: unless there was no memory to find out.
fn unsound(fault: StartFault) -> Result<bool, Memory>
    ensures { IfOk result
        (λ is. (sound : Bool) → TellsSound {A = ℕ} (Err fault) sound → is ≡ sound) }
{
    match fault {
        StartFault::Above { .. } | StartFault::Need { .. } | StartFault::Room { .. } => Ok(false),
        StartFault::Memory => Err(AllocError),
    }
}

/// Whether nothing is settled at a start.
pub(crate) fn is_nothing(start: &[u32]) -> bool
    ensures { IsTrue result → start.now ≡ list_below (length start.now) (λ n. 0) }
{
    for item in 0..start.len() {
        if start[item] != 0 {
            return false;
        }
    }
    true
}

fn numbers(alloc: Global, count: u32, bytes: &[u8]) -> Result<Vec<u32>, Memory>
    ensures { IfOk result (λ list. list.items ≡ parts.numbers count bytes.now) }
{
    let mut list = Vec::new(alloc);
    let mut rest = bytes;
    for _number in 0..count {
        list.push(number_of_4(rest))?;
        rest = from_place(rest, NUMBER);
    }
    Ok(list)
}

pub(crate) fn zeros(alloc: Global, count: u32) -> Result<Vec<u32>, Memory>
    ensures { IfOk result (λ list. list.items ≡ list_below count (λ n. 0)) }
{
    let mut list = Vec::new(alloc);
    for _number in 0..count {
        list.push(0)?;
    }
    Ok(list)
}
