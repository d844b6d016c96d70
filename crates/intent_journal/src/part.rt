ghost use Rattle.std.specs.Prelude.{◌≡◌, ◌≤◌, ◌^◌};
ghost use Rattle.intent_journal.specs.Parts as parts;

use crate::slot::Slot;
use disk_model::bytes::{from_place, number_of_4};

// How many bytes a part's digest has.
const DIGEST: usize = 32;

// Where the migration of a part of the second format stands, how many numbers it starts with, and the first of these.
const MIGRATION: usize = 32;

const START_COUNT: usize = 36;

const STARTS: usize = 40;

/// The migration of a part.
pub(crate) fn migration_in(slot: &Slot, part: &[u8]) -> u32
    ensures { result ≡ parts.migration_in slot.now part.now }
{
    if slot.is_second() {
        number_of_4(from_place(part, MIGRATION))
    } else {
        0
    }
}

/// How many numbers a part starts with.
pub(crate) fn start_count(slot: &Slot, part: &[u8]) -> u32
    ensures { result ≡ parts.start_count slot.now part.now }
{
    if slot.is_second() {
        number_of_4(from_place(part, START_COUNT))
    } else {
        0
    }
}

/// Where the count of a part's list stands.
pub(crate) fn count_place(slot: &Slot, part: &[u8]) -> usize
    ensures place { result ≡ parts.count_place slot.now part.now }
    ensures small { result ≤ 2 ^ 35 }
{
    if slot.is_second() {
        STARTS + 4 * start_count(slot, part) as usize
    } else {
        DIGEST
    }
}

/// How many entries a part's list has.
pub(crate) fn entry_count(slot: &Slot, part: &[u8]) -> u32
    ensures { result ≡ parts.count_of slot.now part.now }
{
    number_of_4(from_place(part, count_place(slot, part)))
}

/// Where the gate after a part's list stands.
pub(crate) fn first_gate(slot: &Slot, part: &[u8]) -> usize
    ensures gate { result ≡ parts.first_gate slot.now part.now }
    ensures small { result ≤ 2 ^ 37 }
{
    count_place(slot, part) + 4 + 9 * entry_count(slot, part) as usize
}

/// Whether a part's list and the gate after it are all there.
pub(crate) fn is_whole(slot: &Slot, part: &[u8]) -> bool
    ensures { result ≡ parts.is_whole slot.now part.now }
{
    let gate = first_gate(slot, part);
    (gate as u64) < slot.size() && gate < part.len()
}
