ghost use Rattle.std.specs.Prelude.{◌≡◌, ◌<◌, length, IfOk, IsTrue};
ghost use Rattle.intent_journal.specs.Parts as parts;
ghost use Rattle.intent_journal.specs.Reading as reading;
ghost use Rattle.intent_journal.specs.Reading.{IsRead, Walks, entries_from, whole_list};

use crate::listed::Listed;
use crate::part::{count_place, entry_count, first_gate};
use crate::slot::Slot;
use disk_model::bytes::{byte_in, from_place, number_of_4, up_to};
use lists::Memory;
use rollout_rules::EntryList;
use std::alloc::Global;

pub(crate) const OPEN_BATCH: u8 = 0x47;

/// Reads the rows of a part, and finds the gate after them.
pub(crate) fn read_list(alloc: Global, slot: &Slot, part: &[u8]) -> Result<(Listed, usize), Memory>
    requires { IsTrue (parts.is_whole slot.now part.now) }
    ensures { IfOk result (λ r. IsRead slot.now part.now r.0 r.1) }
{
    let mut listed = Listed::new(alloc);
    let rows = from_place(part, count_place(slot, part) + 4);
    listed.add_rows(entry_count(slot, part), rows)?;
    let inside = up_to(part, slot.size() as usize);
    let gate = walk(&mut listed, inside, first_gate(slot, part))?;
    Ok((listed, gate))
}

/// The entries of the batches that stand from a gate on, up to the first gate that is closed or whose batch is
/// cut off; none where a row there is no entry. Time and memory: those batches.
pub fn entries_behind(alloc: Global, image: &[u8], gate: usize) -> Result<Option<EntryList>, Memory>
    requires { gate < length image.now }
    ensures { IfOk result (λ read. read ≡ entries_from gate image.now) }
{
    let mut listed = Listed::new(alloc);
    walk(&mut listed, image, gate)?;
    Ok(whole_of(listed))
}

// The entries, where each row that was read is one.
#[tactic(auto, using(crate::proofs::Behind::whole_is, crate::proofs::Behind::none_is))]
fn whole_of(listed: Listed) -> Option<EntryList>
    ensures { result ≡ whole_list listed }
{
    if listed.whole {
        Some(listed.entries)
    } else {
        None
    }
}

// Reads the rows of the batches from a gate on, and finds the gate after them.
fn walk(listed: &mut Listed, bytes: &[u8], from: usize) -> Result<usize, Memory>
    requires { from < length bytes.now }
    ensures walks { IfOk result (λ gate. Walks bytes.now from gate listed.old listed.new) }
    ensures ends { IfOk result (λ gate. reading.batch_at bytes.now gate ≡ None) }
{
    let mut gate = from;
    while let Some(count) = batch_at(bytes, gate) {
        listed.add_rows(count, from_place(bytes, gate + 5))?;
        gate += 5 + 9 * count as usize;
    }
    Ok(gate)
}

// How many entries the batch after a gate has, where the gate is open and the batch whole.
fn batch_at(bytes: &[u8], gate: usize) -> Option<u32>
    requires { gate < length bytes.now }
    ensures { result ≡ reading.batch_at bytes.now gate }
{
    let rest = from_place(bytes, gate + 1);
    let count = number_of_4(rest);
    if byte_in(bytes, gate) == OPEN_BATCH && 4 + 9 * (count as usize) < rest.len() {
        Some(count)
    } else {
        None
    }
}
