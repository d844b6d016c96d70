//! The list that an image stands for, without a journal that is opened.
ghost use Rattle.std.specs.Prelude.{◌≡◌, Some, true, IfOk, IfSome};
ghost use Rattle.intent_journal.specs.Images.{open_journal};
ghost use Rattle.disk_model.specs.Numbers as numbers;
ghost use Rattle.intent_journal.specs.Reading as reading;
ghost use Rattle.intent_journal.specs.Reading.{Lists};

use crate::layout::OPEN_JOURNAL;
use crate::listed::Listed;
use crate::live::live_side;
use crate::slot::{Slot, part_of};
use crate::walking::read_list;
use disk_model::bytes::byte_in;
use lists::Memory;
use rollout_rules::EntryList;
use std::alloc::Global;

/// The list that an image stands for; none where a row of it is no entry.
#[tactic(auto, using(crate::proofs::Listings::no_journal_lists, crate::proofs::Listings::no_side_lists))]
pub fn list_of(alloc: Global, image: &[u8]) -> Result<Option<EntryList>, Memory>
    ensures { IfOk result (λ found. IfSome found (λ list. Lists list image.now)) }
{
    let first = byte_in(image, 0);
    if first != OPEN_JOURNAL {
        return Ok(Some(EntryList::new(alloc)));
    }
    match live_side(image) {
        Some(side) => list_at(alloc, image, side),
        None => Ok(Some(EntryList::new(alloc))),
    }
}

// The list of a journal whose live slot is at this side.
fn list_at(alloc: Global, image: &[u8], side: usize) -> Result<Option<EntryList>, Memory>
    requires journal { numbers.byte_at 0 image.now ≡ open_journal }
    requires side { reading.live_side image.now ≡ Some side }
    ensures { IfOk result (λ found. IfSome found (λ list. Lists list image.now)) }
{
    let slot = Slot::at(side, image);
    let (listed, _gate) = read_list(alloc, &slot, part_of(&slot, image))?;
    Ok(whole_of(listed))
}

// The entries, where each row was one.
fn whole_of(listed: Listed) -> Option<EntryList>
    ensures { IfSome result (λ list. listed ≡ record { entries = list; whole = true }) }
{
    if listed.whole {
        Some(listed.entries)
    } else {
        None
    }
}
