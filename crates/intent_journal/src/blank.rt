ghost use Rattle.std.specs.Prelude.{◌≡◌, ◌<◌, drop, length, IfOk, IsTrue, Some};
ghost use Rattle.intent_journal.specs.Images as images;
ghost use Rattle.intent_journal.specs.Parts.{is_whole};
ghost use Rattle.intent_journal.specs.Phases as phases;

use crate::live::live_side;
use crate::slot::{Slot, part_of};
use crate::walking::read_list;
use disk_model::bytes::byte_in;
use lists::Memory;
use std::alloc::Global;

const OPEN_JOURNAL: u8 = 0x54;

// The most bytes of a blank image.
const BLANK_MOST: usize = 300_000;

/// Whether no journal was made yet.
#[tactic(auto, unfolding(crate::specs::Images::blank_most))]
pub(crate) fn is_blank(alloc: Global, image: &[u8]) -> Result<bool, Memory>
    ensures { IfOk result (λ blank. blank ≡ images.is_blank image.now) }
{
    if image.len() <= 1 {
        return Ok(true);
    }
    if image.len() > BLANK_MOST {
        return Ok(false);
    }
    match byte_in(image, 0) {
        0 => Ok(true),
        OPEN_JOURNAL => Ok(false),
        _ => keeps_nothing(alloc, image),
    }
}

/// Whether the first byte is there, and is 0.
pub(crate) fn is_cleared(image: &[u8]) -> bool
    ensures { result ≡ phases.is_cleared image.now }
{
    !image.is_empty() && byte_in(image, 0) == 0
}

// Whether a part is live, and its list is empty.
fn keeps_nothing(alloc: Global, image: &[u8]) -> Result<bool, Memory>
    requires { 0 < length image.now }
    ensures { IfOk result
        (λ empty. empty ≡ images.keeps_nothing (images.live_part (images.opened image.now))) }
{
    match live_side(image) {
        Some(side) => list_is_empty(alloc, &Slot::at(side, image), image),
        None => Ok(false),
    }
}

fn list_is_empty(alloc: Global, slot: &Slot, image: &[u8]) -> Result<bool, Memory>
    requires { IsTrue (is_whole slot.now (drop slot.now.start image.now)) }
    ensures { IfOk result
        (λ empty. empty ≡ images.keeps_nothing (Some (images.kept_at slot.now image.now))) }
{
    let (listed, _) = read_list(alloc, slot, part_of(slot, image))?;
    Ok(listed.is_empty())
}
