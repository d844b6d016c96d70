ghost use Rattle.std.specs.Prelude.{◌≡◌};
ghost use Rattle.intent_journal.specs.Images as images;
ghost use Rattle.intent_journal.specs.Reading as reading;

use crate::part::is_whole;
use crate::slot::{Slot, part_of};

pub(crate) const FIRST_SIDE: usize = 1;

pub(crate) const SECOND_SIDE: usize = 18;

/// The side of an image's first live slot.
pub(crate) fn live_side(image: &[u8]) -> Option<usize>
    ensures { result ≡ reading.live_side image.now }
{
    if is_live(&Slot::at(FIRST_SIDE, image), image) {
        return Some(FIRST_SIDE);
    }
    if is_live(&Slot::at(SECOND_SIDE, image), image) {
        Some(SECOND_SIDE)
    } else {
        None
    }
}

fn is_live(slot: &Slot, image: &[u8]) -> bool
    ensures { result ≡ images.is_live slot.now image.now }
{
    slot.is_open() && slot.is_placed() && is_whole(slot, part_of(slot, image))
}
