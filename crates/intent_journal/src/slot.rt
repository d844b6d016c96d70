ghost use Rattle.std.specs.Prelude.{◌≡◌, ◌≤◌, ◌==◌, drop};
ghost use Rattle.intent_journal.specs.Images as images;
ghost use Rattle.intent_journal.specs.Parts as parts;

use disk_model::bytes::{byte_in, from_place, number_of_8};
use std::marker::Model;

pub(crate) const OPEN_SLOT: u8 = 0x53;

const FIRST_START: u64 = 35;

const START_END: u64 = 0x4000_0000_0000_0000;

// By how much the field of a part of the second format is more than its size.
const SECOND: u64 = 0x4000_0000_0000_0000;

const LARGEST_PART: u64 = 1_000_000_000;

/// Where a part stands: the slot's gate, the part's first byte, and the field of its size.
#[derive(Clone, Copy, Debug)]
pub(crate) struct Slot {
    pub gate: u8,
    pub start: u64,
    pub field: u64,
}

impl Model for Slot {
    ghost use Rattle.intent_journal.specs.Parts.{Slot};

    ghost Value = { Slot };

    ghost view = { λ s. record { gate = s.gate; start = s.start; field = s.field } };

    ghost inverse = { λ s. record { gate = s.gate; start = s.start; field = s.field } };
}

impl Slot {
    /// The slot at this side of an image.
    pub(crate) fn at(side: usize, image: &[u8]) -> Slot
        requires { side ≤ images.second_side }
        ensures { result ≡ images.slot_at side image.now }
    {
        Slot {
            gate: byte_in(image, side),
            start: number_of_8(from_place(image, side + 1)),
            field: number_of_8(from_place(image, side + 9)),
        }
    }

    pub(crate) fn is_open(&self) -> bool
        ensures { result ≡ (self.now.gate == images.open_slot) }
    {
        self.gate == OPEN_SLOT
    }

    pub(crate) fn is_second(&self) -> bool
        ensures { result ≡ parts.is_second self.now }
    {
        self.field >= SECOND
    }

    /// How many bytes the part has.
    pub(crate) fn size(&self) -> u64
        ensures { result ≡ parts.size_of self.now }
    {
        if self.is_second() {
            self.field - SECOND
        } else {
            self.field
        }
    }

    /// Whether a part may stand there.
    #[tactic(auto, unfolding(crate::specs::Images::is_placed))]
    pub(crate) fn is_placed(&self) -> bool
        ensures { result ≡ images.is_placed self.now }
    {
        FIRST_START <= self.start && self.start < START_END && self.size() <= LARGEST_PART
    }
}

/// The bytes of an image from a slot's part on.
pub(crate) fn part_of<'i>(slot: &Slot, image: &'i [u8]) -> &'i [u8]
    ensures { result.now ≡ drop slot.now.start image.now }
{
    from_place(image, slot.start as usize)
}
