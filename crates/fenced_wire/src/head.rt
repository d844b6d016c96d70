//! The bytes in front of a command that names a term, as far as they have come.
ghost use Rattle.std.specs.Prelude.{◌≡◌, ◌≢◌, ℕ, [], ◌++◌, ◌-◌, ◌<◌, ◌≤◌, length, min, slice_index, take, true, false};
ghost use Rattle.fenced_agent.specs.Frames.{fence_kind};
ghost use Rattle.fenced_wire.specs.Reading.{IsTermIn};

use crate::writing::{FENCE, FENCE_LEN};
use byteorder::{BigEndian, ByteOrder};
use std::cmp::min;
use std::marker::Model;

#[derive(Debug, Drop)]
pub(crate) struct Head {
    bytes: [u8; FENCE_LEN],
    filled: usize,
}

impl Model for Head {
    ghost use Rattle.std.specs.Prelude.{List, ℕ, ◌<◌, ◌≤◌, take, slice_index};

    ghost Value = { List ℕ };

    ghost view = { λ h. take h.filled h.bytes };

    ghost invariant = { λ h. (h.filled ≤ 5)
        × ((i : ℕ) → slice_index (take h.filled h.bytes) i < 256) };
}

impl Head {
    pub(crate) fn new() -> Self
        ensures { result ≡ [] }
    {
        Head {
            bytes: [0; FENCE_LEN],
            filled: 0,
        }
    }

    pub(crate) fn bytes(&self) -> &[u8]
        ensures all { result.now ≡ self.now }
        ensures small { (i : ℕ) → slice_index self.now i < 256 }
        ensures short { length self.now ≤ 5 }
    {
        &self.bytes[..self.filled]
    }

    /// Takes bytes from the front of the piece until the head is whole, and says how many.
    pub(crate) fn fill(&mut self, piece: &[u8]) -> usize
        ensures count { result ≡ min (5 - length self.old) (length piece.now) }
        ensures filled { self.new ≡ self.old ++ take result piece.now }
    {
        let n = min(FENCE_LEN.saturating_sub(self.filled), piece.len());
        let bytes = &mut self.bytes[..];
        bytes[self.filled..self.filled + n].copy_from_slice(&piece[..n]);
        self.filled += n;
        n
    }

    pub(crate) fn clear(&mut self)
        ensures { self.new ≡ [] }
    {
        self.filled = 0;
    }
}

/// The term in a whole head.
pub(crate) fn term_in(head: &[u8]) -> Option<u32>
    ensures { IsTermIn head.now result }
{
    if head.len() < FENCE_LEN {
        return None;
    }
    Some(BigEndian::read_u32(&head[1..]))
}

/// Whether a piece begins with the first byte of a head.
pub(crate) fn begins_head(piece: &[u8]) -> bool
    requires { 0 < length piece.now }
    ensures yes { result ≡ true → slice_index piece.now 0 ≡ fence_kind }
    ensures no { result ≡ false → slice_index piece.now 0 ≢ fence_kind }
{
    piece[0] == FENCE
}
