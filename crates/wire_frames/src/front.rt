ghost use Rattle.std.specs.Prelude.{◌≡◌, ℕ, [], ◌++◌, ◌-◌, ◌<◌, ◌≤◌, length, min, slice_index, take, IfNone, IfSome};
ghost use Rattle.wan_edge.specs.Frames.{HasOtherKind};

use std::cmp::min;
use std::marker::Model;

/// The bytes of a frame that has begun, of which it has at most `N`.
#[derive(Debug, Drop)]
pub(crate) struct Front<const N: usize> {
    bytes: [u8; N],
    filled: usize,
}

impl<const N: usize> Model for Front<N> {
    ghost use Rattle.std.specs.Prelude.{List, ℕ, ◌<◌, ◌≤◌, take, slice_index};

    ghost Value = { List ℕ };

    ghost view = { λ f. take f.filled f.bytes };

    ghost invariant = { λ f. (f.filled ≤ N)
        × ((i : ℕ) → slice_index (take f.filled f.bytes) i < 256) };
}

impl<const N: usize> Front<N> {
    pub(crate) fn new() -> Self
        ensures { result ≡ [] }
    {
        Front {
            bytes: [0; N],
            filled: 0,
        }
    }

    pub(crate) fn bytes(&self) -> &[u8]
        ensures all { result.now ≡ self.now }
        ensures small { (i : ℕ) → slice_index self.now i < 256 }
    {
        &self.bytes[..self.filled]
    }

    /// Takes bytes from the front of the piece until there are `most`, and says how many.
    pub(crate) fn fill(&mut self, piece: &[u8], most: usize) -> usize
        requires { most ≤ N }
        ensures count { result ≡ min (most - length self.old) (length piece.now) }
        ensures filled { self.new ≡ self.old ++ take result piece.now }
    {
        let n = min(most.saturating_sub(self.filled), piece.len());
        let bytes = &mut self.bytes[..];
        bytes[self.filled..self.filled + n].copy_from_slice(&piece[..n]);
        self.filled += n;
        n
    }

    pub(crate) fn clear(&mut self)
        ensures { self.new ≡ [] }
    {
        self.filled = 0;
    }
}

/// The byte in the place of a frame's kind, where it is another. The front is what came before the
/// piece.
pub(crate) fn other_kind(front: &[u8], piece: &[u8], kind: u8) -> Option<u8>
    requires { 0 < length front.now → slice_index front.now 0 ≡ kind }
    ensures some { IfSome result (HasOtherKind kind (front.now ++ piece.now)) }
    ensures first { IfSome result (λ _. front.now ≡ []) }
    ensures none { IfNone result
        (0 < length (front.now ++ piece.now) → slice_index (front.now ++ piece.now) 0 ≡ kind) }
{
    if !front.is_empty() {
        return None;
    }
    piece.first().copied().filter(|byte| *byte != kind)
}
