ghost use Rattle.std.specs.Prelude.{◌≡◌, [], ◌++◌, IfOk, if◌then◌else◌};

use lists::Memory;
use std::alloc::Global;
use std::marker::Model;

/// At most so many bytes are kept, 64 KiB.
const MOST_KEPT: usize = 65_536;

/// The buffer of a [`crate::PieceSink`], which contracts see as the bytes in it.
#[derive(Debug, Drop)]
pub struct Kept {
    bytes: Vec<u8>,
}

impl Model for Kept {
    ghost use Rattle.std.specs.Prelude.{List, ℕ};

    ghost Value = { List ℕ };

    ghost view = { λ k. k.bytes.items };
}

impl Kept {
    /// An empty buffer. All its memory is taken here: an Err is want of it.
    pub fn new(alloc: Global) -> Result<Self, Memory>
        ensures { IfOk result (λ kept. kept ≡ []) }
    {
        Ok(Kept {
            bytes: Vec::with_capacity(alloc, MOST_KEPT)?,
        })
    }

    /// Keeps a piece too, where there is room for it, and says whether.
    pub(crate) fn keeps(&mut self, piece: &[u8]) -> bool
        ensures { self.new ≡ (if result then self.old ++ piece.now else self.old) }
    {
        let room = MOST_KEPT.saturating_sub(self.bytes.len());
        piece.len() <= room && self.bytes.extend_from_slice(piece).is_ok()
    }

    pub(crate) fn as_slice(&self) -> &[u8]
        ensures { result.now ≡ self.now }
    {
        self.bytes.as_slice()
    }

    pub(crate) fn clear(&mut self)
        ensures { self.new ≡ [] }
    {
        self.bytes.clear();
    }
}
