ghost use Rattle.std.specs.Prelude.{◌≡◌, [], ◌++◌, length, take, min, Some, Ok, IfOk};

use crate::{Failed, Source};
use lists::Many;
use std::cmp::min;
use std::marker::Model;

/// Bytes.
pub type Nums8 = Many<u8>;

/// A source of bytes in memory, which tells them and never fails. It is seen as the bytes not yet read and
/// those that were read.
#[derive(Debug, Drop)]
pub struct PlainSource {
    bytes: Nums8,
    at: usize,
}

impl Model for PlainSource {
    ghost use Rattle.std.specs.Prelude.{◌≤◌, length, drop, take};
    ghost use Rattle.wan_edge.specs.Memory.{Tape};

    ghost Value = { Tape };

    ghost view = { λ s. record { left = drop s.at s.bytes; taken = take s.at s.bytes } };

    ghost invariant = { λ s. s.at ≤ length s.bytes };
}

impl PlainSource {
    pub fn new(bytes: Nums8) -> Self
        ensures { result ≡ record { left = bytes; taken = [] } }
    {
        PlainSource { bytes, at: 0 }
    }
}

impl Source for PlainSource {
    ghost told = { λ s. record { left = Some s.left; taken = Some s.taken; faults = 0 } };

    /// As many bytes as there are and as fit.
    fn read(&mut self, into: &mut [u8]) -> Result<usize, Failed>
        ensures answer { result ≡ Ok (min (length into.old) (length self.old.left)) }
        ensures left { IfOk result (λ n. self.old.left ≡ take n into.new ++ self.new.left) }
        ensures taken { IfOk result (λ n. self.new.taken ≡ self.old.taken ++ take n into.new) }
    {
        let rest = &self.bytes.as_slice()[self.at..];
        let n = min(into.len(), rest.len());
        into[..n].copy_from_slice(&rest[..n]);
        self.at += n;
        Ok(n)
    }
}
