ghost use Rattle.std.specs.Prelude.{◌≡◌, [], length, min, take, OnErr, OnOk};
ghost use Rattle.lossy_link.specs.WayBack.{after_hearing, with_due};
ghost use Rattle.wan_edge.specs.Frames.{answer_bytes};

use lists::Memory;
use std::alloc::Global;
use std::marker::Model;
use wan_edge::Nums8;
use wire_frames::{Answer, write_answer};

/// The bytes of the answers that came back to a port, of which the first were heard.
#[derive(Debug, Drop)]
pub(crate) struct WayBack {
    bytes: Nums8,
    given: usize,
}

impl Model for WayBack {
    ghost use Rattle.std.specs.Prelude.{◌≤◌, drop, length, take};
    ghost use Rattle.lossy_link.specs.WayBack.{Back};

    ghost Value = { Back };

    ghost view = { λ w. record { heard = take w.given w.bytes; due = drop w.given w.bytes } };

    ghost invariant = { λ w. w.given ≤ length w.bytes };
}

impl WayBack {
    pub(crate) fn new(alloc: Global) -> Self
        ensures { result ≡ record { heard = []; due = [] } }
    {
        WayBack {
            bytes: Nums8::new(alloc),
            given: 0,
        }
    }

    /// Adds the bytes of an answer of this migration. Lack of memory changes nothing.
    pub(crate) fn add(&mut self, migration: u32, answer: &Answer) -> Result<(), Memory>
        ensures ok { OnOk result
            (self.new ≡ with_due self.old (answer_bytes (migration, answer.now))) }
        ensures err { OnErr result (self.new ≡ self.old) }
    {
        self.bytes
            .extend_from_slice(&write_answer(answer, migration))
    }

    /// Gives the next bytes that are there, as many as fit.
    pub(crate) fn give(&mut self, into: &mut [u8]) -> usize
        ensures count { result ≡ min (length into.old) (length self.old.due) }
        ensures given { take result into.new ≡ take result self.old.due }
        ensures left { self.new ≡ after_hearing self.old result }
    {
        let n = give_front(&self.bytes.as_slice()[self.given..], into);
        self.given += n;
        n
    }
}

/// Gives the first of these bytes, as many as fit.
pub(crate) fn give_front(due: &[u8], into: &mut [u8]) -> usize
    ensures count { result ≡ min (length into.old) (length due.now) }
    ensures given { take result into.new ≡ take result due.now }
{
    let n = into.len().min(due.len());
    into[..n].copy_from_slice(&due[..n]);
    n
}
