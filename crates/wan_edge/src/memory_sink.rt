ghost use Rattle.std.specs.Prelude.{◌≡◌, [], ◌++◌, length, Some, is_err, IfOk, OnOk, OnErr, IsErr, IsTrue};
ghost use Rattle.wan_edge.specs.FailingTurns.{fresh, fails_now, after_call};

use crate::{Failed, FailingTurns, Nums8, Sink, Turns};
use std::alloc::Global;
use std::marker::Model;

/// A sink in memory, which tells its bytes and fails at chosen calls, and where it finds no memory.
#[derive(Debug, Drop)]
pub struct MemorySink {
    bytes: Nums8,
    turns: FailingTurns,
}

impl Model for MemorySink {
    ghost use Rattle.wan_edge.specs.Memory.{Writing};

    ghost Value = { Writing };

    ghost view = { λ s. record { written = s.bytes; turns = s.turns } };
}

impl MemorySink {
    /// The calls of `write` whose numbers, from 0, stand in `fails` are to fail.
    pub fn new(alloc: Global, fails: Turns) -> Self
        ensures { result ≡ record { written = []; turns = fresh fails } }
    {
        MemorySink {
            bytes: Nums8::new(alloc),
            turns: FailingTurns::new(fails),
        }
    }

    pub fn written(&self) -> &[u8]
        ensures { result.now ≡ self.now.written }
    {
        self.bytes.as_slice()
    }

    /// How many calls have failed.
    pub fn failures(&self) -> u64
        ensures { result ≡ self.now.turns.failures }
    {
        self.turns.failures()
    }
}

impl Sink for MemorySink {
    ghost told = { λ s. record { written = Some s.written; faults = s.turns.failures } };

    /// Takes all the bytes, or fails: where it is this call's turn, or for lack of memory.
    fn write(&mut self, from: &[u8]) -> Result<usize, Failed>
        ensures fails { IsTrue (fails_now self.old.turns) → IsErr result }
        ensures answer { IfOk result (λ n. n ≡ length from.now) }
        ensures appended { OnOk result (self.new.written ≡ self.old.written ++ from.now) }
        ensures nothing { OnErr result (self.new.written ≡ self.old.written) }
        ensures turns { self.new.turns ≡ after_call self.old.turns (is_err result) }
    {
        let failed = self.turns.fails_now() || self.bytes.extend_from_slice(from).is_err();
        self.turns.count(failed);
        if failed { Err(Failed) } else { Ok(from.len()) }
    }
}
