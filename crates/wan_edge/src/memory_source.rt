ghost use Rattle.std.specs.Prelude.{◌≡◌, [], ◌++◌, length, take, min, Some, is_err, IfOk, OnErr};
ghost use Rattle.wan_edge.specs.FailingTurns.{fresh, fails_now, after_call};

use crate::{Failed, FailingTurns, Nums8, PlainSource, Source, Turns};
use std::marker::Model;

/// A source of bytes in memory, which tells them and fails at chosen calls.
#[derive(Debug, Drop)]
pub struct MemorySource {
    bytes: PlainSource,
    turns: FailingTurns,
}

impl Model for MemorySource {
    ghost use Rattle.wan_edge.specs.Memory.{Reading};

    ghost Value = { Reading };

    ghost view = { λ s. record { left = s.bytes.left; taken = s.bytes.taken; turns = s.turns } };
}

impl MemorySource {
    /// The calls of `read` whose numbers, from 0, stand in `fails` are to fail.
    pub fn new(bytes: Nums8, fails: Turns) -> Self
        ensures { result ≡ record { left = bytes; taken = []; turns = fresh fails } }
    {
        MemorySource {
            bytes: PlainSource::new(bytes),
            turns: FailingTurns::new(fails),
        }
    }

    /// How many calls have failed.
    pub fn failures(&self) -> u64
        ensures { result ≡ self.now.turns.failures }
    {
        self.turns.failures()
    }
}

impl Source for MemorySource {
    ghost told = { λ s. record {
      left = Some s.left;
      taken = Some s.taken;
      faults = s.turns.failures;
    } };

    /// As many bytes as there are and as fit, or a failure exactly where it is this call's turn.
    fn read(&mut self, into: &mut [u8]) -> Result<usize, Failed>
        ensures fails { is_err result ≡ fails_now self.old.turns }
        ensures answer { IfOk result (λ n. n ≡ min (length into.old) (length self.old.left)) }
        ensures left { IfOk result (λ n. self.old.left ≡ take n into.new ++ self.new.left) }
        ensures taken { IfOk result (λ n. self.new.taken ≡ self.old.taken ++ take n into.new) }
        ensures unread { OnErr result (self.new.left ≡ self.old.left) }
        ensures untaken { OnErr result (self.new.taken ≡ self.old.taken) }
        ensures turns { self.new.turns ≡ after_call self.old.turns (is_err result) }
    {
        let failed = self.turns.fails_now();
        self.turns.count(failed);
        if failed {
            return Err(Failed);
        }
        self.bytes.read(into)
    }
}
