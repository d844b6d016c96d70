ghost use Rattle.std.specs.Prelude.{◌≡◌, Some};
ghost use Rattle.disk_model.specs.Memory.{after_call, fails_now, fresh};

use std::marker::Model;
use wan_edge::{FailingTurns, Turns};

/// Which calls of a disk in memory fail: those that are named, and all from one on.
#[derive(Drop)]
pub struct FailingCalls {
    turns: FailingTurns,
    // The number of the next call, as the turns have it.
    next: u64,
    stop: Option<u64>,
}

impl Model for FailingCalls {
    ghost use Rattle.std.specs.Prelude.{◌≡◌};
    ghost use Rattle.disk_model.specs.Memory.{Calls};

    ghost Value = { Calls };

    ghost view = { λ c. record { turns = c.turns; stop = c.stop } };

    ghost invariant = { λ c. c.next ≡ c.turns.next };
}

impl FailingCalls {
    /// The calls whose numbers, from 0, stand in the list are to fail.
    pub fn new(fails: Turns) -> Self
        ensures { result ≡ fresh fails }
    {
        FailingCalls {
            turns: FailingTurns::new(fails),
            next: 0,
            stop: None,
        }
    }

    /// From the call with this number on every call is to fail.
    pub fn stop_at(&mut self, call: u64)
        ensures { self.new ≡ record self.old { stop = Some call } }
    {
        self.stop = Some(call);
    }

    /// Whether the next call is to fail.
    pub fn fails_now(&self) -> bool
        ensures { result ≡ fails_now self.now }
    {
        if self.turns.fails_now() {
            return true;
        }
        match self.stop {
            Some(call) => call <= self.next,
            None => false,
        }
    }

    /// Counts a call, and its failure.
    pub fn count(&mut self, failed: bool)
        ensures { self.new ≡ after_call self.old failed }
    {
        self.next = self.next.saturating_add(1);
        self.turns.count(failed);
    }

    /// How many calls there were.
    pub fn calls(&self) -> u64
        ensures { result ≡ self.now.turns.next }
    {
        self.next
    }

    /// How many of them have failed.
    pub fn failures(&self) -> u64
        ensures { result ≡ self.now.turns.failures }
    {
        self.turns.failures()
    }
}
