ghost use Rattle.std.specs.Prelude.{◌≡◌};
ghost use Rattle.wan_edge.specs.FailingTurns.{fresh, fails_now, after_call};

use lists::Many;
use std::marker::Model;

/// Numbers of calls, from 0.
pub type Turns = Many<u64>;

/// Which calls of an object in memory fail, and how many have failed. Both counts stop at the last
/// value of u64.
#[derive(Debug, Drop)]
pub struct FailingTurns {
    fails: Turns,
    next: u64,
    failures: u64,
}

impl Model for FailingTurns {
    ghost use Rattle.wan_edge.specs.FailingTurns.{Turning};

    ghost Value = { Turning };

    ghost view = { λ t. record { fails = t.fails; next = t.next; failures = t.failures } };
}

impl FailingTurns {
    /// The calls whose numbers stand in the list are to fail.
    pub fn new(fails: Turns) -> Self
        ensures { result ≡ fresh fails }
    {
        FailingTurns {
            fails,
            next: 0,
            failures: 0,
        }
    }

    /// Whether the next call is to fail.
    pub fn fails_now(&self) -> bool
        ensures { result ≡ fails_now self.now }
    {
        self.fails.as_slice().contains(&self.next)
    }

    /// Counts a call, and its failure.
    pub fn count(&mut self, failed: bool)
        ensures { self.new ≡ after_call self.old failed }
    {
        self.next = self.next.saturating_add(1);
        if failed {
            self.failures = self.failures.saturating_add(1);
        }
    }

    pub fn failures(&self) -> u64
        ensures { result ≡ self.now.failures }
    {
        self.failures
    }
}
