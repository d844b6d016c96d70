ghost use Rattle.std.specs.Prelude.{◌≡◌, ◌≤◌, Ok, IfOk, OnErr};
ghost use Rattle.wan_edge.specs.Streams.{Rose};

use std::marker::Model;
use wan_edge::Failed;

/// How often a disk has failed, up to the last value of u64.
#[derive(Drop)]
pub(crate) struct Failures {
    times: u64,
}

impl Model for Failures {
    ghost use Rattle.std.specs.Prelude.{ℕ};

    ghost Value = { ℕ };

    ghost view = { λ f. f.times };
}

impl Failures {
    pub(crate) fn new() -> Self
        ensures { result ≡ 0 }
    {
        Failures { times: 0 }
    }

    /// The same answer, a failure counted.
    pub(crate) fn count_failure<T>(&mut self, answer: Result<T, Failed>) -> Result<T, Failed>
        ensures value { IfOk result (λ x. answer ≡ Ok x) }
        ensures cause { OnErr result (Rose self.old self.new) }
        ensures count { self.old ≤ self.new }
    {
        if answer.is_err() {
            self.times = self.times.saturating_add(1);
        }
        answer
    }
}
