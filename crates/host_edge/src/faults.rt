ghost use Rattle.std.specs.Prelude.{◌≡◌, ◌≢◌, ◌≤◌, Ok, IfErr, IfOk, IsErr, OnErr};
ghost use Rattle.std.specs.IoError.{error_kind};
ghost use Rattle.wan_edge.specs.Streams.{Rose};

use std::io::{self, ErrorKind};
use std::marker::Model;
use wan_edge::Failed;

/// How often an adapter has failed, up to the last value of u64.
#[derive(Drop)]
pub(crate) struct Faults {
    times: u64,
}

impl Model for Faults {
    ghost use Rattle.std.specs.Prelude.{ℕ};

    ghost Value = { ℕ };

    ghost view = { λ f. f.times };
}

impl Faults {
    pub(crate) fn new() -> Self
        ensures { result ≡ 0 }
    {
        Faults { times: 0 }
    }

    /// The system's answer as an adapter's, a failure counted.
    pub(crate) fn count_failure<T>(&mut self, answer: io::Result<T>) -> Result<T, Failed>
        ensures value { IfOk result (λ x. answer ≡ Ok x) }
        ensures failed { OnErr result (IsErr answer) }
        ensures cause { OnErr result (Rose self.old self.new) }
        ensures count { self.old ≤ self.new }
    {
        match answer {
            Ok(value) => Ok(value),
            Err(_) => {
                self.times = self.times.saturating_add(1);
                Err(Failed)
            }
        }
    }
}

/// How often a standard stream has failed. One that isn't ready yet hasn't failed.
#[derive(Drop)]
pub(crate) struct StreamFaults {
    faults: Faults,
}

impl Model for StreamFaults {
    ghost use Rattle.std.specs.Prelude.{ℕ};

    ghost Value = { ℕ };

    ghost view = { λ f. f.faults };
}

impl StreamFaults {
    pub(crate) fn new() -> Self
        ensures { result ≡ 0 }
    {
        StreamFaults {
            faults: Faults::new(),
        }
    }

    /// The system's answer as an adapter's, a failure counted.
    pub(crate) fn count_failure<T>(&mut self, answer: io::Result<T>) -> Result<T, Failed>
        requires awaited { IfErr answer (λ error. error_kind error ≢ ErrorKind.WouldBlock) }
        ensures value { IfOk result (λ x. answer ≡ Ok x) }
        ensures failed { OnErr result (IsErr answer) }
        ensures cause { OnErr result (Rose self.old self.new) }
        ensures count { self.old ≤ self.new }
    {
        self.faults.count_failure(answer)
    }
}
