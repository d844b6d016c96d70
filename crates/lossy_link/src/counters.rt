ghost use Rattle.std.specs.Prelude.{◌≡◌};
ghost use Rattle.lossy_link.specs.Counting.{no_counts, one_fault_more, one_quiet_more};

use std::marker::Model;
use wan_edge::Failed;

/// How often a port gave nothing, and how often it failed. Both counts stop at the last value of u64.
#[derive(Debug, Drop)]
pub(crate) struct Counters {
    quiet: u64,
    faults: u64,
}

impl Model for Counters {
    ghost use Rattle.lossy_link.specs.Counting.{Counts};

    ghost Value = { Counts };

    ghost view = { λ c. record { quiet = c.quiet; faults = c.faults } };
}

impl Counters {
    pub(crate) fn new() -> Self
        ensures { result ≡ no_counts }
    {
        Counters {
            quiet: 0,
            faults: 0,
        }
    }

    pub(crate) fn count_quiet(&mut self)
        ensures { self.new ≡ one_quiet_more self.old }
    {
        self.quiet = self.quiet.saturating_add(1);
    }

    /// Counts a failure and gives it.
    pub(crate) fn fail(&mut self) -> Failed
        ensures { self.new ≡ one_fault_more self.old }
    {
        self.faults = self.faults.saturating_add(1);
        Failed
    }
}
