ghost use Rattle.std.specs.Prelude.{◌≡◌, ◌<◌, ◌≤◌, [], ◌++◌, length, take, true, false, Some, Ok, IfOk, OnErr, OnOk};
ghost use Rattle.lossy_link.specs.Counting.{no_counts, one_fault_more, one_quiet_more, told_quiet};
ghost use Rattle.wan_edge.specs.Ports.{AppendsFront, IsHonestStep, IsOneMore};
ghost use Rattle.wan_edge.specs.Streams.{Appends, Rose};
ghost use Rattle.wan_edge.specs.Switches.{holding_nothing};

use crate::counters::Counters;
use std::alloc::Global;
use std::marker::Model;
use wan_edge::{Failed, Nums8, Port};

/// A port that takes every offer and never answers: no command comes to its switch.
#[derive(Debug, Drop)]
pub struct SilentPort {
    offered: Nums8,
    counters: Counters,
}

impl Model for SilentPort {
    ghost use Rattle.lossy_link.specs.Silent.{Silence};

    ghost Value = { Silence };

    ghost view = { λ p. record { offered = p.offered; counts = p.counters } };
}

impl SilentPort {
    pub fn new(alloc: Global) -> Self
        ensures { result ≡ record { offered = []; counts = no_counts } }
    {
        SilentPort {
            offered: Nums8::new(alloc),
            counters: Counters::new(),
        }
    }
}

impl Port for SilentPort {
    ghost use Rattle.std.specs.Prelude.{refl};

    ghost told = { λ p. record {
      offered = Some p.offered;
      heard = Some [];
      held = Some holding_nothing;
      quiet = told_quiet p.counts;
      waits = Some 0;
      faults = p.counts.faults;
      honest = true;
      prompt = false;
      start = holding_nothing;
    } };

    ghost prompt_is_honest = { λ _ _. refl };

    /// Takes all the bytes, or fails for lack of memory and takes none.
    fn offer(&mut self, from: &[u8]) -> Result<(), Failed>
        ensures ok { OnOk result
            (self.new ≡ record self.old { offered = self.old.offered ++ from.now }) }
        ensures err { OnErr result
            (self.new ≡ record self.old { counts = one_fault_more self.old.counts }) }
        ensures all { OnOk result
            (Appends (Some self.old.offered) from.now (Some self.new.offered)) }
        ensures part { OnErr result
            (AppendsFront (Some self.old.offered) from.now (Some self.new.offered)) }
        ensures no_hear { told_quiet self.new.counts ≡ told_quiet self.old.counts }
        ensures cause { OnErr result (Rose self.old.counts.faults self.new.counts.faults) }
        ensures count { self.old.counts.faults ≤ self.new.counts.faults }
        ensures by_rule { IsHonestStep (Some self.new.offered) (Some []) (Some holding_nothing)
            (Some holding_nothing) }
    {
        match self.offered.extend_from_slice(from) {
            Ok(()) => Ok(()),
            Err(_) => Err(self.counters.fail()),
        }
    }

    /// Gives nothing, and never fails.
    fn hear(&mut self, _into: &mut [u8]) -> Result<usize, Failed>
        requires room { 0 < length _into.old }
        ensures nothing { result ≡ Ok 0 }
        ensures quiet { self.new ≡ record self.old { counts = one_quiet_more self.old.counts } }
        ensures given { IfOk result (λ n. Appends (Some []) (take n _into.new) (Some [])) }
        ensures unsent { Some self.new.offered ≡ Some self.old.offered }
        ensures quieter { IfOk result
            (λ n. n ≡ 0 → IsOneMore (told_quiet self.old.counts) (told_quiet self.new.counts)) }
        ensures count { self.old.counts.faults ≤ self.new.counts.faults }
        ensures by_rule { IsHonestStep (Some self.new.offered) (Some []) (Some holding_nothing)
            (Some holding_nothing) }
    {
        self.counters.count_quiet();
        Ok(0)
    }

    fn is_ready(&mut self) -> bool {
        true
    }

    fn rest(&self) {}
}
