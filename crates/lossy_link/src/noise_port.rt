ghost use Rattle.std.specs.Prelude.{◌≡◌, ◌<◌, ◌≤◌, [], ◌++◌, length, min, take, true, false, Some, Ok, IfOk, OnErr, OnOk};
ghost use Rattle.lossy_link.specs.Counting.{no_counts, one_fault_more, told_quiet};
ghost use Rattle.lossy_link.specs.Noise.{after_noise};
ghost use Rattle.wan_edge.specs.Ports.{AppendsFront, IsOneMore};
ghost use Rattle.wan_edge.specs.Streams.{Appends, Rose};
ghost use Rattle.wan_edge.specs.Switches.{holding_nothing};

use crate::counters::Counters;
use crate::way_back::give_front;
use std::marker::Model;
use wan_edge::{Failed, Nums8, Port};

/// A dishonest port: it takes every offer, and these bytes come back, whatever was offered. No command
/// comes to its switch.
#[derive(Debug, Drop)]
pub struct NoisePort {
    // First the bytes that come back, of which some were heard, and then those offered.
    bytes: Nums8,
    noise: usize,
    heard: usize,
    counters: Counters,
}

impl Model for NoisePort {
    ghost use Rattle.std.specs.Prelude.{◌≤◌, ◌-◌, drop, length, take};
    ghost use Rattle.lossy_link.specs.Noise.{Noise};

    ghost Value = { Noise };

    ghost view = { λ p. record {
      offered = drop p.noise p.bytes;
      back = record
          { heard = take p.heard p.bytes; due = take (p.noise - p.heard) (drop p.heard p.bytes) };
      counts = p.counters;
    } };

    ghost invariant = { λ p. (p.heard ≤ p.noise) × (p.noise ≤ length p.bytes) };
}

impl NoisePort {
    /// A port from which these bytes come back.
    pub fn new(bytes: Nums8) -> Self
        ensures { result
            ≡ record {
              offered = [];
              back = record { heard = []; due = bytes };
              counts = no_counts;
            } }
    {
        let noise = bytes.as_slice().len();
        NoisePort {
            bytes,
            noise,
            heard: 0,
            counters: Counters::new(),
        }
    }
}

impl Port for NoisePort {
    ghost use Rattle.std.specs.Prelude.{false, ◌≡◌};

    ghost told = { λ p. record {
      offered = Some p.offered;
      heard = Some p.back.heard;
      held = Some holding_nothing;
      quiet = told_quiet p.counts;
      waits = Some 0;
      faults = p.counts.faults;
      honest = false;
      prompt = false;
      start = holding_nothing;
    } };

    ghost prompt_is_honest = { λ _ prompt. prompt };

    /// Takes all the bytes, or fails for lack of memory and takes none.
    fn offer(&mut self, from: &[u8]) -> Result<(), Failed>
        ensures ok { OnOk result
            (self.new ≡ record self.old { offered = self.old.offered ++ from.now }) }
        ensures err { OnErr result
            (self.new ≡ record self.old { counts = one_fault_more self.old.counts }) }
        ensures all { OnOk result
            (Appends (Some self.old.offered) from.now (Some self.new.offered)) }
        ensures part { OnErr result
            (AppendsFront (Some self.old.offered) from.now (Some self.new.offered)) }
        ensures unheard { Some self.new.back.heard ≡ Some self.old.back.heard }
        ensures no_hear { told_quiet self.new.counts ≡ told_quiet self.old.counts }
        ensures cause { OnErr result (Rose self.old.counts.faults self.new.counts.faults) }
        ensures count { self.old.counts.faults ≤ self.new.counts.faults }
    {
        match self.bytes.extend_from_slice(from) {
            Ok(()) => Ok(()),
            Err(_) => Err(self.counters.fail()),
        }
    }

    /// Gives the next bytes, as many as fit: none exactly where none is left. It never fails.
    fn hear(&mut self, into: &mut [u8]) -> Result<usize, Failed>
        requires room { 0 < length into.old }
        ensures next { result ≡ Ok (min (length into.old) (length self.old.back.due)) }
        ensures left { IfOk result (λ n. self.new ≡ after_noise self.old n) }
        ensures within { IfOk result (λ n. n ≤ length into.old) }
        ensures given { IfOk result
            (λ n. Appends (Some self.old.back.heard) (take n into.new) (Some self.new.back.heard)) }
        ensures unsent { Some self.new.offered ≡ Some self.old.offered }
        ensures quieter { IfOk result
            (λ n. n ≡ 0 → IsOneMore (told_quiet self.old.counts) (told_quiet self.new.counts)) }
        ensures as_quiet { IfOk result
            (λ n. 0 < n → told_quiet self.new.counts ≡ told_quiet self.old.counts) }
        ensures count { self.old.counts.faults ≤ self.new.counts.faults }
    {
        let n = give_front(&self.bytes.as_slice()[self.heard..self.noise], into);
        self.heard += n;
        if n == 0 {
            self.counters.count_quiet();
        }
        Ok(n)
    }

    fn is_ready(&mut self) -> bool {
        true
    }

    fn rest(&self) {}
}
