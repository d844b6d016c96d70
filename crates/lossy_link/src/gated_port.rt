ghost use Rattle.std.specs.Prelude.{◌≡◌, ◌<◌, ◌≤◌, [], ◌++◌, length, min, not, take, true, false, Some, Ok, IfOk, OnErr, OnOk};
ghost use mathlib.Core.List.{IsPrefix};
ghost use Rattle.std.specs.Bool.{OnTrue, OnFalse};
ghost use Rattle.lossy_link.specs.Counting.{told_quiet};
ghost use Rattle.lossy_link.specs.Faithful.{AreAnswered, AreFirstAnswered, after_failure, after_hear, after_silence, fresh_faith};
ghost use Rattle.lossy_link.specs.Incoming.{Came};
ghost use Rattle.lossy_link.specs.Gates.{have_met, inside_at, is_inside};
ghost use Rattle.switch_agent.specs.Items.{holding};
ghost use Rattle.wan_edge.specs.Ports.{AppendsFront, IsHonestStep, IsOneMore, IsPromptState, NothingToCome};
ghost use Rattle.wan_edge.specs.Streams.{Appends, Rose};
ghost use Rattle.wan_edge.specs.Switches.{holding_nothing};

use crate::{FaithfulPort, Gate};
use std::alloc::Global;
use std::marker::Model;
use wan_edge::{Failed, Port};

/// A faithful port behind one half of a gate: it hears nothing until the ports of both halves are inside
/// `hear` at once. From then on it is the faithful port.
#[derive(Drop)]
pub struct GatedPort {
    gate: Gate,
    port: FaithfulPort,
}

impl Model for GatedPort {
    ghost use Rattle.lossy_link.specs.Gates.{Gated};

    ghost Value = { Gated };

    ghost view = { λ p. record { gate = p.gate; port = p.port } };
}

impl GatedPort {
    pub fn new(alloc: Global, half: Gate) -> Self
        ensures { result ≡ record { gate = half; port = fresh_faith } }
    {
        GatedPort {
            gate: half,
            port: FaithfulPort::new(alloc),
        }
    }
}

impl Port for GatedPort {
    ghost use Rattle.std.specs.Prelude.{refl};

    ghost told = { λ p. record {
      offered = Some p.port.offered;
      heard = Some p.port.back.heard;
      held = Some (holding p.port.items);
      quiet = told_quiet p.port.counts;
      waits = Some 0;
      faults = p.port.counts.faults;
      honest = true;
      prompt = false;
      start = holding_nothing;
    } };

    ghost prompt_is_honest = { λ _ _. refl };

    /// As the faithful port does, which doesn't touch the gate.
    fn offer(&mut self, from: &[u8]) -> Result<(), Failed>
        ensures gate { self.new.gate ≡ self.old.gate }
        ensures all { OnOk result
            (Appends (Some self.old.port.offered) from.now (Some self.new.port.offered)) }
        ensures answered { OnOk result
            (Came (AreAnswered (holding self.old.port.items) (holding self.new.port.items)
            self.old.port.back self.new.port.back) self.old.port.offered self.new.port.offered) }
        ensures up { OnOk result ((self.old.port.down ≡ false) × (self.new.port.down ≡ false)) }
        ensures counts { OnOk result (self.new.port.counts ≡ self.old.port.counts) }
        ensures down { OnErr result (self.new.port.down ≡ true) }
        ensures still_down { self.old.port.down ≡ true
            → self.new.port ≡ after_failure self.old.port }
        ensures part { OnErr result
            (AppendsFront (Some self.old.port.offered) from.now (Some self.new.port.offered)) }
        ensures some { OnErr result
            (Came (AreFirstAnswered (holding self.old.port.items) (holding self.new.port.items)
            self.old.port.back self.new.port.back) self.old.port.offered self.new.port.offered) }
        ensures unheard { Some self.new.port.back.heard ≡ Some self.old.port.back.heard }
        ensures no_hear { told_quiet self.new.port.counts ≡ told_quiet self.old.port.counts }
        ensures cause { OnErr result
            (Rose self.old.port.counts.faults self.new.port.counts.faults) }
        ensures count { self.old.port.counts.faults ≤ self.new.port.counts.faults }
        ensures by_rule { IsHonestStep (Some self.new.port.offered) (Some self.new.port.back.heard)
            (Some (holding self.old.port.items)) (Some (holding self.new.port.items)) }
        ensures prompt { IsPromptState holding_nothing (Some self.new.port.offered)
            (Some self.new.port.back.heard) (Some (holding self.new.port.items)) }
    {
        self.port.offer(from)
    }

    /// Looks at the gate up to 1,000,000 times. Where it is open, it gives what the faithful port does. Else
    /// it gives nothing, and the other half is not inside at the last crossing that this one has seen.
    fn hear(&mut self, into: &mut [u8]) -> Result<usize, Failed>
        requires room { 0 < length into.old }
        ensures goes_on { IsPrefix self.old.gate.seen self.new.gate.seen }
        ensures half { (self.new.gate.gate ≡ self.old.gate.gate)
            × (self.new.gate.second ≡ self.old.gate.second) }
        ensures next { OnTrue (have_met self.new.gate.seen)
            (IfOk result (λ n. n ≡ min (length into.old) (length self.old.port.back.due))) }
        ensures left { OnTrue (have_met self.new.gate.seen)
            (IfOk result (λ n. self.new.port ≡ after_hear self.old.port n)) }
        ensures up { OnTrue (have_met self.new.gate.seen)
            (IfOk result (λ n. n ≡ 0 → self.old.port.down ≡ false)) }
        ensures down { OnErr result ((self.old.port.down ≡ true) × (self.old.port.back.due ≡ [])) }
        ensures failed { OnErr result (self.new.port ≡ after_failure self.old.port) }
        ensures all_given { OnTrue (have_met self.new.gate.seen)
            (IfOk result
            (λ n. n ≡ 0
            → NothingToCome holding_nothing (Some self.new.port.offered)
            (Some self.new.port.back.heard))) }
        ensures silent { OnFalse (have_met self.new.gate.seen)
            ((result ≡ Ok 0) × (self.new.port ≡ after_silence self.old.port)) }
        ensures alone { OnFalse (have_met self.new.gate.seen)
            (is_inside (not self.new.gate.second) (inside_at self.new.gate.seen) ≡ false) }
        ensures within { IfOk result (λ n. n ≤ length into.old) }
        ensures given { IfOk result
            (λ n. Appends (Some self.old.port.back.heard) (take n into.new)
            (Some self.new.port.back.heard)) }
        ensures nothing { OnErr result
            (Some self.new.port.back.heard ≡ Some self.old.port.back.heard) }
        ensures unsent { Some self.new.port.offered ≡ Some self.old.port.offered }
        ensures quieter { IfOk result
            (λ n. n ≡ 0
            → IsOneMore (told_quiet self.old.port.counts) (told_quiet self.new.port.counts)) }
        ensures as_quiet { IfOk result
            (λ n. 0 < n → told_quiet self.new.port.counts ≡ told_quiet self.old.port.counts) }
        ensures failed_hear { OnErr result
            (told_quiet self.new.port.counts ≡ told_quiet self.old.port.counts) }
        ensures cause { OnErr result
            (Rose self.old.port.counts.faults self.new.port.counts.faults) }
        ensures count { self.old.port.counts.faults ≤ self.new.port.counts.faults }
        ensures by_rule { IsHonestStep (Some self.new.port.offered) (Some self.new.port.back.heard)
            (Some (holding self.old.port.items)) (Some (holding self.new.port.items)) }
        ensures prompt { IsPromptState holding_nothing (Some self.new.port.offered)
            (Some self.new.port.back.heard) (Some (holding self.new.port.items)) }
    {
        if !self.gate.meet() {
            self.port.stay_quiet();
            return Ok(0);
        }
        self.port.hear(into)
    }

    fn is_ready(&mut self) -> bool {
        true
    }

    fn rest(&self) {}
}
