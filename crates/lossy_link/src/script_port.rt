ghost use Rattle.std.specs.Prelude.{◌≡◌, ℕ, ◌<◌, ◌≤◌, [], ◌++◌, List, length, take, true, false, Some, Ok, IfOk, OnErr, OnOk};
ghost use Rattle.lossy_link.specs.Counting.{after_giving, one_fault_more, told_quiet};
ghost use Rattle.lossy_link.specs.Incoming.{Came, HasCommands, TakesBehind, TakesMore, offered_of};
ghost use Rattle.lossy_link.specs.Scripted.{AreSent, HearsNext, IsFresh};
ghost use Rattle.lossy_link.specs.Traffic.{traffic_of};
ghost use Rattle.switch_agent.specs.Items.{holding};
ghost use Rattle.wan_edge.specs.Frames.{CommandFrame};
ghost use Rattle.wan_edge.specs.Ports.{AnswersHeld, AppendsFront, IsHonestStep, IsOneMore, MovesByRule};
ghost use Rattle.wan_edge.specs.Streams.{Appends, Rose};
ghost use Rattle.wan_edge.specs.Switches.{holding_nothing};

use crate::FateList;
use crate::counters::Counters;
use crate::incoming::Incoming;
use crate::line::Line;
use lists::Memory;
use std::alloc::Global;
use std::marker::Model;
use wan_edge::{Failed, Port};

/// A port on which each command has its fate: it is lost, repeated or delayed on its way, and so is its
/// answer. Where memory runs out the port is down, and each later call fails.
#[derive(Debug, Drop)]
pub struct ScriptPort {
    incoming: Incoming,
    line: Line,
    down: bool,
    counters: Counters,
}

impl Model for ScriptPort {
    ghost use Rattle.lossy_link.specs.Incoming.{offered_of};
    ghost use Rattle.lossy_link.specs.Scripted.{IsScripted, Scripted};

    ghost Value = { Scripted };

    ghost view = { λ p. record {
      offered = offered_of p.incoming;
      line = p.line;
      down = p.down;
      counts = p.counters;
    } };

    ghost invariant = { λ p. IsScripted p.incoming p.line p.down };
}

impl ScriptPort {
    /// The first whole command that is offered meets the first fate, and so on; after the last fate each
    /// command comes once, and is answered once and at once.
    pub fn new(alloc: Global, fates: FateList) -> Self
        ensures { IsFresh fates result }
    {
        ScriptPort {
            incoming: Incoming::new(alloc),
            line: Line::new(alloc, fates),
            down: false,
            counters: Counters::new(),
        }
    }

    // Takes all the bytes, and sends each whole command among them.
    fn take(&mut self, from: &[u8]) -> Result<(), Memory>
        requires { self.old.down ≡ false }
        ensures all { OnOk result (self.new.offered ≡ self.old.offered ++ from.now) }
        ensures sent { OnOk result
            (Came (AreSent (traffic_of self.old.line) (traffic_of self.new.line)) self.old.offered
            self.new.offered) }
        ensures up { OnOk result (self.new.down ≡ false) }
        ensures down { OnErr result (self.new.down ≡ true) }
        ensures part { OnErr result
            (AppendsFront (Some self.old.offered) from.now (Some self.new.offered)) }
        ensures unheard { self.new.line.back.heard ≡ self.old.line.back.heard }
        ensures counts { self.new.counts ≡ self.old.counts }
        ensures by_rule { IsHonestStep (Some self.new.offered) (Some self.new.line.back.heard)
            (Some (holding self.old.line.items)) (Some (holding self.new.line.items)) }
    {
        self.down = true;
        self.incoming.accept(from)?;
        send_each(&mut self.incoming, &mut self.line)?;
        self.down = false;
        Ok(())
    }
}

// Sends the whole commands that are still to be taken, one after the other.
fn send_each(incoming: &mut Incoming, line: &mut Line) -> Result<(), Memory>
    requires honest { AnswersHeld line.old.back.heard (holding line.old.items) }
    ensures sent { OnOk result
        ((earlier : List CommandFrame)
        → HasCommands incoming.old.taken earlier
        → TakesBehind (AreSent (traffic_of line.old) (traffic_of line.new)) earlier
        incoming.new.taken) }
    ensures all { OnOk result (incoming.new.pending ≡ []) }
    ensures same { offered_of incoming.new ≡ offered_of incoming.old }
    ensures has { (earlier : List CommandFrame)
        → HasCommands incoming.old.taken earlier
        → TakesMore earlier incoming.new.taken }
    ensures moves { (earlier : List CommandFrame)
        → HasCommands incoming.old.taken earlier
        → MovesByRule (offered_of incoming.new) (holding line.old.items) (holding line.new.items) }
    ensures unheard { line.new.back.heard ≡ line.old.back.heard }
    ensures honest { AnswersHeld line.new.back.heard (holding line.new.items) }
{
    while let Some(command) = incoming.next() {
        line.send(&command)?;
    }
    Ok(())
}

impl Port for ScriptPort {
    ghost use Rattle.std.specs.Prelude.{refl};

    ghost told = { λ p. record {
      offered = Some p.offered;
      heard = Some p.line.back.heard;
      held = Some (holding p.line.items);
      quiet = told_quiet p.counts;
      waits = Some 0;
      faults = p.counts.faults;
      honest = true;
      prompt = false;
      start = holding_nothing;
    } };

    ghost prompt_is_honest = { λ _ _. refl };

    /// Takes all the bytes and sends each whole command to its fate, or fails for lack of memory.
    fn offer(&mut self, from: &[u8]) -> Result<(), Failed>
        ensures all { OnOk result
            (Appends (Some self.old.offered) from.now (Some self.new.offered)) }
        ensures sent { OnOk result
            (Came (AreSent (traffic_of self.old.line) (traffic_of self.new.line)) self.old.offered
            self.new.offered) }
        ensures up { OnOk result ((self.old.down ≡ false) × (self.new.down ≡ false)) }
        ensures down { OnErr result (self.new.down ≡ true) }
        ensures counts { OnOk result (self.new.counts ≡ self.old.counts) }
        ensures fault { OnErr result (self.new.counts ≡ one_fault_more self.old.counts) }
        ensures part { OnErr result
            (AppendsFront (Some self.old.offered) from.now (Some self.new.offered)) }
        ensures unheard { Some self.new.line.back.heard ≡ Some self.old.line.back.heard }
        ensures no_hear { told_quiet self.new.counts ≡ told_quiet self.old.counts }
        ensures cause { OnErr result (Rose self.old.counts.faults self.new.counts.faults) }
        ensures count { self.old.counts.faults ≤ self.new.counts.faults }
        ensures by_rule { IsHonestStep (Some self.new.offered) (Some self.new.line.back.heard)
            (Some (holding self.old.line.items)) (Some (holding self.new.line.items)) }
    {
        if self.down || self.take(from).is_err() {
            return Err(self.counters.fail());
        }
        Ok(())
    }

    /// Gives bytes of the answers that are there, as many as fit: none exactly where nothing is due.
    fn hear(&mut self, into: &mut [u8]) -> Result<usize, Failed>
        requires room { 0 < length into.old }
        ensures within { IfOk result (λ n. n ≤ length into.old) }
        ensures next { IfOk result
            (λ n. HearsNext (length into.old) n (traffic_of self.old.line)
            (traffic_of self.new.line)) }
        ensures given { IfOk result
            (λ n. Appends (Some self.old.line.back.heard) (take n into.new)
            (Some self.new.line.back.heard)) }
        ensures up { OnOk result ((self.old.down ≡ false) × (self.new.down ≡ false)) }
        ensures down { OnErr result (self.new.down ≡ true) }
        ensures nothing { OnErr result
            (Some self.new.line.back.heard ≡ Some self.old.line.back.heard) }
        ensures counts { IfOk result (λ n. self.new.counts ≡ after_giving self.old.counts n) }
        ensures fault { OnErr result (self.new.counts ≡ one_fault_more self.old.counts) }
        ensures unsent { Some self.new.offered ≡ Some self.old.offered }
        ensures quieter { IfOk result
            (λ n. n ≡ 0 → IsOneMore (told_quiet self.old.counts) (told_quiet self.new.counts)) }
        ensures as_quiet { IfOk result
            (λ n. 0 < n → told_quiet self.new.counts ≡ told_quiet self.old.counts) }
        ensures failed_hear { OnErr result
            (told_quiet self.new.counts ≡ told_quiet self.old.counts) }
        ensures cause { OnErr result (Rose self.old.counts.faults self.new.counts.faults) }
        ensures count { self.old.counts.faults ≤ self.new.counts.faults }
        ensures by_rule { IsHonestStep (Some self.new.offered) (Some self.new.line.back.heard)
            (Some (holding self.old.line.items)) (Some (holding self.new.line.items)) }
    {
        if self.down || self.line.turn().is_err() {
            self.down = true;
            return Err(self.counters.fail());
        }
        let n = self.line.give(into);
        if n == 0 {
            self.counters.count_quiet();
        }
        Ok(n)
    }

    fn is_ready(&mut self) -> bool {
        true
    }

    fn rest(&self) {}
}
