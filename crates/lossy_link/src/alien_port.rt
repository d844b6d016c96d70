ghost use Rattle.std.specs.Prelude.{◌≡◌, ◌<◌, ◌≤◌, ◌++◌, [], List, length, min, take, true, false, Some, Ok, IfOk, OnErr, OnOk};
ghost use Rattle.lossy_link.specs.Aliens.{AreAnsweredWith, fresh};
ghost use Rattle.lossy_link.specs.Counting.{after_giving, one_fault_more, told_quiet};
ghost use Rattle.lossy_link.specs.Incoming.{Came, HasCommands, TakesBehind, TakesMore, offered_of};
ghost use Rattle.lossy_link.specs.WayBack.{after_hearing};
ghost use Rattle.wan_edge.specs.Frames.{CommandFrame};
ghost use Rattle.wan_edge.specs.Ports.{AppendsFront, IsOneMore};
ghost use Rattle.wan_edge.specs.Streams.{Appends, Rose};
ghost use Rattle.wan_edge.specs.Switches.{holding_nothing};

use crate::counters::Counters;
use crate::incoming::Incoming;
use crate::way_back::WayBack;
use lists::Memory;
use std::alloc::Global;
use std::marker::Model;
use wan_edge::{Failed, Port};
use wire_frames::Answer;

/// A dishonest port: it answers one number to each whole command, in the command's migration, whatever
/// its switch holds, which is nothing. Where memory runs out the port is down, and each later call fails.
#[derive(Debug, Drop)]
pub struct AlienPort {
    incoming: Incoming,
    back: WayBack,
    held: u32,
    down: bool,
    counters: Counters,
}

impl Model for AlienPort {
    ghost use Rattle.lossy_link.specs.Aliens.{Alien};
    ghost use Rattle.lossy_link.specs.Incoming.{IsTaken, offered_of};

    ghost Value = { Alien };

    ghost view = { λ p. record {
      offered = offered_of p.incoming;
      back = p.back;
      number = p.held;
      down = p.down;
      counts = p.counters;
    } };

    ghost invariant = { λ p. IsTaken p.incoming p.down };
}

impl AlienPort {
    /// A port that answers this number.
    pub fn new(alloc: Global, held: u32) -> Self
        ensures { result ≡ fresh held }
    {
        AlienPort {
            incoming: Incoming::new(alloc),
            back: WayBack::new(alloc),
            held,
            down: false,
            counters: Counters::new(),
        }
    }

    // Takes all the bytes, and answers each whole command among them.
    fn take(&mut self, from: &[u8]) -> Result<(), Memory>
        requires { self.old.down ≡ false }
        ensures all { OnOk result (self.new.offered ≡ self.old.offered ++ from.now) }
        ensures answered { OnOk result
            (Came (AreAnsweredWith self.old.number self.old.back self.new.back) self.old.offered
            self.new.offered) }
        ensures up { OnOk result (self.new.down ≡ false) }
        ensures down { OnErr result (self.new.down ≡ true) }
        ensures part { OnErr result
            (AppendsFront (Some self.old.offered) from.now (Some self.new.offered)) }
        ensures unheard { self.new.back.heard ≡ self.old.back.heard }
        ensures counts { self.new.counts ≡ self.old.counts }
        ensures number { self.new.number ≡ self.old.number }
    {
        self.down = true;
        self.incoming.accept(from)?;
        answer_each(&mut self.incoming, &mut self.back, self.held)?;
        self.down = false;
        Ok(())
    }
}

// Answers this number to the whole commands that are still to be taken, one after the other.
fn answer_each(incoming: &mut Incoming, back: &mut WayBack, held: u32) -> Result<(), Memory>
    ensures answered { OnOk result
        ((earlier : List CommandFrame)
        → HasCommands incoming.old.taken earlier
        → TakesBehind (AreAnsweredWith held back.old back.new) earlier incoming.new.taken) }
    ensures all { OnOk result (incoming.new.pending ≡ []) }
    ensures same { offered_of incoming.new ≡ offered_of incoming.old }
    ensures has { (earlier : List CommandFrame)
        → HasCommands incoming.old.taken earlier
        → TakesMore earlier incoming.new.taken }
    ensures unheard { back.new.heard ≡ back.old.heard }
{
    while let Some(command) = incoming.next() {
        let item = command.1.item;
        back.add(command.0, &Answer { item, held })?;
    }
    Ok(())
}

impl Port for AlienPort {
    ghost use Rattle.std.specs.Prelude.{false, ◌≡◌};

    ghost told = { λ p. record {
      offered = Some p.offered;
      heard = Some p.back.heard;
      held = Some holding_nothing;
      quiet = told_quiet p.counts;
      waits = Some 0;
      faults = p.counts.faults;
      honest = false;
      prompt = false;
      start = holding_nothing;
    } };

    ghost prompt_is_honest = { λ _ prompt. prompt };

    /// Takes all the bytes and answers each whole command, or fails for lack of memory.
    fn offer(&mut self, from: &[u8]) -> Result<(), Failed>
        ensures all { OnOk result
            (Appends (Some self.old.offered) from.now (Some self.new.offered)) }
        ensures answered { OnOk result
            (Came (AreAnsweredWith self.old.number self.old.back self.new.back) self.old.offered
            self.new.offered) }
        ensures number { self.new.number ≡ self.old.number }
        ensures up { OnOk result ((self.old.down ≡ false) × (self.new.down ≡ false)) }
        ensures down { OnErr result (self.new.down ≡ true) }
        ensures counts { OnOk result (self.new.counts ≡ self.old.counts) }
        ensures fault { OnErr result (self.new.counts ≡ one_fault_more self.old.counts) }
        ensures part { OnErr result
            (AppendsFront (Some self.old.offered) from.now (Some self.new.offered)) }
        ensures unheard { Some self.new.back.heard ≡ Some self.old.back.heard }
        ensures no_hear { told_quiet self.new.counts ≡ told_quiet self.old.counts }
        ensures cause { OnErr result (Rose self.old.counts.faults self.new.counts.faults) }
        ensures count { self.old.counts.faults ≤ self.new.counts.faults }
    {
        if self.down || self.take(from).is_err() {
            return Err(self.counters.fail());
        }
        Ok(())
    }

    /// Gives bytes of the answers that are there, as many as fit: none exactly where nothing is due.
    fn hear(&mut self, into: &mut [u8]) -> Result<usize, Failed>
        requires room { 0 < length into.old }
        ensures within { IfOk result (λ n. n ≤ length into.old) }
        ensures most { IfOk result (λ n. n ≡ min (length into.old) (length self.old.back.due)) }
        ensures left { IfOk result (λ n. self.new.back ≡ after_hearing self.old.back n) }
        ensures given { IfOk result
            (λ n. Appends (Some self.old.back.heard) (take n into.new) (Some self.new.back.heard)) }
        ensures same { (self.new.number ≡ self.old.number) × (self.new.down ≡ self.old.down) }
        ensures up { OnErr result (self.old.down ≡ true) }
        ensures nothing { OnErr result (self.new.back ≡ self.old.back) }
        ensures counts { IfOk result (λ n. self.new.counts ≡ after_giving self.old.counts n) }
        ensures fault { OnErr result (self.new.counts ≡ one_fault_more self.old.counts) }
        ensures unsent { Some self.new.offered ≡ Some self.old.offered }
        ensures quieter { IfOk result
            (λ n. n ≡ 0 → IsOneMore (told_quiet self.old.counts) (told_quiet self.new.counts)) }
        ensures as_quiet { IfOk result
            (λ n. 0 < n → told_quiet self.new.counts ≡ told_quiet self.old.counts) }
        ensures failed_hear { OnErr result
            (told_quiet self.new.counts ≡ told_quiet self.old.counts) }
        ensures cause { OnErr result (Rose self.old.counts.faults self.new.counts.faults) }
        ensures count { self.old.counts.faults ≤ self.new.counts.faults }
    {
        if self.down {
            return Err(self.counters.fail());
        }
        let n = self.back.give(into);
        if n == 0 {
            self.counters.count_quiet();
        }
        Ok(n)
    }

    fn is_ready(&mut self) -> bool {
        true
    }

    fn rest(&self) {}
}
