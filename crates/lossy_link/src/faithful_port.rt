ghost use Rattle.std.specs.Prelude.{◌≡◌, ℕ, ◌<◌, ◌≤◌, [], ◌++◌, List, length, min, replicate, take, true, false, Some, Ok, IfOk, OnErr, OnOk};
ghost use Rattle.lossy_link.specs.Counting.{one_fault_more, one_quiet_more, told_quiet};
ghost use Rattle.lossy_link.specs.Faithful.{AreAnswered, AreFirstAnswered, after_failure, after_hear, after_silence, fresh_faith};
ghost use Rattle.lossy_link.specs.Incoming.{Came, HasCommands, TakesBehind, TakesMore, offered_of};
ghost use Rattle.lossy_link.specs.WayBack.{with_due};
ghost use Rattle.switch_agent.specs.Items.{holding};
ghost use Rattle.wan_edge.specs.Frames.{CommandFrame, answer_bytes};
ghost use Rattle.wan_edge.specs.Ports.{AppendsFront, IsHonestStep, IsOneMore, IsPromptState, NothingToCome};
ghost use Rattle.wan_edge.specs.Streams.{Appends, Rose};
ghost use Rattle.wan_edge.specs.Switches.{after_command, after_commands, answer_to, holding_nothing};

use crate::counters::Counters;
use crate::incoming::Incoming;
use crate::way_back::WayBack;
use lists::Memory;
use std::alloc::Global;
use std::marker::Model;
use switch_agent::Agent;
use wan_edge::{Failed, Port};
use wire_frames::Command;

/// A port whose switch carries out each whole command at once, and answers it once, in order. Where
/// memory runs out it is down: each later offer fails, and so does a hear once all answers were given.
#[derive(Debug, Drop)]
pub struct FaithfulPort {
    incoming: Incoming,
    agent: Agent,
    back: WayBack,
    down: bool,
    counters: Counters,
}

impl Model for FaithfulPort {
    ghost use Rattle.lossy_link.specs.Faithful.{Faith, IsFaithful};
    ghost use Rattle.lossy_link.specs.Incoming.{offered_of};

    ghost Value = { Faith };

    ghost view = { λ p. record {
      offered = offered_of p.incoming;
      items = p.agent;
      back = p.back;
      down = p.down;
      counts = p.counters;
    } };

    ghost invariant = { λ p. IsFaithful p.incoming p.agent p.back p.down };
}

impl FaithfulPort {
    pub fn new(alloc: Global) -> Self
        ensures { result ≡ fresh_faith }
    {
        FaithfulPort {
            incoming: Incoming::new(alloc),
            agent: Agent::new(alloc),
            back: WayBack::new(alloc),
            down: false,
            counters: Counters::new(),
        }
    }

    /// Counts a hear that gives nothing, whatever is there.
    pub(crate) fn stay_quiet(&mut self)
        ensures quiet { self.new ≡ after_silence self.old }
        ensures by_rule { IsHonestStep (Some self.new.offered) (Some self.new.back.heard)
            (Some (holding self.old.items)) (Some (holding self.new.items)) }
        ensures in_order { IsPromptState holding_nothing (Some self.new.offered)
            (Some self.new.back.heard) (Some (holding self.new.items)) }
    {
        self.counters.count_quiet();
    }

    // Takes all the bytes, and carries out and answers each whole command among them.
    fn take(&mut self, from: &[u8]) -> Result<(), Memory>
        requires { self.old.down ≡ false }
        ensures all { OnOk result (self.new.offered ≡ self.old.offered ++ from.now) }
        ensures answered { OnOk result
            (Came (AreAnswered (holding self.old.items) (holding self.new.items) self.old.back
            self.new.back) self.old.offered self.new.offered) }
        ensures up { OnOk result (self.new.down ≡ false) }
        ensures down { OnErr result (self.new.down ≡ true) }
        ensures part { OnErr result
            (AppendsFront (Some self.old.offered) from.now (Some self.new.offered)) }
        ensures some { OnErr result
            (Came (AreFirstAnswered (holding self.old.items) (holding self.new.items) self.old.back
            self.new.back) self.old.offered self.new.offered) }
        ensures unheard { self.new.back.heard ≡ self.old.back.heard }
        ensures counts { self.new.counts ≡ self.old.counts }
        ensures by_rule { IsHonestStep (Some self.new.offered) (Some self.new.back.heard)
            (Some (holding self.old.items)) (Some (holding self.new.items)) }
        ensures in_order { IsPromptState holding_nothing (Some self.new.offered)
            (Some self.new.back.heard) (Some (holding self.new.items)) }
    {
        self.down = true;
        self.incoming.accept(from)?;
        answer_each(&mut self.incoming, &mut self.agent, &mut self.back)?;
        self.down = false;
        Ok(())
    }
}

// Carries out and answers the whole commands still to be taken, one after the other. Where memory runs
// out, the rest are taken all the same.
fn answer_each(incoming: &mut Incoming, agent: &mut Agent, back: &mut WayBack) -> Result<(), Memory>
    ensures all { incoming.new ≡ record { taken = offered_of incoming.old; pending = [] } }
    ensures each { OnOk result
        ((earlier : List CommandFrame)
        → HasCommands incoming.old.taken earlier
        → TakesBehind (AreAnswered (holding agent.old) (holding agent.new) back.old back.new)
        earlier incoming.new.taken) }
    ensures some { OnErr result
        ((earlier : List CommandFrame)
        → HasCommands incoming.old.taken earlier
        → TakesBehind (AreFirstAnswered (holding agent.old) (holding agent.new) back.old back.new)
        earlier incoming.new.taken) }
{
    while let Some(command) = incoming.next() {
        if let Err(memory) = answer(&command, agent, back) {
            skip_each(incoming);
            return Err(memory);
        }
    }
    Ok(())
}

// Carries out a command with its migration and answers it. Where memory runs out it is not answered, and perhaps not
// carried out.
fn answer(command: &(u32, Command), agent: &mut Agent, back: &mut WayBack) -> Result<(), Memory>
    ensures carried_out { OnOk result
        (holding agent.new ≡ after_command (holding agent.old) command.now) }
    ensures answered { OnOk result
        (back.new ≡ with_due back.old (answer_bytes (answer_to (holding agent.old) command.now))) }
    ensures perhaps { OnErr result
        ((n : ℕ)
        × (n ≤ 1)
        × (holding agent.new ≡ after_commands (holding agent.old) (replicate n command.now))) }
    ensures unanswered { OnErr result (back.new ≡ back.old) }
{
    let (migration, answer) = agent.apply(command.0, &command.1)?;
    back.add(migration, &answer)
}

// Takes the whole commands still to be taken, and does nothing with them.
fn skip_each(incoming: &mut Incoming)
    ensures all { incoming.new ≡ record { taken = offered_of incoming.old; pending = [] } }
    ensures has { (earlier : List CommandFrame)
        → HasCommands incoming.old.taken earlier
        → TakesMore earlier incoming.new.taken }
{
    while incoming.next().is_some() {}
}

// A hear for which nothing is there is quiet, and fails where the port is down.
fn hear_nothing(down: bool, counters: &mut Counters) -> Result<(), Failed>
    ensures quiet { OnOk result ((down ≡ false) × (counters.new ≡ one_quiet_more counters.old)) }
    ensures failed { OnErr result ((down ≡ true) × (counters.new ≡ one_fault_more counters.old)) }
{
    if down {
        return Err(counters.fail());
    }
    counters.count_quiet();
    Ok(())
}

impl Port for FaithfulPort {
    ghost use Rattle.std.specs.Prelude.{refl};

    ghost told = { λ p. record {
      offered = Some p.offered;
      heard = Some p.back.heard;
      held = Some (holding p.items);
      quiet = told_quiet p.counts;
      waits = Some 0;
      faults = p.counts.faults;
      honest = true;
      prompt = true;
      start = holding_nothing;
    } };

    ghost prompt_is_honest = { λ _ _. refl };

    /// Takes all the bytes and answers each whole command, or fails for lack of memory: on the way, or
    /// in an earlier call.
    fn offer(&mut self, from: &[u8]) -> Result<(), Failed>
        ensures all { OnOk result
            (Appends (Some self.old.offered) from.now (Some self.new.offered)) }
        ensures answered { OnOk result
            (Came (AreAnswered (holding self.old.items) (holding self.new.items) self.old.back
            self.new.back) self.old.offered self.new.offered) }
        ensures up { OnOk result ((self.old.down ≡ false) × (self.new.down ≡ false)) }
        ensures counts { OnOk result (self.new.counts ≡ self.old.counts) }
        ensures fault { OnErr result (self.new.counts ≡ one_fault_more self.old.counts) }
        ensures down { OnErr result (self.new.down ≡ true) }
        ensures still_down { self.old.down ≡ true → self.new ≡ after_failure self.old }
        ensures part { OnErr result
            (AppendsFront (Some self.old.offered) from.now (Some self.new.offered)) }
        ensures some { OnErr result
            (Came (AreFirstAnswered (holding self.old.items) (holding self.new.items) self.old.back
            self.new.back) self.old.offered self.new.offered) }
        ensures unheard { Some self.new.back.heard ≡ Some self.old.back.heard }
        ensures no_hear { told_quiet self.new.counts ≡ told_quiet self.old.counts }
        ensures cause { OnErr result (Rose self.old.counts.faults self.new.counts.faults) }
        ensures count { self.old.counts.faults ≤ self.new.counts.faults }
        ensures by_rule { IsHonestStep (Some self.new.offered) (Some self.new.back.heard)
            (Some (holding self.old.items)) (Some (holding self.new.items)) }
        ensures in_order { IsPromptState holding_nothing (Some self.new.offered)
            (Some self.new.back.heard) (Some (holding self.new.items)) }
    {
        if self.down {
            return Err(self.counters.fail());
        }
        match self.take(from) {
            Ok(()) => Ok(()),
            Err(_) => Err(self.counters.fail()),
        }
    }

    /// Gives the bytes of the answers that are there, as many as fit. It fails where nothing is there and
    /// the port is down.
    fn hear(&mut self, into: &mut [u8]) -> Result<usize, Failed>
        requires room { 0 < length into.old }
        ensures within { IfOk result (λ n. n ≤ length into.old) }
        ensures next { IfOk result (λ n. n ≡ min (length into.old) (length self.old.back.due)) }
        ensures left { IfOk result (λ n. self.new ≡ after_hear self.old n) }
        ensures given { IfOk result
            (λ n. Appends (Some self.old.back.heard) (take n into.new) (Some self.new.back.heard)) }
        ensures up { IfOk result (λ n. n ≡ 0 → self.old.down ≡ false) }
        ensures down { OnErr result ((self.old.down ≡ true) × (self.old.back.due ≡ [])) }
        ensures failed { OnErr result (self.new ≡ after_failure self.old) }
        ensures nothing { OnErr result (Some self.new.back.heard ≡ Some self.old.back.heard) }
        ensures unsent { Some self.new.offered ≡ Some self.old.offered }
        ensures quieter { IfOk result
            (λ n. n ≡ 0 → IsOneMore (told_quiet self.old.counts) (told_quiet self.new.counts)) }
        ensures as_quiet { IfOk result
            (λ n. 0 < n → told_quiet self.new.counts ≡ told_quiet self.old.counts) }
        ensures failed_hear { OnErr result
            (told_quiet self.new.counts ≡ told_quiet self.old.counts) }
        ensures cause { OnErr result (Rose self.old.counts.faults self.new.counts.faults) }
        ensures count { self.old.counts.faults ≤ self.new.counts.faults }
        ensures by_rule { IsHonestStep (Some self.new.offered) (Some self.new.back.heard)
            (Some (holding self.old.items)) (Some (holding self.new.items)) }
        ensures in_order { IsPromptState holding_nothing (Some self.new.offered)
            (Some self.new.back.heard) (Some (holding self.new.items)) }
        ensures all_given { IfOk result
            (λ n. n ≡ 0
            → NothingToCome holding_nothing (Some self.new.offered) (Some self.new.back.heard)) }
    {
        let n = self.back.give(into);
        if n == 0 {
            hear_nothing(self.down, &mut self.counters)?;
        }
        Ok(n)
    }

    fn is_ready(&mut self) -> bool {
        true
    }

    fn rest(&self) {}
}
