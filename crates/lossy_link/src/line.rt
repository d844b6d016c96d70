ghost use Rattle.std.specs.Prelude.{◌≡◌, ℕ, ◌++◌, filter, length, map, min, replicate, take, OnErr, OnOk};
ghost use Rattle.lossy_link.specs.Traffic.{after_sending, after_turn, arriving, is_late, less_late, no_traffic, traffic_of};
ghost use Rattle.lossy_link.specs.WayBack.{after_hearing, with_due};
ghost use Rattle.switch_agent.specs.Items.{holding};
ghost use Rattle.wan_edge.specs.Frames.{IsCommand};
ghost use Rattle.wan_edge.specs.Ports.{AnswersHeld};
ghost use Rattle.wan_edge.specs.Switches.{after_commands};

use crate::FateList;
use crate::fates::Fates;
use crate::waiting::Waiting;
use crate::way_back::WayBack;
use lists::Memory;
use std::alloc::Global;
use std::marker::Model;
use switch_agent::Agent;
use wire_frames::{Answer, Command};

/// A switch, and the line to it and back, on which each command has its fate.
#[derive(Debug, Drop)]
pub(crate) struct Line {
    fates: Fates,
    agent: Agent,
    waiting: Vec<Waiting>,
    back: WayBack,
}

impl Model for Line {
    ghost use Rattle.lossy_link.specs.Traffic.{IsAnswered, LineState};
    ghost use Rattle.switch_agent.specs.Items.{holding};

    ghost Value = { LineState };

    ghost view = { λ l. record {
      fates = l.fates;
      items = l.agent;
      waiting = l.waiting.items;
      back = l.back;
    } };

    ghost invariant = { λ l. IsAnswered (holding l.agent) l.waiting.items l.back };
}

impl Line {
    pub(crate) fn new(alloc: Global, fates: FateList) -> Self
        ensures new { traffic_of result ≡ no_traffic fates }
        ensures honest { AnswersHeld result.back.heard (holding result.items) }
    {
        Line {
            fates: Fates::new(fates),
            agent: Agent::new(alloc),
            waiting: Vec::new(alloc),
            back: WayBack::new(alloc),
        }
    }

    /// Sends a command with its migration, which meets its fate. Where memory runs out, it may have come to the switch a few
    /// times less.
    pub(crate) fn send(&mut self, command: &(u32, Command)) -> Result<(), Memory>
        requires { IsCommand command.now }
        ensures ok { OnOk result
            (traffic_of self.new ≡ after_sending (traffic_of self.old) command.now) }
        ensures moves { (n : ℕ)
            × (holding self.new.items
            ≡ after_commands (holding self.old.items) (replicate n command.now)) }
        ensures back { self.new.back ≡ self.old.back }
        ensures honest { AnswersHeld self.new.back.heard (holding self.new.items) }
    {
        let fate = self.fates.next();
        deliver(&mut self.agent, command, fate.times)?;
        let held = self.agent.held(command.1.item);
        let answer = Answer {
            item: command.1.item,
            held: held.number,
        };
        let waiting = Waiting {
            answer: (held.migration, answer),
            late: fate.late,
        };
        set_out(&mut self.waiting, &waiting, fate.answers())
    }

    /// A hear begins: the answers that wait no further hears are there, and each of the others waits one
    /// less. Where memory runs out, only some of them are there.
    pub(crate) fn turn(&mut self) -> Result<(), Memory>
        ensures ok { OnOk result (traffic_of self.new ≡ after_turn (traffic_of self.old)) }
        ensures held { self.new.items ≡ self.old.items }
        ensures heard { self.new.back.heard ≡ self.old.back.heard }
        ensures honest { AnswersHeld self.new.back.heard (holding self.new.items) }
    {
        arrive(&self.waiting, &mut self.back)?;
        wait_on(&mut self.waiting);
        Ok(())
    }

    /// Gives the next bytes that are there, as many as fit.
    pub(crate) fn give(&mut self, into: &mut [u8]) -> usize
        ensures count { result ≡ min (length into.old) (length self.old.back.due) }
        ensures given { take result into.new ≡ take result self.old.back.due }
        ensures left { self.new ≡ record self.old { back = after_hearing self.old.back result } }
        ensures honest { AnswersHeld self.new.back.heard (holding self.new.items) }
    {
        self.back.give(into)
    }
}

// Delivers a command with its migration so many times.
fn deliver(agent: &mut Agent, command: &(u32, Command), times: u8) -> Result<(), Memory>
    ensures ok { OnOk result
        (holding agent.new ≡ after_commands (holding agent.old) (replicate times command.now)) }
    ensures some { (n : ℕ)
        × (holding agent.new ≡ after_commands (holding agent.old) (replicate n command.now)) }
{
    for _time in 0..times {
        agent.apply(command.0, &command.1)?;
    }
    Ok(())
}

// An answer sets out so many times.
fn set_out(row: &mut Vec<Waiting>, waiting: &Waiting, times: u8) -> Result<(), Memory>
    ensures ok { OnOk result (row.new.items ≡ row.old.items ++ replicate times waiting.now) }
    ensures some { (n : ℕ) × (row.new.items ≡ row.old.items ++ replicate n waiting.now) }
{
    for _time in 0..times {
        row.push(*waiting)?;
    }
    Ok(())
}

// Brings back the answers that wait no further hears.
fn arrive(waiting: &[Waiting], back: &mut WayBack) -> Result<(), Memory>
    ensures ok { OnOk result (back.new ≡ with_due back.old (arriving waiting.now)) }
    ensures some { (n : ℕ) × (back.new ≡ with_due back.old (arriving (take n waiting.now))) }
{
    for w in waiting {
        if w.late == 0 {
            let (migration, answer) = &w.answer;
            back.add(*migration, answer)?;
        }
    }
    Ok(())
}

// The answers that wait no further hears are gone, and each of the others waits one less.
fn wait_on(row: &mut Vec<Waiting>)
    ensures { row.new.items ≡ map less_late (filter is_late row.old.items) }
{
    row.retain(|w| w.late != 0);
    wait_less(row);
}

// Each answer waits one hear less.
fn wait_less(row: &mut [Waiting])
    ensures { row.new ≡ map less_late row.old }
{
    for w in row {
        w.late = w.late.saturating_sub(1);
    }
}
