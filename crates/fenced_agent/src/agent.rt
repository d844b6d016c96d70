ghost use Rattle.std.specs.Prelude.{◌≡◌, ◌≤◌, ℕ, ◌||◌, ◌&&◌, ◌==◌, not, nat_eq, nat_lt, false, length, IfOk, OnErr, OnOk};
ghost use Rattle.fenced_agent.specs.Agents.{after_fenced, answer_fenced, fenced_holding, restored};
ghost use Rattle.std.specs.List.{IsDistinct};
ghost use Rattle.std.specs.Map.{keys_of};
ghost use Rattle.switch_agent.specs.Items.{holding, most_items, seen};

use lists::Memory;
use rollout_rules::Held;
use std::marker::Model;
use switch_agent::Agent;
use wire_frames::{Answer, Command};

/// What a switch holds of each item, and its floor: the highest term that it has heard, 0 at first. A
/// command of a lower term changes nothing; any other raises the floor to its term.
#[derive(Debug, Drop)]
pub struct FencedAgent {
    floor: u32,
    agent: Agent,
}

impl Model for FencedAgent {
    ghost use Rattle.fenced_agent.specs.Agents.{FencedItems};

    ghost Value = { FencedItems };

    ghost view = { λ f. record { floor = f.floor; items = f.agent } };
}

impl FencedAgent {
    /// An agent that has heard of no term.
    pub fn new(agent: Agent) -> Self
        ensures { result ≡ record { floor = 0; items = agent } }
    {
        FencedAgent { floor: 0, agent }
    }

    /// Carries a command of this term and migration out, if its term isn't below the floor and it is the
    /// next of its item, and answers the floor, and the migration and the number then held. Want of
    /// memory changes nothing; there is none for an item that was seen before, and none below the floor.
    pub fn apply(
        &mut self,
        term: u32,
        migration: u32,
        command: &Command,
    ) -> Result<(u32, u32, Answer), Memory>
        ensures applied { OnOk result
            (fenced_holding self.new
            ≡ after_fenced (fenced_holding self.old) term (migration, command.now)) }
        ensures floor { IfOk result (λ told. told.0 ≡ self.new.floor) }
        ensures answer { IfOk result
            (λ told. (told.1, told.2)
            ≡ answer_fenced (fenced_holding self.old) term (migration, command.now)) }
        ensures seen { OnOk result
            ((item : ℕ)
            → seen self.new.items item
            ≡ ((not (nat_lt term self.old.floor) && (item == command.now.item))
            || seen self.old.items item)) }
        ensures err { OnErr result (self.new ≡ self.old) }
        ensures memory { OnErr result (seen self.old.items command.now.item ≡ false) }
        ensures above { OnErr result (self.old.floor ≤ term) }
    {
        if term < self.floor {
            let held = self.agent.held(command.item);
            let answer = Answer {
                item: command.item,
                held: held.number,
            };
            return Ok((self.floor, held.migration, answer));
        }
        let (held, answer) = self.agent.apply(migration, command)?;
        self.floor = term;
        Ok((term, held, answer))
    }

    /// Holds what a command of this migration left that was carried out before, whatever is held of its
    /// item, as [`Agent::restore`] does. Lack of memory changes nothing.
    pub fn restore(&mut self, migration: u32, command: &Command) -> Result<(), Memory>
        ensures restored { OnOk result
            (fenced_holding self.new
            ≡ restored (fenced_holding self.old) (migration, command.now)) }
        ensures err { OnErr result (self.new ≡ self.old) }
    {
        self.agent.restore(migration, command)?;
        Ok(())
    }

    /// Has heard this term as the highest, whatever it has heard.
    pub fn restore_floor(&mut self, floor: u32)
        ensures { self.new ≡ record { floor = floor; items = self.old.items } }
    {
        self.floor = floor;
    }

    /// The highest term that it has heard.
    pub fn floor(&self) -> u32
        ensures { result ≡ self.now.floor }
    {
        self.floor
    }

    /// What is held of each item.
    pub fn agent(&self) -> &Agent
        ensures { result.now ≡ self.now.items }
    {
        &self.agent
    }

    /// It keeps no more items than a document within the limits has, each once.
    pub fn keeps_few_items(&self)
        ensures few { length self.now.items ≤ most_items }
        ensures apart { IsDistinct nat_eq (keys_of self.now.items) }
    {
        self.agent.keeps_few_items();
    }

    /// The migration and the number that are held of an item, both 0 at first.
    pub fn held(&self, item: u32) -> Held
        ensures { result ≡ (holding self.now.items item).held }
    {
        self.agent.held(item)
    }
}
