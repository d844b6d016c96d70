ghost use Rattle.std.specs.Prelude.{◌≡◌, ◌<◌, ◌≤◌, ◌||◌, ◌==◌, [], ℕ, false, length, nat_eq, nat_lt, option_map, slice_get, IfOk, IfSome, OnErr, OnOk};
ghost use Rattle.std.specs.List.{IsDistinct};
ghost use Rattle.std.specs.Map.{keys_of};
ghost use Rattle.rollout_rules.specs.Agent.{is_next_command};
ghost use Rattle.switch_agent.specs.Items.{content_of, held_by, holding, last_command, most_items, seen, with_stored};
ghost use Rattle.wan_edge.specs.Switches.{after_command, answer_to, pair_asked};

use indexmap::IndexMap;
use lists::Memory;
use rollout_rules::{Held, MOST_FLOWS, MOST_HOPS, MOST_TUNNELS};
use std::alloc::{AllocError, Global};
use std::marker::Model;
use wire_frames::{Answer, Command};

/// For how many items there is room: as many as the largest document within the limits has.
const MOST_ITEMS: usize = MOST_FLOWS + MOST_TUNNELS * MOST_HOPS;

/// What a switch holds of each item, by the agent rule: the next number of a migration only, in order
/// and once, and any operation of a later migration.
///
/// Of each item that came it keeps the command that it carried out last, in place: so a longer content
/// takes no memory. It keeps no more items than a document within the limits has, so that whoever
/// connects can't take any amount of memory.
#[derive(Debug, Drop)]
pub struct Agent {
    items: IndexMap<u32, Option<(u32, Command)>>,
}

impl Model for Agent {
    ghost use Rattle.std.specs.Prelude.{◌≤◌, length};
    ghost use Rattle.switch_agent.specs.Items.{Items, most_items};

    ghost Value = { Items };

    ghost view = { λ a. a.items.entries };

    ghost invariant = { λ a. length a.items.entries ≤ most_items };
}

impl Agent {
    pub fn new(alloc: Global) -> Self
        ensures { result ≡ [] }
    {
        Agent {
            items: IndexMap::new(alloc),
        }
    }

    /// Carries the command of this migration out, if it is the next of its item, and answers the
    /// migration and the number then held. Memory is taken for an item that wasn't seen before alone;
    /// want of it changes nothing. There is none for more items than a document within the limits has.
    pub fn apply(&mut self, migration: u32, command: &Command) -> Result<(u32, Answer), Memory>
        ensures applied { OnOk result
            (holding self.new ≡ after_command (holding self.old) (migration, command.now)) }
        ensures answer { IfOk result
            (λ a. a ≡ answer_to (holding self.old) (migration, command.now)) }
        ensures seen { OnOk result
            ((item : ℕ) → seen self.new item ≡ (item == command.now.item || seen self.old item)) }
        ensures err { OnErr result (self.new ≡ self.old) }
        ensures memory { OnErr result (seen self.old command.now.item ≡ false) }
    {
        if !self.has_room(command.item) {
            return Err(AllocError);
        }
        let mut last = self.last(command.item);
        if is_next(held_by(&last), pair(migration, command)) {
            last = Some((migration, *command));
        }
        self.items.insert(command.item, last)?;
        let held = held_by(&last);
        let answer = Answer {
            item: command.item,
            held: held.number,
        };
        Ok((held.migration, answer))
    }

    /// Whether a command of this migration would be carried out now: whether it is the next of its item.
    pub fn takes(&self, migration: u32, command: &Command) -> bool
        ensures { result
            ≡ is_next_command (holding self.now command.now.item).held
            (pair_asked (migration, command.now)) }
    {
        is_next(held_by(&self.last(command.item)), pair(migration, command))
    }

    /// Holds what a command of this migration left that was carried out before, whatever is held of its
    /// item. Memory is taken as by [`Agent::apply`], and want of it changes nothing.
    pub fn restore(&mut self, migration: u32, command: &Command) -> Result<(), Memory>
        ensures restored { OnOk result
            (holding self.new ≡ with_stored (holding self.old) (migration, command.now)) }
        ensures err { OnErr result (self.new ≡ self.old) }
    {
        let room = self.has_room(command.item);
        if !room {
            return Err(AllocError);
        }
        let stored = Some((migration, *command));
        self.items.insert(command.item, stored)?;
        Ok(())
    }

    /// The item at this place, in the order in which they came, and the command of it that was carried out
    /// last; none past the last.
    pub fn entry_at(&self, place: usize) -> Option<(u32, Option<(u32, Command)>)>
        ensures entry { result ≡ slice_get self.now place }
        ensures within { IfSome result (λ _. place < length self.now) }
    {
        match self.items.get_index(place) {
            Some((item, last)) => Some((*item, *last)),
            None => None,
        }
    }

    /// The migration and the number that are held of an item, both 0 at first.
    pub fn held(&self, item: u32) -> Held
        ensures { result ≡ (holding self.now item).held }
    {
        held_by(&self.last(item))
    }

    /// The content that is held of an item: none exactly where the number held is 0.
    pub fn content(&self, item: u32) -> Option<&[u64]>
        ensures { option_map (λ rates. rates.now) result ≡ content_of (holding self.now item) }
    {
        match self.items.get(&item) {
            Some(last) => content_by(last),
            None => None,
        }
    }

    /// It keeps no more items than a document within the limits has, each once.
    pub fn keeps_few_items(&self)
        ensures few { length self.now ≤ most_items }
        ensures apart { IsDistinct nat_eq (keys_of self.now) }
    {
        let _ = self.items.len();
    }

    // Whether an item is kept already, or there is a place for one more.
    fn has_room(&self, item: u32) -> bool
        ensures { result ≡ (seen self.now item || nat_lt (length self.now) most_items) }
    {
        self.items.contains_key(&item) || self.items.len() < MOST_ITEMS
    }

    // The command of an item that was carried out last.
    fn last(&self, item: u32) -> Option<(u32, Command)>
        ensures { result ≡ last_command self.now item }
    {
        match self.items.get(&item) {
            Some(last) => *last,
            None => None,
        }
    }
}

// What is held after this last command.
fn held_by(last: &Option<(u32, Command)>) -> Held
    ensures { result ≡ (held_by last.now).held }
{
    match last {
        Some((migration, command)) => pair(*migration, command),
        None => Held {
            migration: 0,
            number: 0,
        },
    }
}

// The content that is held after this last command.
fn content_by(last: &Option<(u32, Command)>) -> Option<&[u64]>
    ensures { option_map (λ rates. rates.now) result ≡ content_of (held_by last.now) }
{
    match last {
        Some((_, command)) if command.number > 0 => {
            Some(&command.rates[..usize::from(command.count)])
        }
        _ => None,
    }
}

// The pair that a command of this migration asks for.
fn pair(migration: u32, command: &Command) -> Held
    ensures { result ≡ pair_asked (migration, command.now) }
{
    Held {
        migration,
        number: command.number,
    }
}

// Whether an operation is the next after the pair held: the next number of the same migration, or any of
// a later one.
fn is_next(held: Held, asked: Held) -> bool
    ensures { result ≡ is_next_command held asked }
{
    if asked.migration == held.migration {
        return u64::from(asked.number) == u64::from(held.number) + 1;
    }
    held.migration < asked.migration && asked.number > 0
}
