ghost use Rattle.std.specs.Prelude.{◌≡◌, ◌-◌, ◌==◌, ◌<◌, [], ◌∷◌, ◌++◌, length, map, nat_eq, slice_index_or, take, IfSome, OnErr, OnOk, false};
ghost use Rattle.std.specs.List.{IsDistinct, list_any};
ghost use Rattle.switch_ports.specs.Outboxes.{home_at, own, place_of, with_put};

use indexmap::IndexSet;
use lists::Memory;
use std::alloc::{AllocError, Global};
use std::marker::Model;
use wire_frames::Command;

/// The commands of a round, dealt out to the switches that are to have them.
#[derive(Drop)]
pub(crate) struct Outboxes {
    switches: IndexSet<u32>,
    outboxes: Vec<Outbox>,
}

impl Model for Outboxes {
    ghost use Rattle.std.specs.Prelude.{◌≡◌, length, nat_eq};
    ghost use Rattle.std.specs.List.{IsDistinct};
    ghost use Rattle.switch_ports.specs.Outboxes.{Dealing};

    ghost Value = { Dealing };

    ghost view = { λ l. record { switches = l.switches.keys; outboxes = l.outboxes.items } };

    ghost invariant = { λ l. (length l.outboxes.items ≡ length l.switches.keys)
        × IsDistinct nat_eq l.switches.keys };
}

impl Outboxes {
    pub(crate) fn new(alloc: Global) -> Self
        ensures { result ≡ record { switches = []; outboxes = [] } }
    {
        Outboxes {
            switches: IndexSet::new(alloc),
            outboxes: Vec::new(alloc),
        }
    }

    /// The switches, in the order in which they were added.
    pub(crate) fn switches(&self) -> &[u32]
        ensures { result.now ≡ self.now.switches }
    {
        self.switches.as_slice()
    }

    /// No switch stands twice.
    pub(crate) fn are_apart(&self)
        ensures { IsDistinct nat_eq self.now.switches }
    {
        let _switches = &self.switches;
    }

    /// What lies ready for the switch at a place.
    pub(crate) fn outbox(&self, place: usize) -> &[Command]
        requires { place < length self.now.switches }
        ensures { result.now ≡ slice_index_or self.now.outboxes place [] }
    {
        self.outboxes[place].commands()
    }

    /// Adds a switch, for which nothing lies ready. Lack of memory changes nothing.
    pub(crate) fn add(&mut self, alloc: Global, switch: u32) -> Result<(), Memory>
        requires new { list_any (λ w. switch == w) self.old.switches ≡ false }
        ensures ok { OnOk result
            (self.new
            ≡ record {
              switches = self.old.switches ++ switch ∷ [];
              outboxes = self.old.outboxes ++ [] ∷ [];
            }) }
        ensures err { OnErr result (self.new ≡ self.old) }
    {
        self.outboxes.reserve(1)?;
        self.switches.insert(switch)?;
        self.outboxes.push_reserved(Outbox::new(alloc));
        Ok(())
    }

    /// Takes the last switch out, with what lies ready for it.
    pub(crate) fn drop_last(&mut self)
        requires some { 0 < length self.old.switches }
        ensures switches { self.new.switches
            ≡ take (length self.old.switches - 1) self.old.switches }
    {
        self.switches.pop();
        self.outboxes.pop();
    }

    /// Deals commands out, in the place of those of before: each goes to its item's home, where that is one
    /// of the switches.
    pub(crate) fn deal(&mut self, commands: &[Command], homes: &[Option<u32>]) -> Result<(), Memory>
        ensures switches { self.new.switches ≡ self.old.switches }
        ensures ok { OnOk result
            (self.new.outboxes ≡ map (λ w. own homes.now w commands.now) self.old.switches) }
    {
        clear_each(&mut self.outboxes);
        for command in commands {
            self.put(command, home_at(homes, command.item))?;
        }
        Ok(())
    }

    // Puts a command to what lies ready at a home, where that is one of the switches.
    fn put(&mut self, command: &Command, home: Option<u32>) -> Result<(), Memory>
        ensures switches { self.new.switches ≡ self.old.switches }
        ensures ok { OnOk result
            (self.new.outboxes
            ≡ with_put self.old.outboxes (place_of self.old.switches home) command.now) }
    {
        if let Some(place) = self.place_of(home) {
            self.outboxes[place].add(*command)?;
        }
        Ok(())
    }

    fn place_of(&self, home: Option<u32>) -> Option<usize>
        ensures place { result ≡ place_of self.now.switches home }
        ensures within { IfSome result (λ place. place < length self.now.switches) }
    {
        self.switches.get_index_of(&home?)
    }
}

// The home of an item; none of one after the end of the list.
pub(crate) fn home_at(homes: &[Option<u32>], item: u32) -> Option<u32>
    ensures { result ≡ home_at homes.now item }
{
    *homes.get(item as usize)?
}

fn clear_each(outboxes: &mut Vec<Outbox>)
    ensures { outboxes.new.items ≡ map (λ _. []) outboxes.old.items }
{
    for outbox in outboxes.iter_mut() {
        outbox.clear();
    }
}

/// The commands that lie ready for one switch.
#[derive(Drop)]
struct Outbox {
    commands: Vec<Command>,
}

impl Model for Outbox {
    ghost use Rattle.std.specs.Prelude.{List};
    ghost use Rattle.wan_edge.specs.Frames.{Command};

    ghost Value = { List Command };

    ghost view = { λ l. l.commands.items };
}

impl Outbox {
    fn new(alloc: Global) -> Self
        ensures { result ≡ [] }
    {
        Outbox {
            commands: Vec::new(alloc),
        }
    }

    fn commands(&self) -> &[Command]
        ensures { result.now ≡ self.now }
    {
        self.commands.as_slice()
    }

    fn add(&mut self, command: Command) -> Result<(), AllocError>
        ensures ok { OnOk result (self.new ≡ self.old ++ command ∷ []) }
        ensures err { OnErr result (self.new ≡ self.old) }
    {
        self.commands.push(command)?;
        Ok(())
    }

    fn clear(&mut self)
        ensures { self.new ≡ [] }
    {
        self.commands.clear();
    }
}
