ghost use Rattle.std.specs.Prelude.{◌≡◌, ◌<◌, ◌≤◌, IfOk, OnOk, OnErr, IsTrue, length};
ghost use Rattle.rollout_rules.specs.Items.{item_count};
ghost use Rattle.rollout_rules.specs.Legal as legal;
ghost use Rattle.rollout_rules.specs.World.{first_world, are_first_pairs, new_world, held_of, in_flight, is_writing, allows, happens, delivered, comes_late};
ghost use Rattle.rollout_rules.specs.World as world;
ghost use Rattle.rollout_rules.specs.declared.event.Event.TheVariants as event;
ghost use Rattle.rollout_core.specs.Worlds.{AreOfItems, AreAnswersOfItems, with_held, with_answer};

use crate::answers::all_answered;
use crate::copying::copy_values;
use crate::history::History;
use crate::pairs::{FIRST_PAIR, is_at_most, pair_after};
use dependency_graph::checked_plan_is_valid;
use lists::Memory;
use rollout_rules::{Entry, EntryList, Event, Given, GivenList, Held, Op, OpList};
use std::alloc::Global;
use std::marker::Model;
use wan_model::{CheckedPlan, item_count};

/// The world of a rollout: what is durable, what the controller does, what is on its way, and what the
/// switches hold. It is moved by events, one by one.
#[derive(Drop)]
pub struct World<'p> {
    migration: u32,
    first: Vec<Held>,
    history: History<'p>,
    is_up: bool,
    writing: EntryList,
    sent: OpList,
    given: GivenList,
    handed: GivenList,
    held: Vec<Held>,
    alloc: Global,
}

impl<'p> Model for World<'p> {
    ghost use Rattle.rollout_core.specs.Worlds.{Standing, IsStanding, standing_of};

    ghost Value = { Standing };

    ghost view = { λ w. standing_of w.history w.migration w.first.items w.is_up w.writing w.sent
        w.given w.handed w.held.items };

    ghost invariant = { λ w. IsStanding w.history w.writing w.sent w.given w.handed w.first.items
        w.held.items };
}

impl<'p> World<'p> {
    /// The world at first, with a start, a migration, and the pair that each item's switch holds: nothing
    /// more is durable, and the controller is up.
    pub fn new(
        alloc: Global,
        plan: &'p CheckedPlan,
        start: &[u32],
        migration: u32,
        first: &[Held],
    ) -> Result<World<'p>, Memory>
        requires numbers { length start.now ≡ item_count plan.now.problem }
        requires pairs { length first.now ≡ item_count plan.now.problem }
        requires sound { IsTrue (legal.is_sound plan.now.problem plan.now.plan start.now) }
        requires first { IsTrue (are_first_pairs plan.now.problem start.now migration first.now) }
        ensures { IfOk result
            (λ w. w
            ≡ record {
              rollout = plan.now;
              world = first_world plan.now.problem plan.now.plan start.now migration first.now;
            }) }
    {
        let first = copy_values(alloc, first)?;
        let held = copy_values(alloc, &first)?;
        let history = History::new(alloc, plan, start)?;
        Ok(World {
            migration,
            first,
            history,
            is_up: true,
            writing: EntryList::new(alloc),
            sent: OpList::new(alloc),
            given: GivenList::new(alloc),
            handed: GivenList::new(alloc),
            held,
            alloc,
        })
    }

    /// The world of a network's first migration, where nothing was ever applied.
    pub fn fresh(alloc: Global, plan: &'p CheckedPlan) -> Result<World<'p>, Memory>
        ensures { IfOk result
            (λ w. w
            ≡ record { rollout = plan.now; world = new_world plan.now.problem plan.now.plan }) }
    {
        checked_plan_is_valid(plan);
        let items = item_count(plan.problem()) as usize;
        let start = vec![in alloc; 0u32; items]?;
        let first = vec![in alloc; FIRST_PAIR; items]?;
        World::new(alloc, plan, &start, 0, &first)
    }

    /// Whether the event can happen in this world.
    pub fn allows(&self, event: &Event) -> bool
        ensures { result
            ≡ allows self.now.rollout.problem self.now.rollout.plan self.now.world event.now }
    {
        match event {
            Event::Write(batch) => self.may_write(batch.as_slice()),
            Event::EndWrite => self.is_writing(),
            Event::Send(n) => self.is_up && !self.is_writing() && *n < self.history.flying_count(),
            Event::Deliver(n) => (*n as usize) < self.sent.as_slice().len(),
            Event::Hand(n) => self.is_up && (*n as usize) < self.given.as_slice().len(),
            Event::Old {
                item,
                migration,
                number,
            } => self.may_come_late(*item, *migration, *number),
            Event::Crash(n) => self.is_up && *n as usize <= self.writing.as_slice().len(),
            Event::Restart => !self.is_up,
        }
    }

    /// Makes an event happen. Lack of memory changes nothing.
    pub fn step(&mut self, event: Event) -> Result<(), Memory>
        requires { IsTrue (allows self.old.rollout.problem self.old.rollout.plan self.old.world
            event) }
        ensures ok { OnOk result
            (self.new
            ≡ record self.old {
              world = happens self.old.rollout.problem self.old.rollout.plan self.old.world
                  event;
            }) }
        ensures err { OnErr result (self.new ≡ self.old) }
    {
        match event {
            Event::Write(batch) => {
                self.writing = batch;
                Ok(())
            }
            Event::EndWrite => self.end_write(),
            Event::Send(n) => self.send(n),
            Event::Deliver(n) => {
                let command = self.sent.as_slice()[n as usize];
                self.deliver(command)
            }
            Event::Hand(n) => self.hand(n as usize),
            Event::Old {
                item,
                migration,
                number,
            } => self.receive(item, Held { migration, number }),
            Event::Crash(n) => self.crash(n as usize),
            Event::Restart => {
                self.is_up = true;
                Ok(())
            }
        }
    }

    fn is_writing(&self) -> bool
        ensures { result ≡ is_writing self.now.world }
    {
        !self.writing.as_slice().is_empty()
    }

    fn may_write(&self, batch: &[Entry]) -> bool
        ensures { result
            ≡ allows self.now.rollout.problem self.now.rollout.plan self.now.world
            (event.Write batch.now) }
    {
        if !self.is_up || self.is_writing() || batch.is_empty() {
            return false;
        }
        if !self.history.may_follow(batch) {
            return false;
        }
        all_answered(self.migration, self.handed.as_slice(), batch)
    }

    fn may_come_late(&self, item: u32, migration: u32, number: u32) -> bool
        ensures { result
            ≡ allows self.now.rollout.problem self.now.rollout.plan self.now.world
            (event.Old item migration number) }
    {
        if item >= self.items() || migration >= self.migration {
            return false;
        }
        is_at_most(Held { migration, number }, self.first[item as usize])
    }

    fn end_write(&mut self) -> Result<(), Memory>
        ensures ok { OnOk result
            (self.new
            ≡ record self.old {
              world = happens self.old.rollout.problem self.old.rollout.plan self.old.world
                  event.EndWrite;
            }) }
        ensures err { OnErr result (self.new ≡ self.old) }
    {
        self.history.append(self.writing.as_slice())?;
        self.writing = EntryList::new(self.alloc);
        Ok(())
    }

    fn send(&mut self, n: u32) -> Result<(), Memory>
        requires { n < length (in_flight self.old.rollout.problem self.old.world.durable) }
        ensures ok { OnOk result
            (self.new
            ≡ record self.old {
              world = happens self.old.rollout.problem self.old.rollout.plan self.old.world
                  (event.Send n);
            }) }
        ensures err { OnErr result (self.new ≡ self.old) }
    {
        let command = self.history.flying(n);
        self.sent.push(command)?;
        Ok(())
    }

    fn hand(&mut self, n: usize) -> Result<(), Memory>
        requires { n < length self.old.world.given }
        ensures ok { OnOk result
            (self.new
            ≡ record self.old {
              world = happens self.old.rollout.problem self.old.rollout.plan self.old.world
                  (event.Hand n);
            }) }
        ensures err { OnErr result (self.new ≡ self.old) }
    {
        let answer = self.given.as_slice()[n];
        self.handed.push(answer)?;
        Ok(())
    }

    fn crash(&mut self, kept: usize) -> Result<(), Memory>
        requires { kept ≤ length self.old.world.writing }
        ensures ok { OnOk result
            (self.new
            ≡ record self.old {
              world = happens self.old.rollout.problem self.old.rollout.plan self.old.world
                  (event.Crash kept);
            }) }
        ensures err { OnErr result (self.new ≡ self.old) }
    {
        self.history.append(&self.writing.as_slice()[..kept])?;
        self.is_up = false;
        self.writing = EntryList::new(self.alloc);
        self.handed = GivenList::new(self.alloc);
        Ok(())
    }

    fn deliver(&mut self, command: Op) -> Result<(), Memory>
        requires { command.item < item_count self.old.rollout.problem }
        ensures ok { OnOk result
            (self.new
            ≡ record self.old {
              world = delivered self.old.rollout.problem self.old.rollout.plan self.old.world
                  command;
            }) }
        ensures err { OnErr result (self.new ≡ self.old) }
    {
        let asked = Held {
            migration: self.migration,
            number: command.number,
        };
        self.receive(command.item, asked)?;
        Ok(())
    }

    /// A command comes to the item's switch, which applies it or not, and answers.
    fn receive(&mut self, item: u32, asked: Held) -> Result<(), Memory>
        requires { item < item_count self.old.rollout.problem }
        ensures ok { OnOk result
            (self.new
            ≡ record self.old {
              world = comes_late self.old.rollout.problem self.old.rollout.plan self.old.world item
                  asked;
            }) }
        ensures err { OnErr result (self.new ≡ self.old) }
    {
        let place = item as usize;
        let held = pair_after(self.held[place], asked);
        self.given.push(Given { item, held })?;
        self.held[place] = held;
        Ok(())
    }

    /// Puts the pair that an item's switch holds, as it was found there.
    pub fn hold(&mut self, item: u32, held: Held)
        requires { item < item_count self.old.rollout.problem }
        ensures { self.new
            ≡ record self.old {
              world = with_held self.old.rollout.problem self.old.rollout.plan self.old.world item
                  held;
            } }
    {
        self.held[item as usize] = held;
    }

    /// Adds an answer to those given: what an item's switch holds of it. Lack of memory changes nothing.
    pub fn answer(&mut self, item: u32, held: Held) -> Result<(), Memory>
        requires { item < item_count self.old.rollout.problem }
        ensures ok { OnOk result
            (self.new ≡ record self.old { world = with_answer self.old.world item held }) }
        ensures err { OnErr result (self.new ≡ self.old) }
    {
        let answer = Given { item, held };
        self.given.push(answer)
    }
}

impl<'p> World<'p> {
    /// The entries that every restart finds after the start, which with it are a legal history.
    pub fn durable(&self) -> &EntryList
        ensures list { result.now ≡ self.now.world.durable.entries }
        ensures legal { IsTrue (legal.is_legal self.now.rollout.problem self.now.rollout.plan
            self.now.world.durable) }
    {
        self.history.entries()
    }

    /// How many operations of each item were settled before the first entry, by the item's number.
    pub fn start(&self) -> &[u32]
        ensures list { result.now ≡ self.now.world.durable.start }
        ensures count { length self.now.world.durable.start ≡ item_count self.now.rollout.problem }
    {
        self.history.start()
    }

    /// The number of the migration.
    pub fn migration(&self) -> u32
        ensures { result ≡ self.now.world.migration }
    {
        self.migration
    }

    pub fn is_up(&self) -> bool
        ensures { result ≡ self.now.world.up }
    {
        self.is_up
    }

    /// The commands sent so far, which are of items.
    pub fn sent(&self) -> &OpList
        ensures list { result.now ≡ self.now.world.sent }
        ensures items { AreOfItems self.now.rollout.problem self.now.world.sent }
    {
        &self.sent
    }

    /// The answers given so far: an item, and the pair that its switch held.
    pub fn given(&self) -> &GivenList
        ensures list { result.now ≡ self.now.world.given }
        ensures items { AreAnswersOfItems self.now.rollout.problem self.now.world.given }
    {
        &self.given
    }

    /// The answers handed over to the controller since it started.
    pub fn handed(&self) -> &GivenList
        ensures list { result.now ≡ self.now.world.handed }
        ensures items { AreAnswersOfItems self.now.rollout.problem self.now.world.handed }
    {
        &self.handed
    }

    /// How many items there are.
    pub fn items(&self) -> u32
        ensures { result ≡ item_count self.now.rollout.problem }
    {
        self.history.items()
    }

    /// The pair that the item's switch holds.
    pub fn held(&self, item: u32) -> Held
        requires { item < item_count self.now.rollout.problem }
        ensures { result ≡ (held_of self.now.world item).held }
    {
        self.held[item as usize]
    }

    /// How many operations of the item its switch has applied, those of the start among them.
    pub fn now(&self, item: u32) -> u32
        requires { item < item_count self.now.rollout.problem }
        ensures { result ≡ world.now self.now.world item }
    {
        let held = self.held(item);
        if held.migration == self.migration {
            held.number
        } else {
            self.start()[item as usize]
        }
    }
}
