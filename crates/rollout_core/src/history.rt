ghost use Rattle.std.specs.Prelude.{◌≡◌, ◌<◌, IfOk, OnOk, OnErr, IsTrue, length, slice_index_or};
ghost use Rattle.rollout_rules.specs.Items.{item_count};
ghost use Rattle.rollout_rules.specs.History.{started, with_entries};
ghost use Rattle.rollout_rules.specs.History as counts;
ghost use Rattle.rollout_rules.specs.Legal as legal;
ghost use Rattle.rollout_rules.specs.World.{in_flight, no_op};
ghost use Rattle.dependency_graph.specs.Progress.{AreCountsOf};
ghost use Rattle.rollout_core.specs.Worlds.{GoesOn};

use crate::adding::{may_begin, may_end};
use crate::copying::copy_values;
use crate::in_flight::InFlight;
use dependency_graph::{Progress, checked_plan_is_valid};
use lists::Memory;
use rollout_rules::{Entry, EntryList, Op};
use std::alloc::Global;
use std::marker::Model;
use wan_model::CheckedPlan;

/// The durable history of a rollout, which is legal, with how far each item has come and what is in flight.
#[derive(Drop)]
pub(crate) struct History<'p> {
    plan: &'p CheckedPlan,
    start: Vec<u32>,
    entries: EntryList,
    progress: Progress,
    flights: InFlight,
}

impl<'p> Model for History<'p> {
    ghost use Rattle.rollout_core.specs.Worlds.{Recorded, IsRecorded};

    ghost Value = { Recorded };

    ghost view = { λ h. record {
      rollout = h.plan.now;
      history = record { start = h.start.items; entries = h.entries };
    } };

    ghost invariant = { λ h. IsRecorded h.plan.now h.progress h.flights
        (record { start = h.start.items; entries = h.entries }) };
}

impl<'p> History<'p> {
    /// The history that begins at a sound start.
    pub(crate) fn new(
        alloc: Global,
        plan: &'p CheckedPlan,
        start: &[u32],
    ) -> Result<History<'p>, Memory>
        requires numbers { length start.now ≡ item_count plan.now.problem }
        requires sound { IsTrue (legal.is_sound plan.now.problem plan.now.plan start.now) }
        ensures { IfOk result
            (λ h. h ≡ record { rollout = plan.now; history = started start.now }) }
    {
        let numbers = copy_values(alloc, start)?;
        let progress = Progress::new(alloc, plan, start)?;
        match InFlight::new(alloc, progress.item_count()) {
            Ok(flights) => Ok(History {
                plan,
                start: numbers,
                entries: EntryList::new(alloc),
                progress,
                flights,
            }),
            Err(refused) => {
                drop(progress);
                Err(refused)
            }
        }
    }

    /// How many items there are.
    pub(crate) fn items(&self) -> u32
        ensures { result ≡ item_count self.now.rollout.problem }
    {
        self.progress.item_count()
    }

    /// How many operations of each item were settled before the first entry.
    pub(crate) fn start(&self) -> &[u32]
        ensures list { result.now ≡ self.now.history.start }
        ensures count { length self.now.history.start ≡ item_count self.now.rollout.problem }
    {
        &self.start
    }

    pub(crate) fn entries(&self) -> &EntryList
        ensures entries { result.now ≡ self.now.history.entries }
        ensures legal { IsTrue (legal.is_legal self.now.rollout.problem self.now.rollout.plan
            self.now.history) }
    {
        &self.entries
    }

    /// How many operations of the item were begun.
    fn begun(&self, item: u32) -> u32
        requires { item < item_count self.now.rollout.problem }
        ensures { result ≡ counts.begun self.now.history item }
    {
        self.progress.begun(item)
    }

    /// How many operations are in flight.
    pub(crate) fn flying_count(&self) -> u32
        ensures { result ≡ length (in_flight self.now.rollout.problem self.now.history) }
    {
        self.flights.count()
    }

    /// The n-th operation in flight, by item.
    pub(crate) fn flying(&self, n: u32) -> Op
        requires { n < length (in_flight self.now.rollout.problem self.now.history) }
        ensures operation { result
            ≡ slice_index_or (in_flight self.now.rollout.problem self.now.history) n no_op }
        ensures item { result.item < item_count self.now.rollout.problem }
    {
        let item = self.flights.item(n);
        let number = self.begun(item);
        Op { item, number }
    }

    /// Whether a batch may follow the history, entry by entry.
    pub(crate) fn may_follow(&self, batch: &[Entry]) -> bool
        ensures { result
            ≡ legal.may_follow self.now.rollout.problem self.now.rollout.plan self.now.history
            batch.now }
    {
        for n in 0..batch.len() {
            if !self.may_add(&batch[..n], batch[n]) {
                return false;
            }
        }
        true
    }

    fn may_add(&self, ahead: &[Entry], entry: Entry) -> bool
        requires { IsTrue (legal.may_follow self.now.rollout.problem self.now.rollout.plan
            self.now.history ahead.now) }
        ensures { result
            ≡ legal.may_add self.now.rollout.problem self.now.rollout.plan
            (with_entries self.now.history ahead.now) entry }
    {
        checked_plan_is_valid(self.plan);
        match entry {
            Entry::Begin(op) => may_begin(&self.progress, self.plan, ahead, op),
            Entry::Done(op) => may_end(&self.progress, ahead, op),
        }
    }

    /// Adds a batch that may follow. Lack of memory changes nothing.
    pub(crate) fn append(&mut self, batch: &[Entry]) -> Result<(), Memory>
        requires { IsTrue (legal.may_follow self.old.rollout.problem self.old.rollout.plan
            self.old.history batch.now) }
        ensures ok { OnOk result
            (self.new ≡ record self.old { history = with_entries self.old.history batch.now }) }
        ensures err { OnErr result (self.new ≡ self.old) }
    {
        self.entries.extend_from_slice(batch)?;
        count(&mut self.progress, self.plan, batch);
        self.flights.note(&self.progress);
        Ok(())
    }
}

/// Counts a batch that goes on from the history counted so far.
fn count(progress: &mut Progress, plan: &CheckedPlan, batch: &[Entry])
    requires own { plan.now ≡ progress.old.rollout }
    requires legal { GoesOn progress.old batch.now }
    ensures rollout { progress.new.rollout ≡ progress.old.rollout }
    ensures counts { (h : counts.History)
        → AreCountsOf progress.old h
        → AreCountsOf progress.new (with_entries h batch.now) }
{
    for entry in batch {
        progress.add(plan, *entry);
    }
}
