ghost use Rattle.std.specs.Prelude.{◌≡◌, ℕ, ◌+◌, ◌<◌, IfOk, length, slice_index, ◌==◌, if◌then◌else◌};
ghost use Rattle.rollout_report.specs.Peaks.{front};
ghost use Rattle.rollout_report.specs.Counts.{AreCounts, AreCountsOf};

use crate::history::History;
use lists::Memory;
use rollout_rules::Entry;
use std::alloc::Global;
use std::marker::Model;
use wan_model::{CheckedPlan, item_count};

/// How many operations of each item are settled, and how many were begun, by the item's number.
#[derive(Debug, Drop)]
pub struct Counts {
    settled: Vec<u64>,
    begun: Vec<u64>,
}

impl Model for Counts {
    ghost use Rattle.rollout_report.specs.Counts.{Counted};

    ghost Value = { Counted };

    ghost view = { λ c. record { settled = c.settled.items; begun = c.begun.items } };
}

impl Counts {
    /// The counts of a whole history, those of its start among them. An Err is lack of memory.
    pub fn over(alloc: Global, plan: &CheckedPlan, history: &History<'_>) -> Result<Counts, Memory>
        ensures { IfOk result (λ counts. AreCountsOf plan.now.problem history.now counts) }
    {
        let mut counts = Counts::at_start(alloc, plan, history)?;
        for place in 0..history.len() {
            counts.add(history, place);
        }
        Ok(counts)
    }

    /// The counts of a history's start.
    pub(crate) fn at_start(
        alloc: Global,
        plan: &CheckedPlan,
        history: &History<'_>,
    ) -> Result<Counts, Memory>
        ensures { IfOk result
            (λ counts. AreCountsOf plan.now.problem (front history.now 0) counts) }
    {
        let items = item_count(plan.problem()) as usize;
        let settled = at_start(alloc, history, items)?;
        let begun = at_start(alloc, history, items)?;
        Ok(Counts { settled, begun })
    }

    /// How many operations of an item are settled.
    pub fn settled(&self, item: u32) -> u64
        requires { item < length self.now.settled }
        ensures { result ≡ slice_index self.now.settled item }
    {
        self.settled[item as usize]
    }

    /// How many operations of an item were begun, those of the start among them.
    pub fn begun(&self, item: u32) -> u64
        requires { item < length self.now.begun }
        ensures { result ≡ slice_index self.now.begun item }
    {
        self.begun[item as usize]
    }

    /// Whether an operation of an item is in flight.
    pub fn flies(&self, item: u32) -> bool
        requires settled { item < length self.now.settled }
        requires begun { item < length self.now.begun }
        ensures { result
            ≡ (slice_index self.now.begun item == slice_index self.now.settled item + 1) }
    {
        self.begun(item).checked_sub(1) == Some(self.settled(item))
    }

    /// Counts the entry at a place after those that were counted.
    pub(crate) fn add(&mut self, history: &History<'_>, place: usize)
        requires place { place < length history.now.entries }
        requires counts { AreCounts (front history.now place) self.old }
        ensures counts { AreCounts (front history.now (place + 1)) self.new }
        ensures settled { length self.new.settled ≡ length self.old.settled }
        ensures begun { length self.new.begun ≡ length self.old.begun }
    {
        match history.entry(place) {
            Entry::Begin(op) => add_one(&mut self.begun, op.item as usize),
            Entry::Done(op) => add_one(&mut self.settled, op.item as usize),
        }
    }
}

/// How many operations of each item were settled at the start of a history.
fn at_start(alloc: Global, history: &History<'_>, items: usize) -> Result<Vec<u64>, Memory>
    ensures all { IfOk result (λ counts. length counts.items ≡ items) }
    ensures each { IfOk result
        (λ counts. (n : ℕ)
        → n < items
        → slice_index counts.items n ≡ slice_index history.now.start n) }
{
    let mut counts = vec![in alloc; 0u64; items]?;
    for item in 0..items {
        counts[item] = u64::from(history.settled_at_start(item));
    }
    Ok(counts)
}

/// Adds one to the count of an item that is counted here.
fn add_one(counts: &mut [u64], item: usize)
    requires { (n : ℕ)
        → n < length counts.old
        → slice_index counts.old n + 1 < 18446744073709551616 }
    ensures { (n : ℕ)
        → n < length counts.old
        → slice_index counts.new n ≡ (if item == n then 1 else 0) + slice_index counts.old n }
{
    if item < counts.len() {
        counts[item] += 1;
    }
}
