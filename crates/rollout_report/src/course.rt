ghost use Rattle.std.specs.Prelude.{◌≡◌, ℕ, ◌+◌, ◌<◌, ◌≤◌, IfOk, IsTrue, length, slice_index};
ghost use Rattle.rollout_rules.specs.Wan as wan;
ghost use Rattle.rollout_rules.specs.Items as rules;
ghost use Rattle.rollout_rules.specs.Operations as operation;
ghost use Rattle.rollout_report.specs.Peaks.{front};
ghost use Rattle.rollout_report.specs.Counts.{AreCountsOf, entry_at, item_of};
ghost use Rattle.rollout_report.specs.Course.{here_of, next_of};
ghost use Rattle.dependency_graph.specs.Index.{AreItems};

use crate::counts::Counts;
use crate::history::History;
use dependency_graph::{changes_behind, items, stand_after};
use lists::{Many, Memory};
use rollout_rules::{Entry, Item};
use std::alloc::Global;
use std::marker::Model;
use std::snapshot::Snapshot;
use wan_model::{CheckedPlan, item_count};

/// How far the items of a rollout have come after the first entries of a history: the counts of their
/// operations, and the stage at which each of them stands.
///
/// Each call that takes a plan asks for that very one.
#[derive(Drop)]
pub(crate) struct Course {
    plan: Snapshot<CheckedPlan>,
    items: Many<Item>,
    counts: Counts,
    stands: Vec<usize>,
}

impl Model for Course {
    ghost use Rattle.rollout_report.specs.Course.{Coursed, IsCourse};

    ghost Value = { Coursed };

    ghost view = { λ c. record { rollout = c.plan.value; counts = c.counts } };

    ghost invariant = { λ c. IsCourse (record { rollout = c.plan.value; counts = c.counts }) c.items
        c.stands.items };
}

impl Course {
    /// The course at the start of a history.
    pub(crate) fn new(
        alloc: Global,
        plan: &CheckedPlan,
        history: &History<'_>,
    ) -> Result<Course, Memory>
        ensures rollout { IfOk result (λ course. course.rollout ≡ plan.now) }
        ensures counts { IfOk result
            (λ course. AreCountsOf plan.now.problem (front history.now 0) course.counts) }
    {
        let items = items(alloc, plan)?;
        let counts = Counts::at_start(alloc, plan, history)?;
        let stands = first_stands(alloc, plan, items.as_slice(), &counts)?;
        Ok(Course {
            plan: Snapshot::of(plan),
            items,
            counts,
            stands,
        })
    }

    /// How many items there are.
    pub(crate) fn len(&self) -> usize
        ensures { result ≡ rules.item_count self.now.rollout.problem }
    {
        self.items.as_slice().len()
    }

    /// The item with a number.
    pub(crate) fn item(&self, number: u32) -> Item
        requires { number < rules.item_count self.now.rollout.problem }
        ensures value { result ≡ rules.item_at self.now.rollout.problem number }
    {
        self.items.as_slice()[number as usize]
    }

    /// The counts of the items' operations.
    pub(crate) fn counts(&self) -> &Counts
        ensures counts { result.now ≡ self.now.counts }
        ensures settled { length self.now.counts.settled
            ≡ rules.item_count self.now.rollout.problem }
        ensures begun { length self.now.counts.begun ≡ rules.item_count self.now.rollout.problem }
    {
        &self.counts
    }

    /// The stage at which an item stands.
    pub(crate) fn here(&self, item: u32) -> usize
        requires { item < rules.item_count self.now.rollout.problem }
        ensures value { result ≡ here_of self.now item }
        ensures inside { result ≤ wan.last_stage self.now.rollout.plan }
    {
        self.stands[item as usize]
    }

    /// The stage at which an item stands once its operation in flight is applied. Time: the stages up to
    /// there.
    pub(crate) fn next(&self, plan: &CheckedPlan, item: u32) -> usize
        requires own { plan.now ≡ self.now.rollout }
        requires item { item < rules.item_count self.now.rollout.problem }
        ensures value { result ≡ next_of self.now item }
        ensures inside { result ≤ wan.last_stage self.now.rollout.plan }
    {
        let here = self.here(item);
        if self.counts.flies(item) {
            stand_behind(plan, self.items.as_slice()[item as usize], here)
        } else {
            here
        }
    }

    /// Takes the entry at a place, after those that were taken.
    pub(crate) fn take(&mut self, plan: &CheckedPlan, history: &History<'_>, place: usize)
        requires own { plan.now ≡ self.old.rollout }
        requires place { place < length history.now.entries }
        requires counts { AreCountsOf plan.now.problem (front history.now place) self.old.counts }
        ensures rollout { self.new.rollout ≡ self.old.rollout }
        ensures counts { AreCountsOf plan.now.problem (front history.now (place + 1))
            self.new.counts }
    {
        self.counts.add(history, place);
        if let Entry::Done(op) = history.entry(place) {
            let place = op.item as usize;
            if place < self.stands.len() {
                let here = self.stands[place];
                let item = self.items.as_slice()[place];
                self.stands[place] = stand_behind(plan, item, here);
            }
        }
    }
}

/// The stage at which each item stands.
fn first_stands(
    alloc: Global,
    plan: &CheckedPlan,
    items: &[Item],
    counts: &Counts,
) -> Result<Vec<usize>, Memory>
    requires items { AreItems plan.now.problem (rules.item_count plan.now.problem) items.now }
    requires counts { length counts.now.settled ≡ rules.item_count plan.now.problem }
    ensures all { IfOk result (λ stands. length stands.items ≡ rules.item_count plan.now.problem) }
    ensures each { IfOk result
        (λ stands. (n : ℕ)
        → n < rules.item_count plan.now.problem
        → slice_index stands.items n
        ≡ operation.stand_after plan.now.problem plan.now.plan (rules.item_at plan.now.problem n)
        (slice_index counts.now.settled n)) }
{
    let mut stands = vec![in alloc; 0usize; items.len()]?;
    for number in 0..item_count(plan.problem()) {
        let place = number as usize;
        stands[place] = stand_after(plan, items[place], counts.settled(number)) as usize;
    }
    Ok(stands)
}

/// The stage at which an item stands with one operation more settled: from the stage after the one at
/// which it stands to the one before its next change, or to the last. Time: these stages.
fn stand_behind(plan: &CheckedPlan, item: Item, here: usize) -> usize
    requires item { IsTrue (rules.is_item plan.now.problem item) }
    requires here { here ≤ wan.last_stage plan.now.plan }
    ensures inside { result ≤ wan.last_stage plan.now.plan }
    ensures next { (j : ℕ)
        → here ≡ operation.stand_after plan.now.problem plan.now.plan item j
        → result ≡ operation.stand_after plan.now.problem plan.now.plan item (j + 1) }
{
    let last = plan.last_stage();
    for s in plan.next_stage(here)..last {
        if changes_behind(plan, item, s) {
            return s;
        }
    }
    last
}
