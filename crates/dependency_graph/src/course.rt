ghost use Rattle.std.specs.Prelude.{◌≡◌, ◌<◌, [], ◌∷◌, length, IfOk, IsTrue};
ghost use Rattle.rollout_rules.specs.Items.{item_count, item_at};
ghost use Rattle.rollout_rules.specs.History.{started, with_entries};
ghost use Rattle.rollout_rules.specs.History as history;
ghost use Rattle.rollout_rules.specs.Legal as legal;
ghost use Rattle.rollout_rules.specs.Release.{next_op};
ghost use Rattle.rollout_rules.specs.Room as rooms;
ghost use Rattle.dependency_graph.specs.Cells.{AreCells, AreRooms};
ghost use Rattle.dependency_graph.specs.Graph as graph;

use crate::cells::Cells;
use crate::filling::fill;
use crate::index::Index;
use crate::past::Past;
use crate::progress::Progress;
use crate::stage_counts::copied;
use lists::Memory;
use rollout_rules::{Entry, Item, Op};
use std::alloc::Global;
use std::marker::Model;
use wan_model::CheckedPlan;

/// How a rollout has gone so far: one legal history from its start, known by its counts.
///
/// Each call that takes a plan asks for that very one.
#[derive(Drop)]
pub(crate) struct Course {
    start: Vec<u32>,
    past: Past,
    progress: Progress,
}

impl Model for Course {
    ghost use Rattle.dependency_graph.specs.Graph.{Followed, IsFollowed};

    ghost Value = { Followed };

    ghost view = { λ c. record {
      rollout = c.progress.rollout;
      history = record { start = c.start.items; entries = c.past.items };
    } };

    ghost invariant = { λ c. IsFollowed c.progress
        (record { start = c.start.items; entries = c.past.items }) c.past.room };
}

impl Course {
    /// The course that begins at a sound start.
    pub(crate) fn new(alloc: Global, plan: &CheckedPlan, start: &[u32]) -> Result<Course, Memory>
        requires numbers { length start.now ≡ item_count plan.now.problem }
        requires sound { IsTrue (legal.is_sound plan.now.problem plan.now.plan start.now) }
        ensures { IfOk result
            (λ course. course ≡ record { rollout = plan.now; history = started start.now }) }
    {
        let start_kept = copied(alloc, start)?;
        let progress = Progress::new(alloc, plan, start)?;
        let past = Past::new(alloc, 2 * progress.op_total(plan) as usize)?;
        Ok(Course {
            start: start_kept,
            past,
            progress,
        })
    }

    /// How many items there are.
    pub(crate) fn item_count(&self) -> u32
        ensures { result ≡ item_count self.now.rollout.problem }
    {
        self.progress.item_count()
    }

    /// How many operations there are in all.
    pub(crate) fn op_total(&self, plan: &CheckedPlan) -> u32
        requires { plan.now ≡ self.now.rollout }
        ensures { result ≡ graph.op_total self.now.rollout }
    {
        self.progress.op_total(plan)
    }

    pub(crate) fn op_count(&self, item: u32) -> u32
        requires { item < item_count self.now.rollout.problem }
        ensures { result ≡ graph.count_of self.now.rollout item }
    {
        self.progress.operations(item)
    }

    pub(crate) fn settled(&self, item: u32) -> u32
        requires { item < item_count self.now.rollout.problem }
        ensures { result ≡ history.settled self.now.history item }
    {
        self.progress.settled(item)
    }

    pub(crate) fn begun(&self, item: u32) -> u32
        requires { item < item_count self.now.rollout.problem }
        ensures { result ≡ history.begun self.now.history item }
    {
        self.progress.begun(item)
    }

    pub(crate) fn flying(&self, item: u32) -> bool
        requires { item < item_count self.now.rollout.problem }
        ensures { result ≡ history.flies self.now.history item }
    {
        self.progress.flies(item)
    }

    pub(crate) fn stands(&self, plan: &CheckedPlan, item: u32) -> u32
        requires own { plan.now ≡ self.now.rollout }
        requires item { item < item_count plan.now.problem }
        ensures { result
            ≡ history.stand plan.now.problem plan.now.plan (graph.places self.now)
            (item_at plan.now.problem item) }
    {
        self.progress.stage(plan, item)
    }

    pub(crate) fn least_stage(&self, plan: &CheckedPlan) -> u32
        requires own { plan.now ≡ self.now.rollout }
        ensures { result
            ≡ rooms.least_stage plan.now.problem plan.now.plan (graph.places self.now) }
    {
        self.progress.least_stage(plan)
    }

    pub(crate) fn finished(&self) -> bool
        ensures { result
            ≡ legal.is_finished self.now.rollout.problem self.now.rollout.plan self.now.history }
    {
        self.progress.is_finished()
    }

    pub(crate) fn has_next(&self, item: u32) -> bool
        requires { item < item_count self.now.rollout.problem }
        ensures { result ≡ graph.has_next self.now item }
    {
        !self.flying(item) && self.settled(item) < self.op_count(item)
    }

    pub(crate) fn needs_met(&self, plan: &CheckedPlan, item: u32) -> bool
        requires own { plan.now ≡ self.now.rollout }
        requires item { item < item_count plan.now.problem }
        requires next { IsTrue (graph.has_next self.now item) }
        ensures { result ≡ graph.are_needs_met self.now item }
    {
        self.progress.needs_met(plan, item)
    }

    /// The item with a number.
    pub(crate) fn item(&self, number: u32) -> Item
        requires { number < item_count self.now.rollout.problem }
        ensures { result ≡ item_at self.now.rollout.problem number }
    {
        self.progress.lookup().item(number)
    }

    /// What is looked up of the plan.
    pub(crate) fn lookup(&self) -> &Index
        ensures { result.now ≡ self.now.rollout }
    {
        self.progress.lookup()
    }

    /// Writes the rooms into cells.
    pub(crate) fn fill(&self, cells: &mut Cells, plan: &CheckedPlan)
        requires own { plan.now ≡ self.now.rollout }
        requires cells { AreCells plan.now cells.old }
        ensures { AreRooms plan.now (graph.places self.now) cells.new }
    {
        fill(cells, &self.progress, plan);
    }

    /// The next operation of an item.
    pub(crate) fn next_op(&self, item: u32) -> Op
        requires item { item < item_count self.now.rollout.problem }
        requires left { history.settled self.now.history item
            < graph.count_of self.now.rollout item }
        ensures { result ≡ next_op self.now.history item }
    {
        let _ = self.op_count(item);
        Op {
            item,
            number: self.settled(item) + 1,
        }
    }

    pub(crate) fn begin(&mut self, plan: &CheckedPlan, item: u32)
        requires own { plan.now ≡ self.old.rollout }
        requires item { item < item_count plan.now.problem }
        requires next { IsTrue (graph.has_next self.old item) }
        requires needs { IsTrue (graph.are_needs_met self.old item) }
        requires room { IsTrue (graph.has_room self.old item) }
        ensures { self.new ≡ graph.with_begun self.old item }
    {
        let op = self.next_op(item);
        self.add(plan, Entry::Begin(op));
    }

    pub(crate) fn done(&mut self, plan: &CheckedPlan, item: u32)
        requires own { plan.now ≡ self.old.rollout }
        requires item { item < item_count plan.now.problem }
        requires flying { IsTrue (history.flies self.old.history item) }
        ensures { self.new ≡ graph.with_done self.old item }
    {
        self.history_is_legal();
        let op = self.next_op(item);
        self.add(plan, Entry::Done(op));
    }

    /// Begins anew at another sound start. It takes no memory.
    pub(crate) fn restart(&mut self, plan: &CheckedPlan, start: &[u32])
        requires own { plan.now ≡ self.old.rollout }
        requires empty { self.old.history.entries ≡ [] }
        requires numbers { length start.now ≡ item_count plan.now.problem }
        requires sound { IsTrue (legal.is_sound plan.now.problem plan.now.plan start.now) }
        ensures { self.new ≡ record self.old { history = started start.now } }
    {
        self.start.copy_from_slice(start);
        self.progress.restart(plan, start);
    }

    /// What the type keeps of the history.
    pub(crate) fn history_is_legal(&self)
        ensures { IsTrue (legal.is_legal self.now.rollout.problem self.now.rollout.plan
            self.now.history) }
    {
        let _ = &self.progress;
    }

    fn add(&mut self, plan: &CheckedPlan, entry: Entry)
        requires own { plan.now ≡ self.old.rollout }
        requires may { IsTrue (legal.may_add plan.now.problem plan.now.plan self.old.history
            entry) }
        ensures { self.new
            ≡ record self.old { history = with_entries self.old.history (entry ∷ []) } }
    {
        self.past.add(entry);
        self.progress.add(plan, entry);
    }
}
