ghost use Rattle.std.specs.Prelude.{◌≡◌, ◌+◌, ◌<◌, ◌≤◌, false, [], ◌∷◌, length, slice_index, IfOk, IsTrue};
ghost use Rattle.rollout_rules.specs.Wan as wan;
ghost use Rattle.rollout_rules.specs.Items.{is_item, item_count, item_at};
ghost use Rattle.rollout_rules.specs.Operations as operation;
ghost use Rattle.rollout_rules.specs.History.{History, started, with_entries, places_of, stand};
ghost use Rattle.rollout_rules.specs.Needs as needs;
ghost use Rattle.rollout_rules.specs.Room as rooms;
ghost use Rattle.rollout_rules.specs.Legal as legal;
ghost use Rattle.dependency_graph.specs.Progress.{AreCountsOf, MayCount, flies_by};
ghost use Rattle.dependency_graph.specs.Ahead.{places_with};
ghost use Rattle.dependency_graph.specs.Ahead as places;
ghost use Rattle.dependency_graph.specs.Cells.{resource_count, resource_at};
ghost use Rattle.dependency_graph.specs.Fits.{least_stand};
ghost use Rattle.dependency_graph.specs.StageCounts.{AreStands, IsProgress};
ghost use Rattle.dependency_graph.specs.Graph as graph;

pub mod ahead;
pub mod needs;
pub mod room;

use crate::changes::{stand_after, stand_behind};
use crate::checked::checked_plan_is_valid;
use crate::index::Index;
use crate::progress::ahead::stand;
use crate::progress::needs::{needs_met, needs_met_at};
use crate::progress::room::{least_stage, room};
use crate::stage_counts::copied;
use crate::stands::Stands;
use lists::Memory;
use rollout_rules::{Entry, Item};
use std::alloc::Global;
use std::marker::Model;
use std::sync::Arc;
use wan_model::CheckedPlan;

/// How far each item has come under one plan, by counts: a history without its order.
///
/// Each call that takes a plan asks for that very one. Where an item stands is kept beside its counts.
#[derive(Drop)]
pub struct Progress {
    index: Arc<Index, Global>,
    settled: Vec<u32>,
    begun: Vec<u32>,
    stands: Stands,
}

impl Model for Progress {
    ghost use Rattle.std.specs.Arc.{arc_value};
    ghost use Rattle.dependency_graph.specs.Progress.{Counts};
    ghost use Rattle.dependency_graph.specs.StageCounts.{IsProgress};

    ghost Value = { Counts };

    ghost view = { λ c. record {
      rollout = arc_value c.index;
      settled = c.settled.items;
      begun = c.begun.items;
    } };

    ghost invariant = { λ c. IsProgress (arc_value c.index) c.settled.items c.begun.items
        c.stands };
}

impl Progress {
    /// What was settled at a start, and nothing begun after it, under this plan.
    pub fn new(alloc: Global, plan: &CheckedPlan, start: &[u32]) -> Result<Progress, Memory>
        requires { length start.now ≡ item_count plan.now.problem }
        ensures plan { IfOk result (λ progress. progress.rollout ≡ plan.now) }
        ensures counts { IfOk result (λ progress. AreCountsOf progress (started start.now)) }
    {
        let index = Index::new(alloc, plan)?;
        match counted_at(alloc, plan, &index, start) {
            Ok(counted) => of_counted(alloc, index, counted),
            Err(refused) => {
                drop(index);
                Err(refused)
            }
        }
    }

    /// Puts what was settled at another start in place of what is counted. It takes no memory.
    pub(crate) fn restart(&mut self, plan: &CheckedPlan, start: &[u32])
        requires own { plan.now ≡ self.old.rollout }
        requires numbers { length start.now ≡ item_count plan.now.problem }
        ensures rollout { self.new.rollout ≡ self.old.rollout }
        ensures counts { AreCountsOf self.new (started start.now) }
    {
        self.settled.copy_from_slice(start);
        self.begun.copy_from_slice(start);
        restand(&mut self.stands, plan, &self.index, start);
    }

    /// What is looked up of the plan.
    pub(crate) fn lookup(&self) -> &Index
        ensures { result.now ≡ self.now.rollout }
    {
        &self.index
    }

    /// The item with a number.
    pub(crate) fn item(&self, number: u32) -> Item
        requires { number < item_count self.now.rollout.problem }
        ensures { result ≡ item_at self.now.rollout.problem number }
    {
        self.lookup().item(number)
    }

    /// How many items there are.
    pub fn item_count(&self) -> u32
        ensures { result ≡ item_count self.now.rollout.problem }
    {
        self.lookup().item_count()
    }

    /// How many operations an item has.
    pub fn operations(&self, item: u32) -> u32
        requires { item < item_count self.now.rollout.problem }
        ensures { result
            ≡ operation.operations self.now.rollout.problem self.now.rollout.plan
            (item_at self.now.rollout.problem item) }
    {
        self.lookup().operations(item)
    }

    /// How many of an item's operations are settled.
    pub fn settled(&self, item: u32) -> u32
        requires { item < item_count self.now.rollout.problem }
        ensures { result ≡ slice_index self.now.settled item }
    {
        self.settled[item as usize]
    }

    /// How many of an item's operations were begun.
    pub fn begun(&self, item: u32) -> u32
        requires { item < item_count self.now.rollout.problem }
        ensures { result ≡ slice_index self.now.begun item }
    {
        self.begun[item as usize]
    }

    /// Whether an operation of an item is in flight.
    pub fn flies(&self, item: u32) -> bool
        requires { item < item_count self.now.rollout.problem }
        ensures { result ≡ flies_by self.now item }
    {
        self.begun(item).checked_sub(1) == Some(self.settled(item))
    }

    /// Whether every operation of every item is settled.
    pub fn is_finished(&self) -> bool
        ensures { (h : History)
            → AreCountsOf self.now h
            → result ≡ legal.is_finished self.now.rollout.problem self.now.rollout.plan h }
    {
        all_settled(self)
    }

    /// How many operations there are in all.
    pub fn op_total(&self, plan: &CheckedPlan) -> u32
        requires { plan.now ≡ self.now.rollout }
        ensures { result ≡ graph.op_total self.now.rollout }
    {
        op_total(self, plan)
    }

    /// The stage at which an item stands.
    pub fn stage(&self, plan: &CheckedPlan, item: u32) -> u32
        requires own { plan.now ≡ self.now.rollout }
        requires item { item < item_count plan.now.problem }
        ensures { (h : History)
            → AreCountsOf self.now h
            → result
            ≡ stand plan.now.problem plan.now.plan (places_of plan.now.problem h)
            (item_at plan.now.problem item) }
    {
        checked_plan_is_valid(plan);
        stand(self, plan, &[], item) as u32
    }

    /// The least stage at which an item stands.
    pub fn least_stage(&self, plan: &CheckedPlan) -> u32
        requires { plan.now ≡ self.now.rollout }
        ensures { (h : History)
            → AreCountsOf self.now h
            → result
            ≡ rooms.least_stage plan.now.problem plan.now.plan (places_of plan.now.problem h) }
    {
        let _ = plan.last_stage();
        least_stage(self, plan, &[]) as u32
    }

    pub(crate) fn stand(&self, plan: &CheckedPlan, item: u32) -> usize
        requires own { plan.now ≡ self.now.rollout }
        requires item { item < item_count plan.now.problem }
        ensures value { result ≡ places.stand_with plan.now self.now [] item }
        ensures within { result ≤ wan.last_stage plan.now.plan }
    {
        stand(self, plan, &[], item)
    }

    pub(crate) fn least_stand(&self, plan: &CheckedPlan) -> usize
        requires { plan.now ≡ self.now.rollout }
        ensures value { result ≡ least_stand plan.now self.now [] }
        ensures within { result ≤ wan.last_stage plan.now.plan }
    {
        least_stage(self, plan, &[])
    }

    /// How much is taken of a resource at a stage: a sum over all that takes of it.
    pub(crate) fn room(&self, plan: &CheckedPlan, resource: usize, stage: usize) -> u128
        requires own { plan.now ≡ self.now.rollout }
        requires resource { resource < resource_count plan.now.problem }
        requires stage { stage < wan.last_stage plan.now.plan }
        ensures { result
            ≡ rooms.room plan.now.problem plan.now.plan (places_with plan.now self.now []) stage
            (resource_at plan.now.problem resource) }
    {
        room(self, plan, resource, stage)
    }

    /// Whether the needs of an item's next operation are met.
    pub fn needs_met(&self, plan: &CheckedPlan, item: u32) -> bool
        requires own { plan.now ≡ self.now.rollout }
        requires item { item < item_count plan.now.problem }
        requires left { slice_index self.now.settled item < graph.count_of plan.now item }
        ensures { (h : History)
            → AreCountsOf self.now h
            → result
            ≡ needs.needs_met plan.now.problem plan.now.plan (places_of plan.now.problem h)
            (item_at plan.now.problem item) }
    {
        checked_plan_is_valid(plan);
        needs_met(self, plan, &[], item)
    }

    /// Whether the needs of the operation that takes an item from stage `s` to the next are met.
    pub(crate) fn needs_met_at(&self, plan: &CheckedPlan, item: Item, s: usize) -> bool
        requires own { plan.now ≡ self.now.rollout }
        requires item { IsTrue (is_item plan.now.problem item) }
        requires stage { s < wan.last_stage plan.now.plan }
        ensures { result
            ≡ needs.needs_met_at plan.now.problem plan.now.plan (places_with plan.now self.now [])
            item s }
    {
        needs_met_at(self, plan, item, s)
    }

    /// Counts one entry more.
    pub fn add(&mut self, plan: &CheckedPlan, entry: Entry)
        requires own { plan.now ≡ self.old.rollout }
        requires left { MayCount self.old entry }
        ensures rollout { self.new.rollout ≡ self.old.rollout }
        ensures counts { (h : History)
            → AreCountsOf self.old h
            → AreCountsOf self.new (with_entries h (entry ∷ [])) }
    {
        match entry {
            Entry::Begin(op) => self.begun[op.item as usize] += 1,
            Entry::Done(op) => {
                let item = op.item as usize;
                let settled = self.settled[item] + 1;
                let stage = stage_behind(self, plan, op.item);
                self.stands.set(op.item, stage);
                self.settled[item] = settled;
            }
        }
    }
}

/// What is counted, and where items stand by it.
#[derive(Drop)]
struct Counted {
    settled: Vec<u32>,
    begun: Vec<u32>,
    stands: Stands,
}

fn counted_at(
    alloc: Global,
    plan: &CheckedPlan,
    index: &Index,
    start: &[u32],
) -> Result<Counted, Memory>
    requires own { index.now ≡ plan.now }
    requires numbers { length start.now ≡ item_count plan.now.problem }
    ensures progress { IfOk result
        (λ c. IsProgress plan.now c.settled.items c.begun.items c.stands) }
    ensures counts { IfOk result
        (λ c. AreCountsOf (record {
          rollout = plan.now;
          settled = c.settled.items;
          begun = c.begun.items;
        })
        (started start.now)) }
{
    checked_plan_is_valid(plan);
    let stages = first_stages(alloc, plan, index, start)?;
    let stands = Stands::new(alloc, plan.last_stage() as u32, stages)?;
    let settled = copied(alloc, start)?;
    let begun = copied(alloc, start)?;
    Ok(Counted {
        settled,
        begun,
        stands,
    })
}

fn of_counted(alloc: Global, index: Index, counted: Counted) -> Result<Progress, Memory>
    requires { IsProgress index counted.settled.items counted.begun.items counted.stands }
    ensures { IfOk result
        (λ progress. progress
        ≡ record {
          rollout = index;
          settled = counted.settled.items;
          begun = counted.begun.items;
        }) }
{
    Ok(Progress {
        index: Arc::new(alloc, index)?,
        settled: counted.settled,
        begun: counted.begun,
        stands: counted.stands,
    })
}

fn first_stages(
    alloc: Global,
    plan: &CheckedPlan,
    index: &Index,
    start: &[u32],
) -> Result<Vec<u32>, Memory>
    requires own { index.now ≡ plan.now }
    requires numbers { length start.now ≡ item_count plan.now.problem }
    ensures { IfOk result
        (λ stages. AreStands plan.now start.now stages.items (item_count plan.now.problem)) }
{
    let mut stages = Vec::new(alloc);
    for item in 0..index.item_count() {
        let settled = u64::from(start[item as usize]);
        stages.push(stand_after(plan, index.item(item), settled))?;
    }
    Ok(stages)
}

/// The stage to which an item goes as one operation more of it is settled.
fn stage_behind(progress: &Progress, plan: &CheckedPlan, item: u32) -> u32
    requires own { plan.now ≡ progress.now.rollout }
    requires item { item < item_count plan.now.problem }
    ensures { result
        ≡ operation.stand_after plan.now.problem plan.now.plan (item_at plan.now.problem item)
        (slice_index progress.now.settled item + 1) }
{
    let from = progress.stands.stage(item);
    stand_behind(plan, progress.lookup().item(item), from)
}

fn restand(stands: &mut Stands, plan: &CheckedPlan, index: &Index, start: &[u32])
    requires own { index.now ≡ plan.now }
    requires numbers { length start.now ≡ item_count plan.now.problem }
    requires items { length stands.old.stages ≡ item_count plan.now.problem }
    requires last { stands.old.last ≡ wan.last_stage plan.now.plan }
    ensures stands { AreStands plan.now start.now stands.new.stages (item_count plan.now.problem) }
    ensures last { stands.new.last ≡ wan.last_stage plan.now.plan }
{
    for item in 0..index.item_count() {
        let settled = u64::from(start[item as usize]);
        stands.set(item, stand_after(plan, index.item(item), settled));
    }
}

fn op_total(progress: &Progress, plan: &CheckedPlan) -> u32
    requires { plan.now ≡ progress.now.rollout }
    ensures { result ≡ graph.op_total progress.now.rollout }
{
    checked_plan_is_valid(plan);
    let mut total = 0;
    for item in 0..progress.item_count() {
        total += few_operations(progress, plan, item);
    }
    total
}

/// Each operation comes to a stage of its own.
fn few_operations(progress: &Progress, plan: &CheckedPlan, item: u32) -> u32
    requires own { plan.now ≡ progress.now.rollout }
    requires item { item < item_count progress.now.rollout.problem }
    ensures value { result ≡ graph.count_of progress.now.rollout item }
    ensures few { result < 256 }
{
    let _ = plan.last_stage();
    progress.operations(item)
}

fn all_settled(progress: &Progress) -> bool
    ensures { result ≡ places.all_settled progress.now }
{
    for item in 0..progress.item_count() {
        if progress.settled(item) != progress.operations(item) {
            return false;
        }
    }
    true
}
