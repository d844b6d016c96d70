ghost use Rattle.std.specs.Prelude.{◌≡◌, ◌<◌, ◌≤◌, ◌&&◌, [], length, is_none, IfOk, IfErr, IfSome, IsTrue, IsFalse};
ghost use Rattle.rollout_rules.specs.Wan.{last_stage};
ghost use Rattle.rollout_rules.specs.Network.{IsNetwork};
ghost use Rattle.rollout_rules.specs.Items.{item_count, item_at};
ghost use Rattle.rollout_rules.specs.History.{started, from_nothing};
ghost use Rattle.rollout_rules.specs.History as history;
ghost use Rattle.rollout_rules.specs.Legal as legal;
ghost use Rattle.rollout_rules.specs.Release.{view_of};
ghost use Rattle.rollout_rules.specs.Room as rooms;
ghost use Rattle.dependency_graph.specs.Cells.{resource_count, resource_at};
ghost use Rattle.dependency_graph.specs.Graph as graph;
ghost use Rattle.dependency_graph.specs.Waiting.{is_admissible, Lacks, AreWoken, IsWakefulGraph};

use crate::cells::Cells;
use crate::chains::Chains;
use crate::changing::{first_lacking, lower_row, raise_row};
use crate::checked::checked_plan_is_valid;
use crate::course::Course;
use crate::resources::Touched;
use crate::rousing::{rouse, rouse_each};
use crate::wakes::Wakes;
use crate::zeros::zeros;
use lists::Memory;
use std::alloc::Global;
use std::marker::Model;
use wan_model::{CheckedPlan, Item, OpView};

/// The operations of a rollout as a graph of what each one needs and of the room that it takes. A graph
/// stands for one legal history from its start, and each call tells what the rules say of that history.
///
/// Items go by their numbers, stages by theirs.
#[derive(Drop)]
pub struct Graph {
    plan: CheckedPlan,
    course: Course,
    touched: Touched,
    chains: Chains,
    cells: Cells,
    wakes: Wakes,
}

impl Model for Graph {
    ghost use Rattle.dependency_graph.specs.Graph.{Followed};
    ghost use Rattle.dependency_graph.specs.Waiting.{IsWakefulGraph};

    ghost Value = { Followed };

    ghost view = { λ g. g.course };

    ghost invariant = { λ g. IsWakefulGraph g.plan g.touched g.chains g.course g.cells g.wakes };
}

impl Graph {
    /// The graph at the start at which nothing is settled. An Err is lack of memory, and gives the plan back.
    pub fn new(alloc: Global, plan: CheckedPlan) -> Result<Graph, CheckedPlan>
        ensures ok { IfOk result
            (λ g. g ≡ record { rollout = plan; history = from_nothing plan.problem [] }) }
        ensures err { IfErr result (λ back. back ≡ plan) }
    {
        match first_parts(alloc, &plan) {
            Ok(parts) => Ok(of_parts(plan, parts)),
            Err(_) => Err(plan),
        }
    }

    /// The graph at a sound start. An Err is lack of memory, and gives the plan back.
    pub fn start(alloc: Global, plan: CheckedPlan, start: &[u32]) -> Result<Graph, CheckedPlan>
        requires numbers { length start.now ≡ item_count plan.problem }
        requires sound { IsTrue (legal.is_sound plan.problem plan.plan start.now) }
        ensures ok { IfOk result (λ g. g ≡ record { rollout = plan; history = started start.now }) }
        ensures err { IfErr result (λ back. back ≡ plan) }
    {
        match parts_at(alloc, &plan, start) {
            Ok(parts) => Ok(of_parts(plan, parts)),
            Err(_) => Err(plan),
        }
    }

    /// Begins anew at another sound start, where no entry was added. It takes no memory.
    pub fn restart(&mut self, start: &[u32])
        requires empty { self.old.history.entries ≡ [] }
        requires numbers { length start.now ≡ item_count self.old.rollout.problem }
        requires sound { IsTrue (legal.is_sound self.old.rollout.problem self.old.rollout.plan
            start.now) }
        ensures { self.new ≡ record self.old { history = started start.now } }
    {
        self.course.restart(&self.plan, start);
        self.course.fill(&mut self.cells, &self.plan);
        self.wakes.clear();
        rouse_each(&mut self.wakes, &self.course);
    }

    /// Gives the plan back.
    pub fn into_plan(self) -> CheckedPlan
        ensures { result ≡ self.rollout }
    {
        self.plan
    }

    pub fn plan(&self) -> &CheckedPlan
        ensures { result.now ≡ self.now.rollout }
    {
        &self.plan
    }

    /// How many items there are: the flows, and the entries of all tunnels.
    pub fn item_count(&self) -> u32
        ensures { result ≡ item_count self.now.rollout.problem }
    {
        self.course.item_count()
    }

    /// The item with a number.
    pub fn item(&self, number: u32) -> Item
        requires { number < item_count self.now.rollout.problem }
        ensures { result ≡ item_at self.now.rollout.problem number }
    {
        self.course.item(number)
    }

    /// How many operations there are in all. Time: the items.
    pub fn op_total(&self) -> u32
        ensures { result ≡ graph.op_total self.now.rollout }
    {
        self.course.op_total(&self.plan)
    }

    /// How many operations an item has.
    pub fn op_count(&self, item: u32) -> u32
        requires { item < item_count self.now.rollout.problem }
        ensures { result ≡ graph.count_of self.now.rollout item }
    {
        self.course.op_count(item)
    }

    /// How many of them are settled.
    pub fn settled(&self, item: u32) -> u32
        requires { item < item_count self.now.rollout.problem }
        ensures { result ≡ history.settled self.now.history item }
    {
        self.course.settled(item)
    }

    /// How many of them were begun, settled or in flight.
    pub fn begun(&self, item: u32) -> u32
        requires { item < item_count self.now.rollout.problem }
        ensures { result ≡ history.begun self.now.history item }
    {
        self.course.begun(item)
    }

    /// How many operations aren't settled. Time: the items.
    pub fn unsettled(&self) -> u64
        ensures { result
            ≡ legal.unsettled self.now.rollout.problem self.now.rollout.plan self.now.history }
    {
        let mut left = 0;
        for item in 0..self.item_count() {
            left += u64::from(self.op_count(item).saturating_sub(self.settled(item)));
        }
        left
    }

    /// Whether one of them is in flight.
    pub fn flying(&self, item: u32) -> bool
        requires { item < item_count self.now.rollout.problem }
        ensures { result ≡ history.flies self.now.history item }
    {
        self.course.flying(item)
    }

    /// The stage at which an item stands.
    pub fn stands(&self, item: u32) -> u32
        requires { item < item_count self.now.rollout.problem }
        ensures { result
            ≡ history.stand self.now.rollout.problem self.now.rollout.plan (graph.places self.now)
            (item_at self.now.rollout.problem item) }
    {
        self.course.stands(&self.plan, item)
    }

    /// The least stage at which an item stands.
    pub fn least_stage(&self) -> u32
        ensures { result
            ≡ rooms.least_stage self.now.rollout.problem self.now.rollout.plan
            (graph.places self.now) }
    {
        self.course.least_stage(&self.plan)
    }

    /// Whether every operation of every item is settled. Time: the items.
    pub fn finished(&self) -> bool
        ensures { result
            ≡ legal.is_finished self.now.rollout.problem self.now.rollout.plan self.now.history }
    {
        self.course.finished()
    }

    /// Whether an item has an operation left and none in flight.
    pub fn has_next(&self, item: u32) -> bool
        requires { item < item_count self.now.rollout.problem }
        ensures { result ≡ graph.has_next self.now item }
    {
        self.course.has_next(item)
    }

    /// Whether the needs of an item's next operation are met.
    pub fn needs_met(&self, item: u32) -> bool
        requires item { item < item_count self.now.rollout.problem }
        requires next { IsTrue (graph.has_next self.now item) }
        ensures { result ≡ graph.are_needs_met self.now item }
    {
        self.course.needs_met(&self.plan, item)
    }

    /// Whether every room fits with an item's next operation begun.
    pub fn room_for(&self, item: u32) -> bool
        requires item { item < item_count self.now.rollout.problem }
        requires next { IsTrue (graph.has_next self.now item) }
        ensures { result ≡ graph.has_room self.now item }
    {
        self.lacking(item).is_none()
    }

    /// The items that are woken: of no other item the next operation may begin.
    pub fn woken(&self) -> &[u32]
        ensures woken { AreWoken self.now result.now }
        ensures network { IsNetwork self.now.rollout.problem }
        ensures legal { IsTrue (legal.is_legal self.now.rollout.problem self.now.rollout.plan
            self.now.history) }
    {
        self.course.history_is_legal();
        checked_plan_is_valid(&self.plan);
        self.wakes.row()
    }

    /// Whether an item has a next operation and that may begin. One that may not is let go: it isn't woken
    /// again but by a Done.
    pub fn admits(&mut self, item: u32) -> bool
        requires { item < item_count self.old.rollout.problem }
        ensures told { result ≡ is_admissible self.old item }
        ensures same { self.new ≡ self.old }
    {
        if !self.is_ready(item) {
            self.rest(item);
            return false;
        }
        match self.lacking(item) {
            Some(resource) => {
                self.keep(item, resource);
                false
            }
            None => true,
        }
    }

    /// What a policy sees of an item's next operation.
    pub fn view(&self, item: u32) -> OpView
        requires item { item < item_count self.now.rollout.problem }
        requires next { IsTrue (graph.has_next self.now item) }
        ensures { result
            ≡ view_of self.now.rollout.problem self.now.rollout.plan self.now.history item }
    {
        let op = self.course.next_op(item);
        let stage = self.course.stands(&self.plan, item);
        OpView {
            item,
            number: op.number,
            stage,
            left: self.op_count(item).saturating_sub(self.course.begun(item)),
            chain: self.chains.chain(self.course.item(item), stage),
        }
    }

    /// Begins an item's next operation, which may begin. It takes no memory.
    pub fn begin(&mut self, item: u32)
        requires item { item < item_count self.old.rollout.problem }
        requires next { IsTrue (graph.has_next self.old item) }
        requires needs { IsTrue (graph.are_needs_met self.old item) }
        requires room { IsTrue (graph.has_room self.old item) }
        ensures { self.new ≡ graph.with_begun self.old item }
    {
        self.course.history_is_legal();
        checked_plan_is_valid(&self.plan);
        let low = self.course.least_stage(&self.plan) as usize;
        let stage = self.course.stands(&self.plan, item) as usize;
        let row = self.touched.row(item);
        raise_row(
            &mut self.cells,
            &self.plan,
            self.course.item(item),
            stage,
            low,
            row,
        );
        self.course.begin(&self.plan, item);
        self.wakes.rest(item);
    }

    /// Settles the operation that is in flight of an item. It takes no memory.
    pub fn done(&mut self, item: u32)
        requires item { item < item_count self.old.rollout.problem }
        requires flying { IsTrue (history.flies self.old.history item) }
        ensures { self.new ≡ graph.with_done self.old item }
    {
        self.course.history_is_legal();
        checked_plan_is_valid(&self.plan);
        let low = self.course.least_stage(&self.plan) as usize;
        let stage = self.course.stands(&self.plan, item) as usize;
        let row = self.touched.row(item);
        lower_row(
            &mut self.cells,
            &self.plan,
            self.course.item(item),
            stage,
            low,
            row,
        );
        self.course.done(&self.plan, item);
        let after = self.course.least_stage(&self.plan) as usize;
        rouse(
            &mut self.wakes,
            &self.plan,
            &self.course,
            item,
            row.resources(),
            after != low,
        );
    }

    /// How much is taken of a resource at a stage, from the least stage at which an item stands on. The
    /// resources are the links, in units of 1/scale, and then the switches' tables.
    pub fn cell(&self, stage: u32, resource: u32) -> u64
        requires least { rooms.least_stage self.now.rollout.problem self.now.rollout.plan
            (graph.places self.now)
            ≤ stage }
        requires stage { stage < last_stage self.now.rollout.plan }
        requires resource { resource < resource_count self.now.rollout.problem }
        ensures { result
            ≡ rooms.room self.now.rollout.problem self.now.rollout.plan (graph.places self.now)
            stage (resource_at self.now.rollout.problem resource) }
    {
        self.cells.cell(resource as usize, stage as usize)
    }

    /// Whether an item has a next operation and its needs are met.
    fn is_ready(&self, item: u32) -> bool
        requires { item < item_count self.now.rollout.problem }
        ensures { result ≡ graph.has_next self.now item && graph.are_needs_met self.now item }
    {
        self.has_next(item) && self.needs_met(item)
    }

    /// A resource of which there isn't enough for an item's next operation.
    fn lacking(&self, item: u32) -> Option<u32>
        requires item { item < item_count self.now.rollout.problem }
        requires next { IsTrue (graph.has_next self.now item) }
        ensures none { is_none result ≡ graph.has_room self.now item }
        ensures lacks { IfSome result (Lacks self.now item) }
    {
        self.course.history_is_legal();
        checked_plan_is_valid(&self.plan);
        let low = self.course.least_stage(&self.plan) as usize;
        let stage = self.course.stands(&self.plan, item) as usize;
        let row = self.touched.row(item);
        first_lacking(
            &self.cells,
            &self.plan,
            self.course.item(item),
            stage,
            low,
            row,
        )
    }

    /// Lets an item go that has no next operation, or one whose needs aren't met.
    fn rest(&mut self, item: u32)
        requires item { item < item_count self.old.rollout.problem }
        requires idle { IsFalse (graph.has_next self.old item
            && graph.are_needs_met self.old item) }
        ensures { self.new ≡ self.old }
    {
        if self.wakes.has(item) {
            self.wakes.rest(item);
        }
    }

    /// Keeps an item at a resource that it lacks.
    fn keep(&mut self, item: u32, resource: u32)
        requires item { item < item_count self.old.rollout.problem }
        requires lacks { Lacks self.old item resource }
        ensures { self.new ≡ self.old }
    {
        if self.wakes.has(item) {
            self.wakes.keep(item, resource);
        }
    }
}

/// All that a graph takes memory for.
#[derive(Drop)]
struct Parts {
    course: Course,
    touched: Touched,
    chains: Chains,
    cells: Cells,
    wakes: Wakes,
}

fn of_parts(plan: CheckedPlan, parts: Parts) -> Graph
    requires { IsWakefulGraph plan parts.touched parts.chains parts.course parts.cells parts.wakes }
    ensures { result ≡ parts.course }
{
    Graph {
        plan,
        course: parts.course,
        touched: parts.touched,
        chains: parts.chains,
        cells: parts.cells,
        wakes: parts.wakes,
    }
}

fn first_parts(alloc: Global, plan: &CheckedPlan) -> Result<Parts, Memory>
    ensures course { IfOk result
        (λ parts. parts.course
        ≡ record { rollout = plan.now; history = from_nothing plan.now.problem [] }) }
    ensures graph { IfOk result
        (λ parts. IsWakefulGraph plan.now parts.touched parts.chains parts.course parts.cells
        parts.wakes) }
{
    let start = zeros(alloc, plan)?;
    parts_at(alloc, plan, &start)
}

fn parts_at(alloc: Global, plan: &CheckedPlan, start: &[u32]) -> Result<Parts, Memory>
    requires numbers { length start.now ≡ item_count plan.now.problem }
    requires sound { IsTrue (legal.is_sound plan.now.problem plan.now.plan start.now) }
    ensures course { IfOk result
        (λ parts. parts.course ≡ record { rollout = plan.now; history = started start.now }) }
    ensures graph { IfOk result
        (λ parts. IsWakefulGraph plan.now parts.touched parts.chains parts.course parts.cells
        parts.wakes) }
{
    let course = Course::new(alloc, plan, start)?;
    match sides_of(alloc, plan, &course) {
        Ok(sides) => Ok(Parts {
            course,
            touched: sides.touched,
            chains: sides.chains,
            cells: sides.cells,
            wakes: sides.wakes,
        }),
        Err(refused) => {
            drop(course);
            Err(refused)
        }
    }
}

/// What a graph has beside its course.
#[derive(Drop)]
struct Sides {
    touched: Touched,
    chains: Chains,
    cells: Cells,
    wakes: Wakes,
}

fn sides_of(alloc: Global, plan: &CheckedPlan, course: &Course) -> Result<Sides, Memory>
    requires { course.now.rollout ≡ plan.now }
    ensures { IfOk result
        (λ sides. IsWakefulGraph plan.now sides.touched sides.chains course.now sides.cells
        sides.wakes) }
{
    let touched = Touched::new(alloc, plan, course.lookup())?;
    let chains = Chains::new(alloc, plan)?;
    let mut cells = Cells::new(alloc, plan)?;
    course.fill(&mut cells, plan);
    let resources = plan.problem().links().len() + plan.problem().switches().len();
    let mut wakes = Wakes::new(alloc, course.item_count(), resources as u32)?;
    rouse_each(&mut wakes, course);
    Ok(Sides {
        touched,
        chains,
        cells,
        wakes,
    })
}
