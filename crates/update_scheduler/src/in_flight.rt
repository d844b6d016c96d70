ghost use Rattle.std.specs.Prelude.{◌≡◌, ◌+◌, ◌*◌, ◌<◌, ◌≤◌, ◌++◌, [], length, drop, take, nat_lt, IfOk, IsTrue, vec_len, vec_capacity};
ghost use Rattle.rollout_rules.specs.Items.{item_count};
ghost use Rattle.rollout_rules.specs.History.{settled};
ghost use Rattle.rollout_rules.specs.Legal.{is_legal};
ghost use Rattle.rollout_rules.specs.Release as rule;
ghost use Rattle.rollout_rules.specs.World.{in_flight};
ghost use Rattle.rollout_rules.specs.declared.op.Entry.TheVariants.{Begin};
ghost use Rattle.dependency_graph.specs.Graph.{count_of};
ghost use Rattle.update_scheduler.specs.InFlight.{ahead, behind, items_of, with_each, with_entry};
ghost use Rattle.update_scheduler.specs.Rows.{Rises};

use dependency_graph::Graph;
use lists::Memory;
use rollout_rules::{Entry, Op};
use std::alloc::Global;
use std::marker::Model;
use wan_model::item_count;

/// The operations in flight, by item.
#[derive(Drop)]
pub(crate) struct InFlight {
    items: u32,
    ops: Vec<Op>,
}

impl Model for InFlight {
    ghost use Rattle.std.specs.Prelude.{◌*◌, ◌≤◌, vec_capacity};
    ghost use Rattle.update_scheduler.specs.InFlight.{Flown, items_of};
    ghost use Rattle.update_scheduler.specs.Rows.{Rises};

    ghost Value = { Flown };

    ghost view = { λ f. record { items = f.items; ops = f.ops.items } };

    ghost invariant = { λ f. (3 * f.items ≤ vec_capacity f.ops) × Rises (items_of f.ops.items) };
}

impl InFlight {
    /// Those of a legal history.
    pub(crate) fn new(alloc: Global, graph: &Graph) -> Result<InFlight, Memory>
        requires legal { IsTrue (is_legal graph.now.rollout.problem graph.now.rollout.plan
            graph.now.history) }
        ensures { IfOk result
            (λ f. f
            ≡ record {
              items = item_count graph.now.rollout.problem;
              ops = in_flight graph.now.rollout.problem graph.now.history;
            }) }
    {
        let items = item_count(graph.plan().problem());
        let mut ops = Vec::with_capacity(alloc, 3 * items as usize)?;
        find(graph, items, &mut ops);
        Ok(InFlight { items, ops })
    }

    pub(crate) fn ops(&self) -> &[Op]
        ensures { result.now ≡ self.now.ops }
    {
        self.ops.as_slice()
    }

    /// Follows entries of the history: what begins comes in, and what is done goes. Time: for each entry the
    /// logarithm of what is in flight, and the moving of what lies after its place.
    pub(crate) fn follow(&mut self, entries: &[Entry])
        requires room { length self.old.ops + length entries.now ≤ 3 * self.old.items }
        ensures items { self.new.items ≡ self.old.items }
        ensures ops { self.new.ops ≡ with_each self.old.ops entries.now }
    {
        for entry in entries {
            self.take(*entry);
        }
    }

    fn take(&mut self, entry: Entry)
        requires room { length self.old.ops < 3 * self.old.items }
        ensures items { self.new.items ≡ self.old.items }
        ensures ops { self.new.ops ≡ with_entry self.old.ops entry }
        ensures len { length self.new.ops ≤ length self.old.ops + 1 }
    {
        match entry {
            Entry::Begin(op) => put_in(&mut self.ops, op),
            Entry::Done(op) => leave_out(&mut self.ops, op.item),
        }
    }
}

/// Puts an operation in at the place of its item.
fn put_in(ops: &mut Vec<Op>, op: Op)
    requires rises { Rises (items_of ops.old.items) }
    requires room { vec_len ops.old < vec_capacity ops.old }
    ensures ops { ops.new.items ≡ with_entry ops.old.items (Begin op) }
    ensures rises { Rises (items_of ops.new.items) }
    ensures capacity { vec_capacity ops.new ≡ vec_capacity ops.old }
{
    let place = place_of(ops, op.item);
    let _ = ops.insert(place, op);
}

/// Takes the operation of an item out, which stands there; where none does, the first of a higher item goes.
fn leave_out(ops: &mut Vec<Op>, item: u32)
    requires rises { Rises (items_of ops.old.items) }
    ensures ops { ops.new.items ≡ ahead item ops.old.items ++ drop 1 (behind item ops.old.items) }
    ensures rises { Rises (items_of ops.new.items) }
    ensures capacity { vec_capacity ops.new ≡ vec_capacity ops.old }
{
    let place = place_of(ops, item);
    if place < ops.len() {
        let _ = ops.remove(place);
    }
}

/// How many operations are of lower items than this one. Time: the logarithm of how many there are.
fn place_of(ops: &[Op], item: u32) -> usize
    requires rises { Rises (items_of ops.now) }
    ensures front { take result ops.now ≡ ahead item ops.now }
    ensures rest { drop result ops.now ≡ behind item ops.now }
    ensures most { result ≤ length ops.now }
{
    ops.partition_point(
        |op: &Op| -> bool
            ensures { result ≡ nat_lt op.now.item item }
        { op.item < item },
    )
}

/// Adds the operations in flight, by item.
fn find(graph: &Graph, items: u32, ops: &mut Vec<Op>)
    requires legal { IsTrue (is_legal graph.now.rollout.problem graph.now.rollout.plan
        graph.now.history) }
    requires own { items ≡ item_count graph.now.rollout.problem }
    requires empty { ops.old.items ≡ [] }
    requires room { items ≤ vec_capacity ops.old }
    ensures ops { ops.new.items ≡ in_flight graph.now.rollout.problem graph.now.history }
    ensures capacity { vec_capacity ops.new ≡ vec_capacity ops.old }
{
    for item in 0..items {
        if graph.flying(item) {
            ops.push_reserved(next_op(graph, item));
        }
    }
}

/// The next operation of an item that has one left.
fn next_op(graph: &Graph, item: u32) -> Op
    requires item { item < item_count graph.now.rollout.problem }
    requires left { settled graph.now.history item < count_of graph.now.rollout item }
    ensures { result ≡ rule.next_op graph.now.history item }
{
    let _ = graph.op_count(item);
    Op {
        item,
        number: graph.settled(item) + 1,
    }
}
