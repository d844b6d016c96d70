ghost use Rattle.std.specs.Prelude.{◌≡◌, ◌+◌, ◌<◌, ◌≤◌, [], ◌∷◌, ◌++◌, length, All, IsTrue, vec_len, vec_capacity};
ghost use Rattle.rollout_rules.specs.Items.{item_count};
ghost use Rattle.rollout_rules.specs.History.{flies};
ghost use Rattle.rollout_rules.specs.Release.{next_op};
ghost use Rattle.rollout_rules.specs.declared.op.Entry.TheVariants.{Done};
ghost use Rattle.dependency_graph.specs.Graph.{with_done};
ghost use Rattle.update_scheduler.specs.Endings.{with_told, ended, with_ended, CanEnd};

use crate::ack_set::AckSet;
use dependency_graph::Graph;
use rollout_rules::{Entry, Op};

/// Notes the item of an answer that covers the operation in flight; once, however many do.
pub(crate) fn note(graph: &Graph, noted: &mut AckSet, answer: Op)
    requires item { answer.item < item_count graph.now.rollout.problem }
    requires fits { noted.old.items ≡ item_count graph.now.rollout.problem }
    ensures { noted.new
        ≡ record noted.old { row = with_told graph.now.history noted.old.row answer } }
{
    let Op { item, number } = answer;
    if graph.flying(item) && graph.settled(item) < number && !noted.has(item) {
        noted.add(item);
    }
}

/// Settles the operation in flight of each of these items, and adds its Done to the batch.
pub(crate) fn settle_each(graph: &mut Graph, items: &[u32], batch: &mut Vec<Entry>)
    requires items { All (λ n. n < item_count graph.old.rollout.problem) items.now }
    requires flying { CanEnd graph.old.history items.now }
    requires room { vec_len batch.old + length items.now ≤ vec_capacity batch.old }
    ensures graph { graph.new ≡ with_ended graph.old items.now }
    ensures batch { batch.new.items ≡ batch.old.items ++ ended graph.old.history items.now }
    ensures capacity { vec_capacity batch.new ≡ vec_capacity batch.old }
{
    for item in items {
        settle(graph, *item, batch);
    }
}

fn settle(graph: &mut Graph, item: u32, batch: &mut Vec<Entry>)
    requires item { item < item_count graph.old.rollout.problem }
    requires flying { IsTrue (flies graph.old.history item) }
    requires room { vec_len batch.old < vec_capacity batch.old }
    ensures graph { graph.new ≡ with_done graph.old item }
    ensures batch { batch.new.items
        ≡ batch.old.items ++ Done (next_op graph.old.history item) ∷ [] }
    ensures capacity { vec_capacity batch.new ≡ vec_capacity batch.old }
{
    graph.done(item);
    let number = graph.settled(item);
    batch.push_reserved(Entry::Done(Op { item, number }));
}
