ghost use Rattle.std.specs.Prelude.{◌≡◌, ◌+◌, ◌*◌, ◌≤◌, [], ◌++◌, map, length, vec_len, vec_capacity};
ghost use Rattle.rollout_rules.specs.Items.{item_count};
ghost use Rattle.rollout_rules.specs.Release as rule;
ghost use Rattle.rollout_rules.specs.declared.op.Entry.TheVariants.{Begin};
ghost use Rattle.order_policy.specs.Answers.{rank_by};
ghost use Rattle.update_scheduler.specs.Benches.{ops_of};
ghost use Rattle.update_scheduler.specs.Tried.{released_by, with_release};
ghost use Rattle.update_scheduler.specs.Endings.{with_dones};
ghost use Rattle.update_scheduler.specs.Turns.{IsTold, with_batch, begun_in};

use crate::endings::settle_each;
use crate::pending_acks::PendingAcks;
use crate::{Bench, release};
use dependency_graph::Graph;
use order_policy::Policy;
use rollout_rules::{Entry, Op};

/// Makes the batch of a round, and adds it to the history: the Dones by item, and then the release.
pub(crate) fn make_batch(
    graph: &mut Graph,
    policy: &Policy,
    bench: &mut Bench,
    told: &mut PendingAcks,
    batch: &mut Vec<Entry>,
)
    requires bench { bench.old.items ≡ item_count graph.old.rollout.problem }
    requires told { IsTold graph.old told.old }
    requires room { 2 * item_count graph.old.rollout.problem ≤ vec_capacity batch.old }
    ensures graph { graph.new ≡ with_batch graph.old (rank_by policy.now.answers) told.old.answers }
    ensures batch { batch.new.items
        ≡ rule.batch graph.old.rollout.problem graph.old.rollout.plan (rank_by policy.now.answers)
        graph.old.history told.old.answers }
    ensures bench { bench.new
        ≡ record bench.old
        { begun = begun_in graph.old (rank_by policy.now.answers) told.old.answers } }
    ensures told { told.new ≡ record told.old { row = []; answers = [] } }
    ensures capacity { vec_capacity batch.new ≡ vec_capacity batch.old }
{
    batch.clear();
    end_told(graph, told, batch);
    begin_released(graph, policy, bench, batch);
}

/// Settles what was told of, by item, and forgets it.
fn end_told(graph: &mut Graph, told: &mut PendingAcks, batch: &mut Vec<Entry>)
    requires told { IsTold graph.old told.old }
    requires empty { batch.old.items ≡ [] }
    requires room { item_count graph.old.rollout.problem ≤ vec_capacity batch.old }
    ensures graph { graph.new ≡ with_dones graph.old told.old.answers }
    ensures batch { batch.new.items
        ≡ rule.dones graph.old.rollout.problem graph.old.history told.old.answers }
    ensures told { told.new ≡ record told.old { row = []; answers = [] } }
    ensures capacity { vec_capacity batch.new ≡ vec_capacity batch.old }
{
    told.put_in_order();
    settle_each(graph, told.row(), batch);
    told.forget();
}

/// Begins what the release gives.
fn begin_released(graph: &mut Graph, policy: &Policy, bench: &mut Bench, batch: &mut Vec<Entry>)
    requires bench { bench.old.items ≡ item_count graph.old.rollout.problem }
    requires room { vec_len batch.old + item_count graph.old.rollout.problem
        ≤ vec_capacity batch.old }
    ensures graph { graph.new ≡ with_release graph.old (rank_by policy.now.answers) }
    ensures batch { batch.new.items
        ≡ batch.old.items ++ released_by graph.old (rank_by policy.now.answers) }
    ensures bench { bench.new
        ≡ record bench.old { begun = ops_of (released_by graph.old (rank_by policy.now.answers)) } }
    ensures capacity { vec_capacity batch.new ≡ vec_capacity batch.old }
{
    release(graph, policy, bench);
    add_begins(bench.begun(), batch);
}

/// Adds the Begin of each of these operations.
fn add_begins(ops: &[Op], batch: &mut Vec<Entry>)
    requires { vec_len batch.old + length ops.now ≤ vec_capacity batch.old }
    ensures batch { batch.new.items ≡ batch.old.items ++ map (λ op. Begin op) ops.now }
    ensures capacity { vec_capacity batch.new ≡ vec_capacity batch.old }
{
    for op in ops {
        batch.push_reserved(Entry::Begin(*op));
    }
}
