ghost use Rattle.std.specs.Prelude.{◌≡◌, ◌≤◌, [], vec_capacity};
ghost use Rattle.rollout_rules.specs.Items.{item_count};
ghost use Rattle.order_policy.specs.Answers.{rank_by};
ghost use Rattle.update_scheduler.specs.Benches.{ops_of};
ghost use Rattle.update_scheduler.specs.Tried.{released_by, with_release, IsAllHeld};

use crate::bench::Bench;
use crate::candidate::Candidate;
use crate::offers::offer_each;
use crate::order::put_in_order;
use crate::tries::try_each;
use dependency_graph::Graph;
use order_policy::Policy;
use rollout_rules::Op;

/// Begins what the release rule gives: of the items that wait and aren't held back, by rank and then by
/// item, each one's next operation where it may begin after those begun before it. It takes no memory.
///
/// It begins nothing exactly where the policy holds back each operation that may begin.
pub fn release(graph: &mut Graph, policy: &Policy, bench: &mut Bench)
    requires { bench.old.items ≡ item_count graph.old.rollout.problem }
    ensures graph { graph.new ≡ with_release graph.old (rank_by policy.now.answers) }
    ensures begun { bench.new
        ≡ record bench.old { begun = ops_of (released_by graph.old (rank_by policy.now.answers)) } }
    ensures held { bench.new.begun ≡ [] → IsAllHeld graph.old (rank_by policy.now.answers) }
    ensures none { IsAllHeld graph.old (rank_by policy.now.answers) → bench.new.begun ≡ [] }
{
    release_into(graph, policy, &mut bench.candidates, &mut bench.begun);
}

fn release_into(
    graph: &mut Graph,
    policy: &Policy,
    candidates: &mut Vec<Candidate>,
    begun: &mut Vec<Op>,
)
    requires candidates { item_count graph.old.rollout.problem ≤ vec_capacity candidates.old }
    requires begun { item_count graph.old.rollout.problem ≤ vec_capacity begun.old }
    ensures graph { graph.new ≡ with_release graph.old (rank_by policy.now.answers) }
    ensures begun { begun.new.items ≡ ops_of (released_by graph.old (rank_by policy.now.answers)) }
    ensures candidates { vec_capacity candidates.new ≡ vec_capacity candidates.old }
    ensures capacity { vec_capacity begun.new ≡ vec_capacity begun.old }
{
    candidates.clear();
    begun.clear();
    offer_each(graph, policy, graph.woken(), candidates);
    put_in_order(candidates);
    try_each(graph, candidates.as_slice(), begun);
}
