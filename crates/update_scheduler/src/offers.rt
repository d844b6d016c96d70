ghost use Rattle.std.specs.Prelude.{◌≡◌, ℕ, ◌<◌, ◌≤◌, [], ◌++◌, length, slice_index, vec_len, vec_capacity};
ghost use Rattle.rollout_rules.specs.Items.{item_count};
ghost use Rattle.order_policy.specs.Answers.{rank_by};
ghost use Rattle.update_scheduler.specs.Candidates.{candidates_of, rank_of, rank_if_free, offered, offered_among};

use crate::candidate::Candidate;
use dependency_graph::Graph;
use order_policy::Policy;
use rollout_rules::OpView;

/// Those of a row that wait and aren't held back, with their ranks.
pub(crate) fn offer_each(
    graph: &Graph,
    policy: &Policy,
    row: &[u32],
    candidates: &mut Vec<Candidate>,
)
    requires inside { (j : ℕ)
        → j < length row.now
        → slice_index row.now j < item_count graph.now.rollout.problem }
    requires empty { candidates.old.items ≡ [] }
    requires room { length row.now ≤ vec_capacity candidates.old }
    ensures offered { candidates.new.items
        ≡ candidates_of (rank_of graph.now (rank_by policy.now.answers))
        (offered_among graph.now (rank_by policy.now.answers) row.now) }
    ensures few { vec_len candidates.new ≤ length row.now }
    ensures capacity { vec_capacity candidates.new ≡ vec_capacity candidates.old }
{
    for k in 0..row.len() {
        offer(graph, policy, row[k], candidates);
    }
}

/// Adds an item that waits and isn't held back.
fn offer(graph: &Graph, policy: &Policy, item: u32, candidates: &mut Vec<Candidate>)
    requires item { item < item_count graph.now.rollout.problem }
    requires room { vec_len candidates.old < vec_capacity candidates.old }
    ensures offered { candidates.new.items
        ≡ candidates.old.items
        ++ candidates_of (rank_of graph.now (rank_by policy.now.answers))
        (offered graph.now (rank_by policy.now.answers) item) }
    ensures capacity { vec_capacity candidates.new ≡ vec_capacity candidates.old }
{
    if graph.has_next(item) {
        if let Some(rank) = rank_if_free(policy, graph.view(item)) {
            candidates.push_reserved(Candidate { rank, item });
        }
    }
}

/// The rank of an operation; None where the policy holds it back.
fn rank_if_free(policy: &Policy, view: OpView) -> Option<u64>
    ensures { result ≡ rank_if_free (rank_by policy.now.answers) view }
{
    if policy.holds(view) {
        None
    } else {
        Some(policy.rank(view))
    }
}
