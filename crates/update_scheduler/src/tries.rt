ghost use Rattle.std.specs.Prelude.{◌≡◌, ◌+◌, ◌<◌, ◌≤◌, [], ◌∷◌, ◌++◌, length, All, vec_len, vec_capacity};
ghost use Rattle.rollout_rules.specs.Items.{item_count};
ghost use Rattle.update_scheduler.specs.Benches.{ops_of};
ghost use Rattle.update_scheduler.specs.Candidates.{items_of};
ghost use Rattle.update_scheduler.specs.Tried.{begun_by, tried};

use crate::candidate::Candidate;
use dependency_graph::Graph;
use rollout_rules::Op;

/// Tries candidates in order, and notes what it begins.
pub(crate) fn try_each(graph: &mut Graph, order: &[Candidate], begun: &mut Vec<Op>)
    requires items { All (λ c. c.item < item_count graph.old.rollout.problem) order.now }
    requires room { vec_len begun.old + length order.now ≤ vec_capacity begun.old }
    ensures graph { graph.new ≡ tried graph.old (items_of order.now) }
    ensures begun { begun.new.items
        ≡ begun.old.items ++ ops_of (begun_by graph.old (items_of order.now)) }
    ensures capacity { vec_capacity begun.new ≡ vec_capacity begun.old }
{
    for candidate in order {
        try_next(graph, candidate.item, begun);
    }
}

/// Begins an item's next operation where it may begin, and notes it.
fn try_next(graph: &mut Graph, item: u32, begun: &mut Vec<Op>)
    requires item { item < item_count graph.old.rollout.problem }
    requires room { vec_len begun.old < vec_capacity begun.old }
    ensures graph { graph.new ≡ tried graph.old (item ∷ []) }
    ensures begun { begun.new.items ≡ begun.old.items ++ ops_of (begun_by graph.old (item ∷ [])) }
    ensures capacity { vec_capacity begun.new ≡ vec_capacity begun.old }
{
    if graph.admits(item) {
        let number = graph.view(item).number;
        graph.begin(item);
        begun.push_reserved(Op { item, number });
    }
}
