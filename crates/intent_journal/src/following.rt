ghost use Rattle.std.specs.Prelude.{◌≡◌, ◌<◌, [], ◌∷◌, length, take, if◌then◌else◌, IfNone, IfSome, IsTrue, MatchOption};
ghost use Rattle.rollout_rules.specs.History.{with_entries};
ghost use Rattle.rollout_rules.specs.Items.{item_count};
ghost use Rattle.rollout_rules.specs.Legal as legal;
ghost use Rattle.rollout_rules.specs.declared.op.Entry.TheVariants as entry;
ghost use Rattle.intent_journal.specs.Verdicts.{legal_count};

use dependency_graph::Graph;
use rollout_rules::{Entry, Op};

/// Brings a graph along entries. The place of the first that may not follow, if there is one; then the
/// graph has followed those before it.
pub(crate) fn follow_all(graph: &mut Graph, entries: &[Entry]) -> Option<usize>
    requires legal { IsTrue (legal.is_legal graph.old.rollout.problem graph.old.rollout.plan
        graph.old.history) }
    ensures place { MatchOption result
        (legal_count graph.old.rollout.problem graph.old.rollout.plan graph.old.history entries.now
        ≡ length entries.now)
        (λ n. (legal_count graph.old.rollout.problem graph.old.rollout.plan graph.old.history
        entries.now
        ≡ n)
        × (n < length entries.now)) }
    ensures all { IfNone result
        (graph.new ≡ record graph.old { history = with_entries graph.old.history entries.now }) }
    ensures stopped { IfSome result
        (λ n. graph.new
        ≡ record graph.old { history = with_entries graph.old.history (take n entries.now) }) }
{
    let items = graph.item_count();
    for place in 0..entries.len() {
        if !follow(graph, items, &entries[place]) {
            return Some(place);
        }
    }
    None
}

// Brings a graph of so many items along an entry, where it may follow.
fn follow(graph: &mut Graph, items: u32, entry: &Entry) -> bool
    requires items { items ≡ item_count graph.old.rollout.problem }
    requires legal { IsTrue (legal.is_legal graph.old.rollout.problem graph.old.rollout.plan
        graph.old.history) }
    ensures may { result
        ≡ legal.may_add graph.old.rollout.problem graph.old.rollout.plan graph.old.history
        entry.now }
    ensures graph { graph.new
        ≡ (if result then record graph.old
        { history = with_entries graph.old.history (entry.now ∷ []) } else graph.old) }
{
    match entry {
        Entry::Begin(op) => begin(graph, items, *op),
        Entry::Done(op) => end(graph, items, *op),
    }
}

fn begin(graph: &mut Graph, items: u32, op: Op) -> bool
    requires items { items ≡ item_count graph.old.rollout.problem }
    ensures may { result
        ≡ legal.may_begin graph.old.rollout.problem graph.old.rollout.plan graph.old.history op }
    ensures graph { graph.new
        ≡ (if result then record graph.old
        { history = with_entries graph.old.history (entry.Begin op ∷ []) } else graph.old) }
{
    if !may_begin(graph, items, op) {
        return false;
    }
    graph.begin(op.item);
    true
}

fn may_begin(graph: &Graph, items: u32, op: Op) -> bool
    requires items { items ≡ item_count graph.now.rollout.problem }
    ensures { result
        ≡ legal.may_begin graph.now.rollout.problem graph.now.rollout.plan graph.now.history op }
{
    if op.item >= items {
        return false;
    }
    if !graph.has_next(op.item) {
        return false;
    }
    if u64::from(op.number) != u64::from(graph.settled(op.item)) + 1 {
        return false;
    }
    if !graph.needs_met(op.item) {
        return false;
    }
    graph.room_for(op.item)
}

fn end(graph: &mut Graph, items: u32, op: Op) -> bool
    requires items { items ≡ item_count graph.old.rollout.problem }
    requires legal { IsTrue (legal.is_legal graph.old.rollout.problem graph.old.rollout.plan
        graph.old.history) }
    ensures may { result ≡ legal.may_end graph.old.history op }
    ensures graph { graph.new
        ≡ (if result then record graph.old
        { history = with_entries graph.old.history (entry.Done op ∷ []) } else graph.old) }
{
    if !may_end(graph, items, op) {
        return false;
    }
    graph.done(op.item);
    true
}

fn may_end(graph: &Graph, items: u32, op: Op) -> bool
    requires items { items ≡ item_count graph.now.rollout.problem }
    requires legal { IsTrue (legal.is_legal graph.now.rollout.problem graph.now.rollout.plan
        graph.now.history) }
    ensures may { result ≡ legal.may_end graph.now.history op }
    ensures item { IsTrue result → op.item < item_count graph.now.rollout.problem }
{
    if op.item >= items {
        return false;
    }
    if !graph.flying(op.item) {
        return false;
    }
    u64::from(op.number) == u64::from(graph.settled(op.item)) + 1
}
