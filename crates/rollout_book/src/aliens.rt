ghost use Rattle.std.specs.Prelude.{◌≡◌, ◌<◌, IsTrue};
ghost use Rattle.rollout_rules.specs.History as history;
ghost use Rattle.rollout_rules.specs.Items.{item_count};
ghost use Rattle.rollout_rules.specs.Legal.{is_legal};
ghost use Rattle.rollout_book.specs.Aliens as aliens;

use crate::fault::BookFault;
use dependency_graph::Graph;
use wire_frames::Answer;

/// What is said of the first answer that is alien: of an item that doesn't exist, or above what was begun.
/// Time: the answers.
pub(crate) fn first_alien(graph: &Graph, answers: &[Answer]) -> Option<BookFault>
    requires legal { IsTrue (is_legal graph.now.rollout.problem graph.now.rollout.plan
        graph.now.history) }
    ensures { result ≡ aliens.first_alien graph.now answers.now }
{
    let items = graph.item_count();
    for answer in answers {
        if let Some(fault) = alien_fault(graph, items, answer) {
            return Some(fault);
        }
    }
    None
}

fn alien_fault(graph: &Graph, items: u32, answer: &Answer) -> Option<BookFault>
    requires legal { IsTrue (is_legal graph.now.rollout.problem graph.now.rollout.plan
        graph.now.history) }
    requires items { items ≡ item_count graph.now.rollout.problem }
    ensures { result ≡ aliens.fault_of graph.now answer.now }
{
    let begun = if answer.item < items {
        count_begun(graph, answer.item)
    } else {
        0
    };
    if answer.item < items && answer.held <= begun {
        return None;
    }
    Some(BookFault::Alien {
        item: answer.item,
        held: answer.held,
        begun,
    })
}

// How many operations of an item were begun.
fn count_begun(graph: &Graph, item: u32) -> u32
    requires legal { IsTrue (is_legal graph.now.rollout.problem graph.now.rollout.plan
        graph.now.history) }
    requires item { item < item_count graph.now.rollout.problem }
    ensures { result ≡ history.begun graph.now.history item }
{
    let _ = graph.op_count(item);
    if graph.flying(item) {
        graph.settled(item) + 1
    } else {
        graph.settled(item)
    }
}
