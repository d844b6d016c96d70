ghost use Rattle.std.specs.Prelude.{◌≡◌, ◌*◌, ◌≤◌, [], vec_capacity, IfErr, IfOk, IsTrue};
ghost use Rattle.rollout_rules.specs.History.{from_nothing};
ghost use Rattle.rollout_rules.specs.Items.{item_count};
ghost use Rattle.rollout_rules.specs.Legal.{is_legal};
ghost use Rattle.dependency_graph.specs.Graph.{op_total};
ghost use Rattle.dependency_graph.specs.Index.{AreItems};
ghost use Rattle.intent_journal.specs.Openings.{IsLeft, IsOpenedFrom};
ghost use Rattle.update_scheduler.specs.Rounds.{first_turn};
ghost use Rattle.rollout_book.specs.JournaledRounds.{IsFound};

use dependency_graph::{Graph, items};
use disk_model::Disk;
use intent_journal::{Digest, Journal, Unopened, recover};
use lists::{Many, Memory};
use rollout_rules::{Entry, EntryList, Item};
use std::alloc::{AllocError, Global};
use update_scheduler::Rounds;

/// The journal that an opening found, and its list.
#[derive(Drop)]
pub(crate) struct Found<D: Disk> {
    pub journal: Journal<D>,
    pub list: EntryList,
}

/// Recovers the journal, and brings the graph to its start and its list.
pub(crate) fn find<D: Disk>(
    alloc: Global,
    graph: &mut Graph,
    digest: &Digest,
    disk: D,
) -> Result<Found<D>, Unopened<D>>
    requires empty { graph.old.history ≡ from_nothing graph.old.rollout.problem [] }
    ensures opened { IfOk result
        (λ found. IsOpenedFrom D.told graph.old.rollout digest.now disk graph.new found.list
        found.journal.disk) }
    ensures found { IfOk result (λ found. IsFound D.told graph.new found.journal found.list) }
    ensures left { IfErr result
        (λ unopened. IsLeft D.told graph.old.rollout digest.now disk unopened.cause unopened.disk) }
{
    match recover(alloc, disk, digest, graph) {
        Ok((journal, list)) => Ok(Found { journal, list }),
        Err(unopened) => Err(unopened),
    }
}

/// What a book has besides its journal: the rounds of its graph, all items by number, and its list with room
/// for all that may come.
#[derive(Drop)]
pub(crate) struct Parts {
    pub rounds: Rounds,
    pub items: Many<Item>,
    pub entries: Vec<Entry>,
}

impl Parts {
    /// Those of a graph that was brought to this list.
    pub(crate) fn new(alloc: Global, graph: Graph, list: &[Entry]) -> Result<Parts, Memory>
        ensures rounds { IfOk result (λ parts. parts.rounds ≡ first_turn graph) }
        ensures items { IfOk result
            (λ parts. AreItems graph.rollout.problem (item_count graph.rollout.problem)
            parts.items) }
        ensures list { IfOk result (λ parts. parts.entries.items ≡ list.now) }
        ensures room { IfOk result
            (λ parts. 2 * op_total graph.rollout ≤ vec_capacity parts.entries) }
    {
        match rows_for(alloc, &graph, list) {
            Ok(rows) => with_rounds(alloc, graph, rows),
            Err(refused) => {
                drop(graph);
                Err(refused)
            }
        }
    }
}

// What a book has of a graph that is only read.
#[derive(Drop)]
struct Rows {
    items: Many<Item>,
    entries: Vec<Entry>,
}

fn rows_for(alloc: Global, graph: &Graph, list: &[Entry]) -> Result<Rows, Memory>
    ensures items { IfOk result
        (λ rows. AreItems graph.now.rollout.problem (item_count graph.now.rollout.problem)
        rows.items) }
    ensures list { IfOk result (λ rows. rows.entries.items ≡ list.now) }
    ensures room { IfOk result
        (λ rows. 2 * op_total graph.now.rollout ≤ vec_capacity rows.entries) }
{
    let entries = room_for(alloc, graph, list)?;
    let items = items(alloc, graph.plan())?;
    Ok(Rows { items, entries })
}

fn with_rounds(alloc: Global, graph: Graph, rows: Rows) -> Result<Parts, Memory>
    ensures rounds { IfOk result (λ parts. parts.rounds ≡ first_turn graph) }
    ensures items { IfOk result (λ parts. parts.items ≡ rows.items) }
    ensures entries { IfOk result (λ parts. parts.entries ≡ rows.entries) }
{
    let Rows { items, entries } = rows;
    let rounds = rounds_of(alloc, graph)?;
    Ok(Parts {
        rounds,
        items,
        entries,
    })
}

// A list with room for two entries of each operation.
fn room_for(alloc: Global, graph: &Graph, list: &[Entry]) -> Result<Vec<Entry>, Memory>
    ensures list { IfOk result (λ entries. entries.items ≡ list.now) }
    ensures room { IfOk result (λ entries. 2 * op_total graph.now.rollout ≤ vec_capacity entries) }
{
    let mut entries = Vec::with_capacity(alloc, 2 * graph.op_total() as usize)?;
    entries.extend_from_slice(list)?;
    Ok(entries)
}

fn rounds_of(alloc: Global, graph: Graph) -> Result<Rounds, Memory>
    ensures { IfOk result (λ rounds. rounds ≡ first_turn graph) }
{
    see_legal(&graph);
    match Rounds::new(alloc, graph) {
        Ok(rounds) => Ok(rounds),
        Err(graph) => {
            drop(graph);
            Err(AllocError)
        }
    }
}

// The history of a graph is legal.
fn see_legal(graph: &Graph)
    ensures { IsTrue (is_legal graph.now.rollout.problem graph.now.rollout.plan graph.now.history) }
{
    let _woken = graph.woken();
}
