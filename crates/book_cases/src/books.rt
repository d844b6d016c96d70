//! The books of small rollouts.
ghost use Rattle.std.specs.Prelude.{◌≡◌, [], IfOk};
ghost use Rattle.rollout_rules.specs.History.{from_nothing};

use dependency_graph::Graph;
use disk_model::Disk;
use fixtures::plan_of_document;
use intent_journal::{Digest, digest_of};
use lists::Memory;
use rollout_book::Book;
use std::alloc::Global;
use std::test::Fail;
use wire_frames::{Answer, Command};

/// One flow moves 3 of its 4 to a second path in one step.
pub fn one() -> &'static str {
    "{\"plan\":{\"scale\":1,\"stages\":[{\"installed\":[true,true],\"rates\":[4,0]},{\"installed\":[true,true],\"rates\":[1,3]}]},\"problem\":{\"flows\":[{\"name\":\"f\",\"tunnels\":[{\"new\":1,\"old\":4,\"path\":[\"A\",\"B\"]},{\"new\":3,\"old\":0,\"path\":[\"A\",\"C\",\"B\"]}]}],\"links\":[{\"capacity\":10,\"from\":\"A\",\"to\":\"B\"},{\"capacity\":10,\"from\":\"A\",\"to\":\"C\"},{\"capacity\":10,\"from\":\"C\",\"to\":\"B\"}],\"switches\":[{\"name\":\"A\",\"table\":8},{\"name\":\"B\",\"table\":8},{\"name\":\"C\",\"table\":8}]}}"
}

/// A flow takes a link for a while, and a second one moves there once the first is stages ahead.
pub fn late() -> &'static str {
    "{\"plan\":{\"scale\":1,\"stages\":[{\"installed\":[true,true,true,true,true],\"rates\":[2,0,0,2,0]},{\"installed\":[true,true,true,true,true],\"rates\":[0,0,2,2,0]},{\"installed\":[true,true,true,true,true],\"rates\":[0,2,0,2,0]},{\"installed\":[true,true,true,true,true],\"rates\":[0,0,2,2,0]},{\"installed\":[true,true,true,true,true],\"rates\":[0,0,2,0,2]}]},\"problem\":{\"flows\":[{\"name\":\"f\",\"tunnels\":[{\"new\":0,\"old\":2,\"path\":[\"A\",\"P\",\"B\"]},{\"new\":0,\"old\":0,\"path\":[\"A\",\"L\",\"B\"]},{\"new\":2,\"old\":0,\"path\":[\"A\",\"M\",\"B\"]}]},{\"name\":\"g\",\"tunnels\":[{\"new\":0,\"old\":2,\"path\":[\"A\",\"N\",\"B\"]},{\"new\":2,\"old\":0,\"path\":[\"A\",\"L\",\"B\"]}]}],\"links\":[{\"capacity\":2,\"from\":\"A\",\"to\":\"P\"},{\"capacity\":2,\"from\":\"P\",\"to\":\"B\"},{\"capacity\":2,\"from\":\"A\",\"to\":\"L\"},{\"capacity\":2,\"from\":\"L\",\"to\":\"B\"},{\"capacity\":2,\"from\":\"A\",\"to\":\"M\"},{\"capacity\":2,\"from\":\"M\",\"to\":\"B\"},{\"capacity\":2,\"from\":\"A\",\"to\":\"N\"},{\"capacity\":2,\"from\":\"N\",\"to\":\"B\"}],\"switches\":[{\"name\":\"A\",\"table\":8},{\"name\":\"B\",\"table\":8},{\"name\":\"P\",\"table\":8},{\"name\":\"L\",\"table\":8},{\"name\":\"M\",\"table\":8},{\"name\":\"N\",\"table\":8}]}}"
}

/// Two tables are full, so that a tunnel goes before another one comes.
pub fn tables() -> &'static str {
    "{\"plan\":{\"scale\":1,\"stages\":[{\"installed\":[true,true,false],\"rates\":[4,0,0]},{\"installed\":[true,false,false],\"rates\":[4,0,0]},{\"installed\":[true,false,true],\"rates\":[4,0,0]},{\"installed\":[true,false,true],\"rates\":[2,0,2]}]},\"problem\":{\"flows\":[{\"name\":\"f\",\"tunnels\":[{\"new\":2,\"old\":4,\"path\":[\"A\",\"X\",\"B\"]},{\"new\":null,\"old\":0,\"path\":[\"A\",\"Y\",\"B\"]},{\"new\":2,\"old\":null,\"path\":[\"A\",\"Z\",\"B\"]}]}],\"links\":[{\"capacity\":10,\"from\":\"A\",\"to\":\"X\"},{\"capacity\":10,\"from\":\"X\",\"to\":\"B\"},{\"capacity\":10,\"from\":\"A\",\"to\":\"Y\"},{\"capacity\":10,\"from\":\"Y\",\"to\":\"B\"},{\"capacity\":10,\"from\":\"A\",\"to\":\"Z\"},{\"capacity\":10,\"from\":\"Z\",\"to\":\"B\"}],\"switches\":[{\"name\":\"A\",\"table\":2},{\"name\":\"B\",\"table\":2},{\"name\":\"X\",\"table\":8},{\"name\":\"Y\",\"table\":8},{\"name\":\"Z\",\"table\":8}]}}"
}

/// The switches of these networks, and more.
pub const SWITCHES: [u32; 8] = [0, 1, 2, 3, 4, 5, 6, 7];

/// How many calls a disk without a byte has until a book is open on it.
pub const CALLS_TO_OPEN: u64 = 9;

/// The graph of a rollout, at its start.
pub fn graph_of(alloc: Global, text: &str) -> Result<Graph, Fail>
    ensures { IfOk result (λ graph. graph.history ≡ from_nothing graph.rollout.problem []) }
{
    match Graph::new(alloc, plan_of_document(alloc, text)?) {
        Ok(graph) => Ok(graph),
        Err(plan) => {
            drop(plan);
            Err(Fail::new("memory is short"))
        }
    }
}

/// What each of these journals is known by.
pub fn digest() -> Digest {
    digest_of("one", "planned", 0)
}

/// Takes a book apart, and gives its disk. What the graph kept beside its plan goes in the graph's own crate.
pub fn disk_behind<D: Disk>(book: Book<'_, D>) -> D {
    let (graph, disk) = book.into_parts();
    drop(graph.into_plan());
    disk
}

/// The answers of switches that have carried these commands out.
pub fn answers_to(alloc: Global, commands: &[Command]) -> Result<Vec<Answer>, Memory> {
    let mut answers = Vec::new(alloc);
    for command in commands {
        answers.push(Answer {
            item: command.item,
            held: command.number,
        })?;
    }
    Ok(answers)
}
