//! What a rollout leaves by its journal.
ghost use Rattle.std.specs.Prelude.{◌≡◌, [], ◌∷◌, ◌++◌, IfOk, Ok};
ghost use Rattle.rollout_rules.specs.History.{from_nothing};
ghost use Rattle.rollout_report.specs.Journals.{digest_for};
ghost use Rattle.problem_json.specs.Grammar.{problem_in};
ghost use Rattle.problem_json.specs.Writing.{problem_text};
ghost use Rattle.retarget_service.specs.Written.{WritesBy, WritesOf, WritesProblem, refusal_of, unleft_of};

use crate::unwritten::Unwritten;
use dependency_graph::Graph;
use disk_model::MemoryDisk;
use intent_journal::{Digest, JournalFault, recover};
use lists::{Memory, Text};
use problem_json::write_problem;
use retarget_plan::{Unleft, left};
use rollout_report::{KnownPlan, known_plan};
use std::alloc::Global;
use wan_edge::{Nums8, Turns};
use wan_model::{CheckedPlan, Problem};

/// The problem that a rollout leaves, as a text with a line feed: its journal, as a migration of this number, is
/// these bytes. They are read over a disk in memory, so nothing else is written.
pub fn left_by(
    alloc: Global,
    plan: CheckedPlan,
    migration: u32,
    image: Nums8,
) -> Result<Text, Unwritten>
    ensures { WritesBy plan (digest_for plan migration) image result }
{
    match known_plan(alloc, plan, migration) {
        Ok(known) => left_known(alloc, known, image),
        Err(_) => Err(Unwritten::Memory),
    }
}

// The same of a rollout that is known as this.
fn left_known(alloc: Global, known: KnownPlan, image: Nums8) -> Result<Text, Unwritten>
    requires { known.graph.history ≡ from_nothing known.graph.rollout.problem [] }
    ensures { WritesBy known.graph.rollout known.digest image result }
{
    let KnownPlan { graph, digest } = known;
    let mut graph = graph;
    let written = follow(alloc, &mut graph, &digest, image);
    drop(graph);
    written
}

// Brings a graph without entries to the journal, and writes what is left then.
fn follow(
    alloc: Global,
    graph: &mut Graph,
    digest: &Digest,
    image: Nums8,
) -> Result<Text, Unwritten>
    requires { graph.old.history ≡ from_nothing graph.old.rollout.problem [] }
    ensures { WritesBy graph.old.rollout digest.now image result }
{
    let turns = Turns::new(alloc);
    let disk = MemoryDisk::new(alloc, image, turns);
    match recover(alloc, disk, digest, graph) {
        Ok((journal, list)) => {
            drop(journal);
            drop(list);
            left_text(alloc, graph)
        }
        Err(unopened) => {
            drop(unopened.disk);
            Err(refusal(unopened.cause))
        }
    }
}

// A disk in memory fails for want of it alone.
pub(crate) fn refusal(cause: JournalFault) -> Unwritten
    ensures { result ≡ refusal_of cause }
{
    match cause {
        JournalFault::Disk | JournalFault::Memory => Unwritten::Memory,
        other => Unwritten::Refused(other),
    }
}

// What a graph's rollout leaves, with a line feed.
fn left_text(alloc: Global, graph: &Graph) -> Result<Text, Unwritten>
    ensures { WritesOf graph.now.rollout graph.now.history result }
{
    match left(alloc, graph) {
        Ok(problem) => write_left(alloc, problem),
        Err(cause) => Err(cause_told(cause)),
    }
}

fn write_left(alloc: Global, problem: Problem) -> Result<Text, Unwritten>
    ensures { WritesProblem problem result }
{
    match text_of(alloc, &problem) {
        Ok(text) => {
            drop(problem);
            Ok(text)
        }
        Err(_) => {
            drop(problem);
            Err(Unwritten::Memory)
        }
    }
}

fn text_of(alloc: Global, problem: &Problem) -> Result<Text, Memory>
    ensures text { IfOk result (λ text. text ≡ problem_text problem.now ++ 10 ∷ []) }
    ensures reads { IfOk result
        (λ text. problem_in (problem_text problem.now) ≡ Ok problem.now) }
{
    let mut text = write_problem(alloc, problem)?;
    text.push_str("\n")?;
    Ok(text)
}

pub(crate) fn cause_told(cause: Unleft) -> Unwritten
    ensures { result ≡ unleft_of cause }
{
    match cause {
        Unleft::Memory => Unwritten::Memory,
        other => Unwritten::Unleft(other),
    }
}
