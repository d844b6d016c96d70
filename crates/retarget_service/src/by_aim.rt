//! The problem of another aim, by a rollout's journal.
ghost use Rattle.std.specs.Prelude.{◌≡◌, []};
ghost use Rattle.rollout_rules.specs.History.{from_nothing};
ghost use Rattle.rollout_report.specs.Journals.{digest_for};
ghost use Rattle.retarget_plan.specs.Aiming.{MayAim};
ghost use Rattle.retarget_service.specs.Aimed.{MakesBy, MakesOf};

use crate::by_journal::{cause_told, refusal};
use crate::unwritten::Unwritten;
use dependency_graph::Graph;
use disk_model::MemoryDisk;
use intent_journal::{Digest, recover};
use retarget_plan::{Aim, aimed};
use rollout_report::{KnownPlan, known_plan};
use std::alloc::Global;
use wan_edge::{Nums8, Turns};
use wan_model::{CheckedPlan, Problem};

/// The problem of an aim from where a rollout stands: its journal, as a migration of this number, is these bytes.
/// They are read over a disk in memory, as they are opened for a rollout, so nothing else is written.
pub fn aimed_by(
    alloc: Global,
    plan: CheckedPlan,
    migration: u32,
    image: Nums8,
    aim: &Aim,
) -> Result<Problem, Unwritten>
    requires { MayAim aim.now }
    ensures { MakesBy plan (digest_for plan migration) image aim.now result }
{
    match known_plan(alloc, plan, migration) {
        Ok(known) => aimed_known(alloc, known, image, aim),
        Err(_) => Err(Unwritten::Memory),
    }
}

// The same of a rollout that is known as this.
fn aimed_known(
    alloc: Global,
    known: KnownPlan,
    image: Nums8,
    aim: &Aim,
) -> Result<Problem, Unwritten>
    requires empty { known.graph.history ≡ from_nothing known.graph.rollout.problem [] }
    requires aim { MayAim aim.now }
    ensures { MakesBy known.graph.rollout known.digest image aim.now result }
{
    let KnownPlan { graph, digest } = known;
    let mut graph = graph;
    let made = aimed_after(alloc, &mut graph, &digest, image, aim);
    drop(graph);
    made
}

// Brings a graph without entries to the journal, and makes the problem from where it stands then.
fn aimed_after(
    alloc: Global,
    graph: &mut Graph,
    digest: &Digest,
    image: Nums8,
    aim: &Aim,
) -> Result<Problem, Unwritten>
    requires empty { graph.old.history ≡ from_nothing graph.old.rollout.problem [] }
    requires aim { MayAim aim.now }
    ensures { MakesBy graph.old.rollout digest.now image aim.now result }
{
    let turns = Turns::new(alloc);
    let disk = MemoryDisk::new(alloc, image, turns);
    match recover(alloc, disk, digest, graph) {
        Ok((journal, list)) => {
            drop(journal);
            drop(list);
            made_of(alloc, graph, aim)
        }
        Err(unopened) => {
            drop(unopened.disk);
            Err(refusal(unopened.cause))
        }
    }
}

// The problem of the aim from where a graph stands.
fn made_of(alloc: Global, graph: &Graph, aim: &Aim) -> Result<Problem, Unwritten>
    requires { MayAim aim.now }
    ensures { MakesOf graph.now.rollout graph.now.history aim.now result }
{
    match aimed(alloc, graph, aim) {
        Ok(problem) => Ok(problem),
        Err(cause) => Err(cause_told(cause)),
    }
}
