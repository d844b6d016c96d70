//! How far a rollout is levelled before it goes back, which is known before anything runs.
ghost use Rattle.std.specs.Prelude.{◌≡◌, ◌≤◌, IfOk, IsTrue};
ghost use Rattle.rollout_rules.specs.Wan.{last_stage};
ghost use Rattle.rollout_rules.specs.Legal.{is_legal};
ghost use Rattle.rollback_service.specs.Levellings.{TurnsFrom, start_of};

use crate::origin::BackFrom;
use dependency_graph::Graph;
use lists::{Ids, Memory};
use rollback_plan::{ceiling, turn_stage, turn_start};
use std::alloc::Global;

/// At which stage a rollout is levelled, and with how many operations settled of each item its way back
/// begins then.
#[derive(Drop)]
pub(crate) struct Turn {
    pub(crate) stage: u32,
    pub(crate) start: Ids,
}

/// The turn of a rollout from where it stands: what is in flight ends, and nothing else is begun but what leads
/// up to the stage, so where that comes to follows from what was begun.
pub(crate) fn turn_of(alloc: Global, graph: &Graph, origin: BackFrom) -> Result<Turn, Memory>
    requires { IsTrue (is_legal graph.now.rollout.problem graph.now.rollout.plan
        graph.now.history) }
    ensures stage { IfOk result
        (λ turn. TurnsFrom origin graph.now.rollout graph.now.history turn.stage) }
    ensures start { IfOk result
        (λ turn. turn.start ≡ start_of graph.now.rollout graph.now.history turn.stage) }
{
    let stage = stage_from(alloc, graph, origin)?;
    let start = turn_start(alloc, graph, stage)?;
    Ok(Turn { stage, start })
}

fn stage_from(alloc: Global, graph: &Graph, origin: BackFrom) -> Result<u32, Memory>
    requires { IsTrue (is_legal graph.now.rollout.problem graph.now.rollout.plan
        graph.now.history) }
    ensures turns { IfOk result
        (λ stage. TurnsFrom origin graph.now.rollout graph.now.history stage) }
    ensures most { IfOk result (λ stage. stage ≤ last_stage graph.now.rollout.plan) }
{
    match origin {
        BackFrom::Level => Ok(ceiling(graph)),
        BackFrom::Here => turn_stage(alloc, graph),
    }
}
