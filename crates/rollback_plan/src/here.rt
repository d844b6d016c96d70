//! How far a rollout has to be levelled before it may go back, and where its way back begins then.
ghost use Rattle.std.specs.Prelude.{◌≡◌, ◌-◌, ◌<◌, ◌≤◌, ℕ, Bool, length, Err, IfOk, IsTrue};
ghost use Rattle.rollout_rules.specs.Wan.{last_stage};
ghost use Rattle.rollout_rules.specs.Items.{item_at, item_count};
ghost use Rattle.rollout_rules.specs.Legal.{is_legal};
ghost use Rattle.rollout_rules.specs.Legal as starts;
ghost use Rattle.rollout_rules.specs.Operations as operation;
ghost use Rattle.dependency_graph.specs.FirstFault.{TellsSound};
ghost use Rattle.rollback_plan.specs.Turning as turning;
ghost use Rattle.rollback_plan.specs.Turns.{TurnsFirstAt};
ghost use Rattle.rollback_plan.specs.Turns as turns;

use crate::reaching::ceiling;
use crate::turning::back;
use dependency_graph::{Graph, StartFault, changes_to, checked_plan_is_valid, sound};
use lists::{Ids, Memory};
use std::alloc::{AllocError, Global};
use wan_model::CheckedPlan;

/// The first stage at which a rollout may turn: once all that was begun is settled, and all operations to stages
/// up to that one, its way back may begin with what is left. It is no further than the ceiling, and mostly 0, at
/// which nothing more begins. Time: for each stage up to it the items, each with the plan's stages and what its
/// operations need.
pub fn turn_stage(alloc: Global, graph: &Graph) -> Result<u32, Memory>
    requires { IsTrue (is_legal graph.now.rollout.problem graph.now.rollout.plan
        graph.now.history) }
    ensures { IfOk result
        (λ stage. TurnsFirstAt graph.now.rollout.problem graph.now.rollout.plan graph.now.history
        stage) }
{
    let there = back(alloc, graph.plan())?;
    match first_stage(alloc, graph, &there) {
        Ok(stage) => {
            drop(there);
            Ok(stage)
        }
        Err(refused) => {
            drop(there);
            Err(refused)
        }
    }
}

// The same, with the plan back. At the ceiling it may turn, so nothing is tried there.
fn first_stage(alloc: Global, graph: &Graph, there: &CheckedPlan) -> Result<u32, Memory>
    requires legal { IsTrue (is_legal graph.now.rollout.problem graph.now.rollout.plan
        graph.now.history) }
    requires turned { there.now ≡ turning.back graph.now.rollout }
    ensures { IfOk result
        (λ stage. TurnsFirstAt graph.now.rollout.problem graph.now.rollout.plan graph.now.history
        stage) }
{
    checked_plan_is_valid(graph.plan());
    let most = ceiling(graph);
    for stage in 0..most {
        let may = may_turn(alloc, graph, there, stage)?;
        if may {
            return Ok(stage);
        }
    }
    Ok(most)
}

// Whether it may turn at a stage.
fn may_turn(alloc: Global, graph: &Graph, there: &CheckedPlan, stage: u32) -> Result<bool, Memory>
    requires turned { there.now ≡ turning.back graph.now.rollout }
    requires stage { stage ≤ last_stage graph.now.rollout.plan }
    ensures { IfOk result
        (λ may. may
        ≡ turns.may_turn graph.now.rollout.problem graph.now.rollout.plan graph.now.history
        stage) }
{
    let start = turn_start(alloc, graph, stage)?;
    let may = may_begin_at(alloc, there, start.as_slice())?;
    Ok(may)
}

// Whether a rollout may begin at a start.
fn may_begin_at(alloc: Global, plan: &CheckedPlan, start: &[u32]) -> Result<bool, Memory>
    requires { length start.now ≡ item_count plan.now.problem }
    ensures { IfOk result
        (λ may. may ≡ starts.is_sound plan.now.problem plan.now.plan start.now) }
{
    match sound(alloc, plan, start) {
        Ok(()) => Ok(true),
        Err(fault) => unsound(fault),
    }
}

// No: unless there was no memory to find out.
fn unsound(fault: StartFault) -> Result<bool, Memory>
    ensures { IfOk result
        (λ is. (sound : Bool) → TellsSound {A = ℕ} (Err fault) sound → is ≡ sound) }
{
    match fault {
        StartFault::Above { .. } | StartFault::Need { .. } | StartFault::Room { .. } => Ok(false),
        StartFault::Memory => Err(AllocError),
    }
}

/// The start of the way back of a rollout that is levelled at a stage, whichever: of each item, how many
/// operations are left once all that was begun is settled, and all to stages up to that one. Time: the items,
/// each with the plan's stages.
pub fn turn_start(alloc: Global, graph: &Graph, stage: u32) -> Result<Ids, Memory>
    requires { stage ≤ last_stage graph.now.rollout.plan }
    ensures { IfOk result
        (λ start. start
        ≡ turns.turn_start graph.now.rollout.problem graph.now.rollout.plan graph.now.history
        stage) }
{
    let mut start = Ids::new(alloc);
    for item in 0..graph.item_count() {
        start.push(left_from(graph, item, stage))?;
    }
    Ok(start)
}

// How many operations are left of an item.
fn left_from(graph: &Graph, item: u32, stage: u32) -> u32
    requires item { item < item_count graph.now.rollout.problem }
    requires stage { stage ≤ last_stage graph.now.rollout.plan }
    ensures { result
        ≡ operation.operations graph.now.rollout.problem graph.now.rollout.plan
        (item_at graph.now.rollout.problem item)
        - turns.comes_to graph.now.rollout.problem graph.now.rollout.plan graph.now.history stage
        item }
{
    let settled = comes_to(graph, item, stage);
    graph.op_count(item).saturating_sub(settled)
}

// How many are settled then.
fn comes_to(graph: &Graph, item: u32, stage: u32) -> u32
    requires item { item < item_count graph.now.rollout.problem }
    requires stage { stage ≤ last_stage graph.now.rollout.plan }
    ensures { result
        ≡ turns.comes_to graph.now.rollout.problem graph.now.rollout.plan graph.now.history stage
        item }
{
    let up_to = changes_to(graph.plan(), graph.item(item), stage);
    let begun = graph.begun(item);
    begun.max(up_to)
}
