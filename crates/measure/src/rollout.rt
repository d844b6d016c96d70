//! The rollout of a document.
ghost use Rattle.std.specs.Prelude.{◌≡◌, [], IfOk};
ghost use Rattle.rollout_rules.specs.History.{from_nothing};

use anyhow::{Result, bail};
use dependency_graph::Graph;
use intent_journal::{Digest, digest_of};
use plan_check::check_plan;
use problem_json::{read_document, write_plan, write_problem};
use std::alloc::Global;
use wan_model::CheckedPlan;

/// The graph of the document's rollout, at its start.
pub(crate) fn graph(alloc: Global, document: &[u8]) -> Result<Graph>
    ensures empty { IfOk result (λ graph. graph.history ≡ from_nothing graph.rollout.problem []) }
{
    graph_of(alloc, plan(alloc, document)?)
}

/// The graph of the plan, at its start.
pub(crate) fn graph_of(alloc: Global, plan: CheckedPlan) -> Result<Graph>
    ensures empty { IfOk result (λ graph. graph.history ≡ from_nothing graph.rollout.problem []) }
{
    match Graph::new(alloc, plan) {
        Ok(graph) => Ok(graph),
        Err(plan) => {
            drop(plan);
            bail!("memory is short")
        }
    }
}

/// The plan of the document, once it is checked.
pub(crate) fn plan(alloc: Global, document: &[u8]) -> Result<CheckedPlan> {
    let Ok(document) = read_document(alloc, document) else {
        bail!("no document");
    };
    match check_plan(alloc, &document.problem, &document.plan) {
        Ok(()) => Ok(CheckedPlan::seal(document.problem, document.plan)),
        Err(_) => {
            drop(document);
            bail!("no valid plan")
        }
    }
}

/// What a journal knows the rollout by.
pub(crate) fn digest(alloc: Global, plan: &CheckedPlan, migration: u32) -> Result<Digest> {
    let problem = write_problem(alloc, plan.problem())?;
    let stages = write_plan(alloc, plan.plan())?;
    Ok(digest_of(problem.as_str(), stages.as_str(), migration))
}
