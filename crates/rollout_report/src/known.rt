//! A plan, and what its journal is known by.
ghost use Rattle.std.specs.Prelude.{◌≡◌, IfOk};
ghost use Rattle.problem_json.specs.Writing.{plan_text, problem_text};
ghost use Rattle.wan_text.specs.Named.{AreNamesOf};
ghost use Rattle.intent_journal.specs.Digests.{digest_bytes};
ghost use Rattle.intent_journal.specs.Openings.{unbegun};
ghost use Rattle.rollout_report.specs.Journals.{digest_for};

use crate::hashed_text::HashedText;
use dependency_graph::Graph;
use intent_journal::Digest;
use lists::Memory;
use problem_json::{push_plan, push_problem};
use std::alloc::{AllocError, Global};
use text_writer::Pieces;
use wan_model::{CheckedPlan, Plan, Problem};
use wan_text::Names;

/// A rollout of which nothing is settled, and what its journal is known by.
#[derive(Drop)]
pub struct KnownPlan {
    pub graph: Graph,
    pub digest: Digest,
}

/// The rollout of a plan, as a migration of this number. Its journal is known by the canonical texts of
/// problem and plan.
pub fn known_plan(alloc: Global, plan: CheckedPlan, migration: u32) -> Result<KnownPlan, Memory>
    ensures graph { IfOk result (λ known. known.graph ≡ unbegun plan) }
    ensures digest { IfOk result (λ known. known.digest ≡ digest_for plan migration) }
{
    let digest = digest_with(alloc, &plan, migration)?;
    match Graph::new(alloc, plan) {
        Ok(graph) => Ok(KnownPlan { graph, digest }),
        Err(plan) => {
            drop(plan);
            Err(AllocError)
        }
    }
}

// The digest of the canonical texts of problem and plan, neither of which is ever in memory as a whole.
#[tactic(auto, unfolding(crate::specs::Journals::digest_for))]
fn digest_with(alloc: Global, plan: &CheckedPlan, migration: u32) -> Result<Digest, Memory>
    ensures { IfOk result (λ digest. digest ≡ digest_for plan.now migration) }
{
    let names = Names::of(alloc, plan.problem())?;
    Ok(Digest {
        bytes: bytes_of(&names, plan.problem(), plan.plan()),
        migration,
    })
}

fn bytes_of(names: &Names, problem: &Problem, plan: &Plan) -> [u8; 32]
    requires { AreNamesOf names.now problem.now }
    ensures { result ≡ digest_bytes (problem_text problem.now) (plan_text plan.now) }
{
    let mut text = HashedText::new();
    push_problem(&mut text, names, problem);
    text.push_str("\n");
    push_plan(&mut text, plan);
    text.finish()
}
