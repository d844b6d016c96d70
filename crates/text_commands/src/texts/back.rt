ghost use Rattle.std.specs.Prelude.{◌≡◌, ℕ, ◌≤◌, IfOk};
ghost use Rattle.rollout_rules.specs.Wan.{last_stage};
ghost use Rattle.rollback_plan.specs.Turning.{back};
ghost use Rattle.text_commands.specs.Answers.{answer_in, rollout_text, told_by, turned_back};
ghost use Rattle.text_commands.specs.Runs.{Gives};
ghost use Rattle.text_commands.specs.Safety.{IsTurned, IsValid, MayBeginBack, TurnsSafely};
ghost use Rattle.text_commands.specs.Words.{the_way_back};

use crate::command_end::CommandEnd;
use crate::texts::checking::{check_document, read_input};
use crate::texts::plan::every_rollout_is_safe;
use dependency_graph::checked_plan_is_valid;
use lists::Memory;
use problem_json::Document;
use rollback_plan::the_way_back_begins_at_each_stage;
use std::alloc::Global;
use wan_edge::Nums8;
use wan_model::CheckedPlan;

/// The command `back`: the rollout back, to the old split of the valid document that the bytes are. What is written is
/// its document, and a line feed.
pub fn back(alloc: Global, input: Nums8) -> Result<CheckedPlan, CommandEnd>
    ensures gives { Gives (told_by rollout_text result) (answer_in the_way_back input) }
    ensures safe { IfOk result (λ rollout. TurnsSafely input) }
{
    let document = read_input(alloc, input)?;
    turned_back(alloc, document)
}

#[tactic(auto, using(crate::proofs::Documents::turning))]
fn turned_back(alloc: Global, document: Document) -> Result<CheckedPlan, CommandEnd>
    ensures gives { Gives (told_by rollout_text result) (turned_back document) }
    ensures safe { IfOk result (λ rollout. IsTurned document.problem document.plan) }
{
    let plan = check_document(alloc, document)?;
    match way_back(alloc, &plan) {
        Ok(there) => {
            drop(plan);
            Ok(there)
        }
        Err(refused) => {
            drop(plan);
            Err(CommandEnd::from(refused))
        }
    }
}

/// The rollout back.
fn way_back(alloc: Global, plan: &CheckedPlan) -> Result<CheckedPlan, Memory>
    ensures back { IfOk result (λ there. there ≡ back plan.now) }
    ensures turned { IfOk result (λ there. IsTurned plan.now.problem plan.now.plan) }
{
    it_may_begin_at_each_stage(plan);
    let there = rollback_plan::back(alloc, plan)?;
    every_rollout_is_safe(&there);
    Ok(there)
}

/// What the plan's type keeps: it is valid, and each of its stages is a sound start of the way back, with what
/// that stage has.
fn it_may_begin_at_each_stage(plan: &CheckedPlan)
    ensures valid { IsValid plan.now.problem plan.now.plan }
    ensures starts { (s : ℕ)
        → s ≤ last_stage plan.now.plan
        → MayBeginBack plan.now.problem plan.now.plan s }
{
    checked_plan_is_valid(plan);
    the_way_back_begins_at_each_stage();
}
