ghost use Rattle.std.specs.Prelude.{IfOk};
ghost use Rattle.text_commands.specs.Answers.{answer_in, explained, explanation_of, told_by};
ghost use Rattle.text_commands.specs.Runs.{Gives};
ghost use Rattle.text_commands.specs.Safety.{ExplainsTruly, IsExplained};
ghost use Rattle.text_commands.specs.Words.{the_explanation};

use crate::command_end::CommandEnd;
use crate::texts::checking::{check_document, read_input};
use plan_texts::laws::each_next_operation_is_told;
use problem_json::Document;
use std::alloc::Global;
use wan_edge::Nums8;
use wan_model::CheckedPlan;

/// The command `explain`: the valid plan of the document, of which are written the items by their numbers, and of each
/// one its operations, with what they bring and need.
pub fn explain(alloc: Global, input: Nums8) -> Result<CheckedPlan, CommandEnd>
    ensures gives { Gives (told_by explanation_of result) (answer_in the_explanation input) }
    ensures safe { IfOk result (λ rollout. ExplainsTruly input) }
{
    let document = read_input(alloc, input)?;
    explain_plan(alloc, document)
}

#[tactic(auto, using(crate::proofs::Documents::explaining))]
fn explain_plan(alloc: Global, document: Document) -> Result<CheckedPlan, CommandEnd>
    ensures gives { Gives (told_by explanation_of result) (explained document) }
    ensures safe { IfOk result (λ rollout. IsExplained document.problem document.plan) }
{
    let plan = check_document(alloc, document)?;
    each_next_operation_is_told();
    Ok(plan)
}
