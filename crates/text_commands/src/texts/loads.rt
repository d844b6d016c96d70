ghost use Rattle.std.specs.Prelude.{IfOk};
ghost use Rattle.text_commands.specs.Answers.{answer_in, loaded, loads_of, told_by};
ghost use Rattle.text_commands.specs.Runs.{Gives};
ghost use Rattle.text_commands.specs.Safety.{IsLoaded, LoadsSafely};
ghost use Rattle.text_commands.specs.Words.{the_loads};

use crate::command_end::CommandEnd;
use crate::texts::checking::{check_document, read_input};
use plan_texts::laws::a_step_holds_both_of_its_ends;
use problem_json::Document;
use std::alloc::Global;
use wan_edge::Nums8;
use wan_model::CheckedPlan;

/// The command `loads`: the valid plan of the document, of which is written how much of each link and each table it
/// takes at each stage, and at most in each step, and the fullest link.
pub fn loads(alloc: Global, input: Nums8) -> Result<CheckedPlan, CommandEnd>
    ensures gives { Gives (told_by loads_of result) (answer_in the_loads input) }
    ensures safe { IfOk result (λ rollout. LoadsSafely input) }
{
    let document = read_input(alloc, input)?;
    loaded_of(alloc, document)
}

#[tactic(auto, using(crate::proofs::Documents::loading))]
fn loaded_of(alloc: Global, document: Document) -> Result<CheckedPlan, CommandEnd>
    ensures gives { Gives (told_by loads_of result) (loaded document) }
    ensures safe { IfOk result (λ rollout. IsLoaded document.problem document.plan) }
{
    let plan = check_document(alloc, document)?;
    a_step_holds_both_of_its_ends(&plan);
    Ok(plan)
}
