ghost use Rattle.std.specs.Prelude.{◌≡◌, IfOk};
ghost use Rattle.problem_json.specs.GrammarDocuments.{document_in};
ghost use Rattle.problem_json.specs.GrammarResults.{Reads};
ghost use Rattle.text_commands.specs.Answers.{checked, rollout_in};
ghost use Rattle.text_commands.specs.Runs.{Gives};
ghost use Rattle.text_commands.specs.Safety.{IsSealed};

use crate::command_end::CommandEnd;
use plan_check::{PlanFault, check_plan};
use problem_json::{Document, InputFault, read_document};
use std::alloc::Global;
use wan_edge::Nums8;
use wan_model::CheckedPlan;

/// The valid plan of the document that the bytes are, with its problem.
pub fn rollout_of(alloc: Global, input: Nums8) -> Result<CheckedPlan, CommandEnd>
    ensures { Gives result (rollout_in input) }
{
    let document = read_input(alloc, input)?;
    check_document(alloc, document)
}

/// The document that the bytes are. They are given up as soon as they are read.
pub fn read_input(alloc: Global, input: Nums8) -> Result<Document, InputFault>
    ensures { Reads result (document_in input) }
{
    read_document(alloc, input.as_slice())
}

/// The plan of a document with its problem, where it breaks no clause.
#[tactic(auto, using(crate::proofs::Documents::checking))]
pub fn check_document(alloc: Global, document: Document) -> Result<CheckedPlan, CommandEnd>
    ensures gives { Gives result (checked document) }
    ensures sealed { IfOk result (λ rollout. IsSealed document rollout) }
{
    match check_plan(alloc, &document.problem, &document.plan) {
        Ok(()) => Ok(CheckedPlan::seal(document.problem, document.plan)),
        Err(PlanFault::Broken(broken)) => Err(CommandEnd::NotValid(document.problem, broken)),
        Err(PlanFault::Memory) => Err(CommandEnd::OutOfMemory),
    }
}
