ghost use Rattle.std.specs.Prelude.{◌≡◌, IfOk, None, Some};
ghost use Rattle.problem_json.specs.WritingLeast.{claim_text};
ghost use Rattle.text_commands.specs.Answered.{drawn_in, text_in};
ghost use Rattle.text_commands.specs.Answers.{explanation_of, loads_of, rollout_text};
ghost use Rattle.text_commands.specs.Drawn.{script_drawn};
ghost use Rattle.text_commands.specs.Ready.{IsReady, drawn_ready, ready_text};
ghost use Rattle.text_commands.specs.Shown.{plan_shown};

use crate::answer::Answer;
use crate::shown::ShownPlan;
use lists::{Memory, Text};
use plan_texts::{LoadRows, Lookup};
use problem_json::claim_piece;
use sim_run::DrawnScript;
use std::alloc::Global;
use wan_model::CheckedPlan;
use wan_text::Names;

/// An answer with all that its text takes memory for.
#[derive(Drop)]
pub(crate) enum Ready {
    Made(Text),
    Document(Names, CheckedPlan),
    Loads(LoadRows, CheckedPlan),
    Explained(Lookup, CheckedPlan),
    Shown(Names, Text, ShownPlan),
    Rehearsed(Names, DrawnScript),
}

/// Makes an answer ready to be written. An Err is want of memory.
pub(crate) fn made_ready(alloc: Global, answer: Answer) -> Result<Ready, Memory>
    ensures text { IfOk result (λ ready. ready_text ready ≡ text_in answer) }
    ensures drawn { IfOk result (λ ready. drawn_ready ready ≡ drawn_in answer) }
    ensures ready { IfOk result (λ ready. IsReady ready) }
{
    match answer {
        Answer::Made(text) => Ok(Ready::Made(text)),
        Answer::Document(plan) => document_ready(alloc, plan),
        Answer::Loads(plan) => loads_ready(alloc, plan),
        Answer::Explained(plan) => explanation_ready(alloc, plan),
        Answer::Shown(shown) => shown_ready(alloc, shown),
        Answer::Rehearsed(drawn) => script_ready(alloc, drawn),
    }
}

fn document_ready(alloc: Global, plan: CheckedPlan) -> Result<Ready, Memory>
    ensures text { IfOk result (λ ready. ready_text ready ≡ rollout_text plan) }
    ensures drawn { IfOk result (λ ready. drawn_ready ready ≡ None) }
    ensures ready { IfOk result (λ ready. IsReady ready) }
{
    match Names::of(alloc, plan.problem()) {
        Ok(names) => Ok(Ready::Document(names, plan)),
        Err(refused) => {
            drop(plan);
            Err(refused)
        }
    }
}

fn loads_ready(alloc: Global, plan: CheckedPlan) -> Result<Ready, Memory>
    ensures text { IfOk result (λ ready. ready_text ready ≡ loads_of plan) }
    ensures drawn { IfOk result (λ ready. drawn_ready ready ≡ None) }
    ensures ready { IfOk result (λ ready. IsReady ready) }
{
    match LoadRows::of(alloc, &plan) {
        Ok(rows) => Ok(Ready::Loads(rows, plan)),
        Err(refused) => {
            drop(plan);
            Err(refused)
        }
    }
}

fn explanation_ready(alloc: Global, plan: CheckedPlan) -> Result<Ready, Memory>
    ensures text { IfOk result (λ ready. ready_text ready ≡ explanation_of plan) }
    ensures drawn { IfOk result (λ ready. drawn_ready ready ≡ None) }
    ensures ready { IfOk result (λ ready. IsReady ready) }
{
    match Lookup::of(alloc, &plan) {
        Ok(lookup) => Ok(Ready::Explained(lookup, plan)),
        Err(refused) => {
            drop(plan);
            Err(refused)
        }
    }
}

fn shown_ready(alloc: Global, shown: ShownPlan) -> Result<Ready, Memory>
    ensures text { IfOk result (λ ready. ready_text ready ≡ plan_shown shown) }
    ensures drawn { IfOk result (λ ready. drawn_ready ready ≡ None) }
    ensures ready { IfOk result (λ ready. IsReady ready) }
{
    match claim_piece(alloc, &shown.claim) {
        Ok(said) => shown_with(alloc, said, shown),
        Err(refused) => {
            drop(shown);
            Err(refused)
        }
    }
}

fn shown_with(alloc: Global, said: Text, shown: ShownPlan) -> Result<Ready, Memory>
    requires { said ≡ claim_text shown.claim }
    ensures text { IfOk result (λ ready. ready_text ready ≡ plan_shown shown) }
    ensures drawn { IfOk result (λ ready. drawn_ready ready ≡ None) }
    ensures ready { IfOk result (λ ready. IsReady ready) }
{
    match Names::of(alloc, shown.plan.problem()) {
        Ok(names) => Ok(Ready::Shown(names, said, shown)),
        Err(refused) => {
            drop(shown);
            Err(refused)
        }
    }
}

fn script_ready(alloc: Global, drawn: DrawnScript) -> Result<Ready, Memory>
    ensures text { IfOk result (λ ready. ready_text ready ≡ script_drawn drawn) }
    ensures drawn { IfOk result (λ ready. drawn_ready ready ≡ Some drawn) }
    ensures ready { IfOk result (λ ready. IsReady ready) }
{
    match Names::of(alloc, drawn.plan.problem()) {
        Ok(names) => Ok(Ready::Rehearsed(names, drawn)),
        Err(refused) => {
            drop(drawn);
            Err(refused)
        }
    }
}
