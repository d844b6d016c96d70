ghost use Rattle.std.specs.Prelude.{IfOk};
ghost use Rattle.order_policy.specs.Answers.{rank_by};
ghost use Rattle.problem_json.specs.WithinLimits.{IsPlanWithin};
ghost use Rattle.text_commands.specs.Answers.{answer_in, drawn_up, told_by};
ghost use Rattle.text_commands.specs.Drawn.{IsReadBack, script_drawn};
ghost use Rattle.text_commands.specs.Runs.{Gives};
ghost use Rattle.text_commands.specs.Safety.{IsDrawnUp, RehearsesTruly};
ghost use Rattle.text_commands.specs.Words.{a_script};

use crate::command_end::CommandEnd;
use crate::texts::checking::{check_document, read_input};
use order_policy::Policy;
use problem_json::{Document, a_plan_that_is_read_is_within};
use sim_run::{DrawnScript, ScriptShape, draw_script};
use std::alloc::Global;
use wan_edge::Nums8;

/// The command `rehearse`: the plan of the valid document that the bytes are, with a script of these numbers that is
/// drawn under a policy. What is written is its document with that, and a line feed.
pub fn rehearse(
    alloc: Global,
    shape: &ScriptShape,
    policy: &Policy,
    input: Nums8,
) -> Result<DrawnScript, CommandEnd>
    ensures gives { Gives (told_by script_drawn result)
        (answer_in (a_script shape.now (rank_by policy.now.answers)) input) }
    ensures safe { IfOk result (λ drawn. IsReadBack drawn
        → RehearsesTruly shape.now (rank_by policy.now.answers) input) }
{
    let document = read_input(alloc, input)?;
    a_plan_that_is_read_is_within();
    drawn_up(alloc, document, shape, policy)
}

#[tactic(auto, using(crate::proofs::Documents::drawing))]
fn drawn_up(
    alloc: Global,
    document: Document,
    shape: &ScriptShape,
    policy: &Policy,
) -> Result<DrawnScript, CommandEnd>
    ensures gives { Gives (told_by script_drawn result)
        (drawn_up shape.now (rank_by policy.now.answers) document) }
    ensures safe { IfOk result (λ drawn. IsReadBack drawn → IsPlanWithin document.plan
        → IsDrawnUp shape.now (rank_by policy.now.answers) document) }
{
    let plan = check_document(alloc, document)?;
    let drawn = draw_script(alloc, plan, policy, shape)?;
    Ok(drawn)
}
