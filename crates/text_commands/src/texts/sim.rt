ghost use Rattle.std.specs.Prelude.{IfOk};
ghost use Rattle.order_policy.specs.Answers.{rank_by};
ghost use Rattle.sim_run.specs.Rehearsed.{IsSafeRehearsal};
ghost use Rattle.problem_json.specs.GrammarDocuments.{scripted_in};
ghost use Rattle.problem_json.specs.GrammarResults.{Reads};
ghost use Rattle.text_commands.specs.Answers.{answer_in, rehearsed};
ghost use Rattle.text_commands.specs.Runs.{Gives};
ghost use Rattle.text_commands.specs.Safety.{RehearsesSafely};
ghost use Rattle.text_commands.specs.Words.{a_rehearsal};

use crate::command_end::CommandEnd;
use crate::texts::checking::check_document;
use lists::Text;
use order_policy::Policy;
use problem_json::{Document, InputFault, Scripted, read_script};
use rollout_rules::Script;
use sim_run::run_script;
use std::alloc::Global;
use wan_edge::Nums8;

/// The command `sim`: the text of the script that the bytes are, over the valid plan of its document,
/// under a policy.
pub fn sim(alloc: Global, policy: &Policy, input: Nums8) -> Result<Text, CommandEnd>
    ensures gives { Gives result (answer_in (a_rehearsal (rank_by policy.now.answers)) input) }
    ensures safe { IfOk result (λ text. RehearsesSafely (rank_by policy.now.answers) input) }
{
    let Scripted { document, script } = read_input(alloc, input)?;
    rehearse(alloc, document, policy, &script)
}

/// The script that the bytes are, with its document. They are given up as soon as they are read.
fn read_input(alloc: Global, input: Nums8) -> Result<Scripted, InputFault>
    ensures { Reads result (scripted_in input) }
{
    read_script(alloc, input.as_slice())
}

#[tactic(auto, using(crate::proofs::Documents::rehearsing))]
fn rehearse(
    alloc: Global,
    document: Document,
    policy: &Policy,
    script: &Script,
) -> Result<Text, CommandEnd>
    ensures gives { Gives result
        (rehearsed (rank_by policy.now.answers)
        (record { document = document; script = script.now })) }
    ensures safe { IfOk result
        (λ text. IsSafeRehearsal document.problem document.plan (rank_by policy.now.answers)
        script.now) }
{
    let plan = check_document(alloc, document)?;
    Ok(run_script(alloc, plan, policy, script)?)
}
