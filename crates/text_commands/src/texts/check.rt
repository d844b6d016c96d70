ghost use Rattle.std.specs.Prelude.{◌≡◌, ◌-◌, ◌==◌, Ok, Some, IfOk, IfSome, IsTrue};
ghost use Rattle.lp_proof.specs.Shown.{shows_least};
ghost use Rattle.problem_json.specs.GrammarLeast.{claimed_in};
ghost use Rattle.problem_json.specs.GrammarResults.{Reads};
ghost use Rattle.text_commands.specs.Answers.{answer_in, claimed_line, is_shown, judged, valid_line, valid_text};
ghost use Rattle.text_commands.specs.Runs.{Gives};
ghost use Rattle.text_commands.specs.Safety.{ChecksValid, HasLeast, IsClaimed};
ghost use Rattle.text_commands.specs.Words.{a_check};

use crate::command_end::CommandEnd;
use crate::texts::checking::check_document;
use dependency_graph::checked_plan_is_valid;
use lists::{Memory, Text};
use lp_proof::{Proof, check_proof, rate_steps};
use problem_json::{Claim, Claimed, InputFault, Part, Place, read_claimed};
use std::alloc::Global;
use wan_edge::Nums8;
use wan_model::{CheckedPlan, Plan};

/// The command `check`: a line that says how many steps the valid plan of the document has, and its
/// scale, and after them `, least` where the document says that fewer rate steps are impossible and shows it.
pub fn check(alloc: Global, input: Nums8) -> Result<Text, CommandEnd>
    ensures gives { Gives result (answer_in a_check input) }
    ensures safe { IfOk result (λ text. ChecksValid input) }
{
    let claimed = read_input(alloc, input)?;
    judge(alloc, claimed)
}

/// The document that the bytes are, with what it says of fewer rate steps. They are given up as soon as they
/// are read.
fn read_input(alloc: Global, input: Nums8) -> Result<Claimed, InputFault>
    ensures { Reads result (claimed_in input) }
{
    read_claimed(alloc, input.as_slice())
}

#[tactic(auto, using(crate::proofs::Claims::judging))]
fn judge(alloc: Global, claimed: Claimed) -> Result<Text, CommandEnd>
    ensures gives { Gives result (judged claimed) }
    ensures claimed { IfOk result (λ text. IsClaimed claimed) }
{
    let Claimed { document, claim } = claimed;
    let plan = check_document(alloc, document)?;
    let line = line_of(alloc, &plan, claim);
    drop(plan);
    line
}

/// The line of a valid plan, of which something may be said.
fn line_of(alloc: Global, plan: &CheckedPlan, claim: Option<Claim>) -> Result<Text, CommandEnd>
    ensures gives { Gives result (claimed_line plan.now claim) }
    ensures least { IfOk result
        (λ text. IfSome claim (λ said. HasLeast plan.now.problem plan.now.plan)) }
{
    match claim {
        Some(claim) => said_line(alloc, plan, &claim),
        None => line_with(alloc, plan, ""),
    }
}

fn said_line(alloc: Global, plan: &CheckedPlan, claim: &Claim) -> Result<Text, CommandEnd>
    ensures gives { Gives result (claimed_line plan.now (Some claim.now)) }
    ensures least { IfOk result (λ text. HasLeast plan.now.problem plan.now.plan) }
{
    let shown = is_shown(alloc, plan, claim)?;
    line_where(alloc, plan, claim, shown)
}

/// The line where what is said is shown; the document is refused where it isn't.
fn line_where(
    alloc: Global,
    plan: &CheckedPlan,
    claim: &Claim,
    shown: bool,
) -> Result<Text, CommandEnd>
    requires { shown ≡ is_shown plan.now claim.now }
    ensures gives { Gives result (claimed_line plan.now (Some claim.now)) }
    ensures least { IfOk result (λ text. HasLeast plan.now.problem plan.now.plan) }
{
    if shown {
        none_has_fewer(plan, claim);
        return line_with(alloc, plan, ", least");
    }
    let place = Place::of(Part::LeastTop);
    Err(CommandEnd::Input(InputFault::BadProof(place)))
}

/// What is shown of a plan holds of every one for its problem.
fn none_has_fewer(plan: &CheckedPlan, claim: &Claim)
    requires { IsTrue (is_shown plan.now claim.now) }
    ensures { HasLeast plan.now.problem plan.now.plan }
{
    let _ = claim.steps;
    checked_plan_is_valid(plan);
}

/// Whether what is said of a plan is shown: one rate step less than it has is impossible, and the proof passes
/// the check.
fn is_shown(alloc: Global, plan: &CheckedPlan, claim: &Claim) -> Result<bool, Memory>
    ensures { IfOk result (λ shown. shown ≡ is_shown plan.now claim.now) }
{
    let q = rate_steps(plan);
    let fits = is_one_less(claim.steps, q);
    if fits {
        return passes(alloc, plan, q, &claim.proof);
    }
    Ok(false)
}

fn passes(alloc: Global, plan: &CheckedPlan, q: u32, proof: &Proof) -> Result<bool, Memory>
    ensures { IfOk result (λ shown. shown ≡ shows_least plan.now.problem q proof.now) }
{
    check_proof(alloc, plan.problem(), q, proof)
}

fn is_one_less(steps: u32, q: u32) -> bool
    ensures { result ≡ (steps == q - 1) }
{
    steps == one_less(q)
}

/// One less, or 0.
pub fn one_less(q: u32) -> u32
    ensures { result ≡ q - 1 }
{
    if q == 0 { 0 } else { q - 1 }
}

/// The line of a valid plan, with a piece after its scale.
fn line_with(alloc: Global, plan: &CheckedPlan, behind: &str) -> Result<Text, CommandEnd>
    ensures { Gives result (Ok (valid_line plan.now.plan behind.now)) }
{
    Ok(text_with(alloc, plan.steps(), scale_of(plan.plan()), behind)?)
}

fn scale_of(plan: &Plan) -> u32
    ensures { result ≡ plan.now.scale }
{
    plan.scale
}

fn text_with(alloc: Global, steps: u32, scale: u32, behind: &str) -> Result<Text, Memory>
    ensures { IfOk result (λ text. text ≡ valid_text steps scale behind.now) }
{
    let mut text = Text::new(alloc);
    let line = format!(in alloc; "valid: steps {steps}, scale {scale}{behind}\n")?;
    text.push_str(&line)?;
    Ok(text)
}
