mod least;
mod pieces;
mod plan;
mod problem;
mod room;
mod round_trip;
mod script;

ghost use Rattle.std.specs.Prelude.{◌≡◌, ◌≤◌, length, IfOk, Ok, Some};
ghost use Rattle.rollout_rules.specs.Network.{IsNetwork};
ghost use Rattle.rollout_rules.specs.declared.limits.TheConstants.{MOST_ACTS};
ghost use Rattle.problem_json.specs.Grammar.{problem_in};
ghost use Rattle.problem_json.specs.GrammarDocuments.{plan_in, document_in, scripted_in};
ghost use Rattle.problem_json.specs.WithinLimits.{IsPlanWithin};
ghost use Rattle.problem_json.specs.Writing.{problem_text, plan_text, document_text, HoldsProblem, IsPlanOfWords};
ghost use Rattle.wan_text.specs.Named.{AreNamesOf};
ghost use Rattle.problem_json.specs.GrammarLeast.{claimed_in};
ghost use Rattle.problem_json.specs.WithinClaims.{IsClaimWithin};
ghost use Rattle.problem_json.specs.WritingLeast.{claim_text, claimed_text};
ghost use Rattle.problem_json.specs.declared.claim.Claim as claim_spec;
ghost use Rattle.problem_json.specs.WritingScripts.{scripted_text, AreActsWithin};

use crate::claim::Claim;
use least::push_claim;
use lists::{Memory, Text};
use pieces::utf8_text;
pub use plan::push_plan;
pub use problem::push_problem;
use rollout_rules::Act;
use room::{plan_bytes, problem_bytes};
pub use round_trip::{
    a_plan_that_is_read_is_within, written_claim_is_read, written_problem_is_read,
};
use script::push_script;
use std::alloc::Global;
use text_writer::{Pieces, WholeText};
use wan_model::{Plan, Problem};
use wan_text::Names;

/// The text of a problem: JSON (RFC 8259) without blanks, the keys of each object in the order of their
/// bytes, and no line feed at the end. A tunnel's rate is null where the tunnel isn't installed. It fails
/// only for lack of memory.
pub fn write_problem(alloc: Global, problem: &Problem) -> Result<Text, Memory>
    ensures text { IfOk result (λ text. text ≡ problem_text problem.now) }
    ensures reads { IfOk result (λ text. problem_in text ≡ Ok problem.now) }
{
    let names = Names::of(alloc, problem)?;
    let mut text = WholeText::with_capacity(alloc, problem_bytes(problem))?;
    push_problem(&mut text, &names, problem);
    Ok(utf8_text(text.finish()?))
}

/// The text of a plan, likewise. Rates are in units of 1/scale.
pub fn write_plan(alloc: Global, plan: &Plan) -> Result<Text, Memory>
    ensures text { IfOk result (λ text. text ≡ plan_text plan.now) }
    ensures reads { IfOk result (λ text. IsPlanWithin plan.now → plan_in text ≡ Ok plan.now) }
{
    let mut text = WholeText::with_capacity(alloc, plan_bytes(plan))?;
    push_plan(&mut text, plan);
    Ok(utf8_text(text.finish()?))
}

/// The text of a problem with a plan for it, likewise.
pub fn write_document(alloc: Global, problem: &Problem, plan: &Plan) -> Result<Text, Memory>
    ensures text { IfOk result (λ text. text ≡ document_text problem.now plan.now) }
    ensures holds { IfOk result (λ text. HoldsProblem text problem.now) }
    ensures reads { IfOk result (λ text. IsPlanWithin plan.now
        → document_in text ≡ Ok (record { problem = problem.now; plan = plan.now })) }
{
    let names = Names::of(alloc, problem)?;
    let bytes = problem_bytes(problem).saturating_add(plan_bytes(plan));
    let mut text = WholeText::with_capacity(alloc, bytes)?;
    push_document(&mut text, &names, problem, plan);
    Ok(utf8_text(text.finish()?))
}

/// Pushes the same text, by the names of the problem. It takes no memory.
pub fn push_document<P: Pieces>(text: &mut P, names: &Names, problem: &Problem, plan: &Plan)
    requires { AreNamesOf names.now problem.now }
    ensures text { P.pushes text.old (document_text problem.now plan.now) text.new }
    ensures network { IsNetwork problem.now }
    ensures words { IsPlanOfWords plan.now }
{
    text.push_str(r#"{"plan":"#);
    push_plan(text, plan);
    text.push_str(r#","problem":"#);
    push_problem(text, names, problem);
    text.push_str("}");
}

/// The text of a problem with a plan for it and what is said of fewer rate steps, likewise: the key `least`
/// stands first. A fraction is a text, reduced, `TOP/BOTTOM`.
pub fn write_claimed(
    alloc: Global,
    problem: &Problem,
    plan: &Plan,
    claim: &Claim,
) -> Result<Text, Memory>
    ensures text { IfOk result (λ text. text ≡ claimed_text problem.now plan.now claim.now) }
    ensures reads { IfOk result (λ text. IsPlanWithin plan.now
        → IsClaimWithin claim.now
        → claimed_in text
        ≡ Ok (record {
          document = record { problem = problem.now; plan = plan.now };
          claim = Some claim.now;
        })) }
{
    let names = Names::of(alloc, problem)?;
    let bytes = problem_bytes(problem).saturating_add(plan_bytes(plan));
    let said = claim_piece(alloc, claim)?;
    let mut text = WholeText::with_capacity(alloc, bytes)?;
    push_claimed(&mut text, &names, problem, plan, said.as_str());
    Ok(utf8_text(text.finish()?))
}

/// What is said of fewer rate steps, as it stands in that text: the memory for its fractions is taken here. An Err is
/// want of it.
pub fn claim_piece(alloc: Global, claim: &Claim) -> Result<Text, Memory>
    ensures { IfOk result (λ said. said ≡ claim_text claim.now) }
{
    let mut text = WholeText::with_capacity(alloc, 0)?;
    push_claim(alloc, &mut text, claim.steps, &claim.proof)?;
    text.finish()
}

/// Pushes the same text, by the names of the problem and the piece of what is said. It takes no memory.
pub fn push_claimed<P: Pieces>(
    text: &mut P,
    names: &Names,
    problem: &Problem,
    plan: &Plan,
    said: &str,
)
    requires { AreNamesOf names.now problem.now }
    ensures text { (claim : claim_spec.Claim)
        → said.now ≡ claim_text claim
        → P.pushes text.old (claimed_text problem.now plan.now claim) text.new }
    ensures network { IsNetwork problem.now }
    ensures words { IsPlanOfWords plan.now }
{
    text.push_str(r#"{"least":"#);
    text.push_str(said);
    text.push_str(r#","plan":"#);
    push_plan(text, plan);
    text.push_str(r#","problem":"#);
    push_problem(text, names, problem);
    text.push_str("}");
}

/// Pushes the text of a problem with a plan for it and a script, likewise: the key `script` stands last, a list of
/// events, each a list of its name and of what the name asks for. It takes no memory.
pub fn push_scripted<P: Pieces>(
    text: &mut P,
    names: &Names,
    problem: &Problem,
    plan: &Plan,
    script: &[Act],
)
    requires { AreNamesOf names.now problem.now }
    ensures text { P.pushes text.old (scripted_text problem.now plan.now script.now) text.new }
    ensures network { IsNetwork problem.now }
    ensures words { IsPlanOfWords plan.now }
    ensures acts { AreActsWithin (length script.now) script.now }
    ensures reads { IsPlanWithin plan.now → length script.now ≤ MOST_ACTS
        → scripted_in (scripted_text problem.now plan.now script.now)
        ≡ Ok (record {
          document = record { problem = problem.now; plan = plan.now };
          script = script.now;
        }) }
{
    text.push_str(r#"{"plan":"#);
    push_plan(text, plan);
    text.push_str(r#","problem":"#);
    push_problem(text, names, problem);
    text.push_str(r#","script":"#);
    push_script(text, script);
    text.push_str("}");
}
