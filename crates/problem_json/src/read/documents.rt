ghost use Rattle.json_data.specs.View.{view};
ghost use Rattle.problem_json.specs.GrammarResults.{Reads};
ghost use Rattle.problem_json.specs.GrammarDocuments.{problem_part, plan_part, document_of, scripted_of, document_in, scripted_in};

use super::{problem_of, read_data};
use crate::fault::InputFault;
use crate::key::Key;
use crate::place::{Part, Place};
use crate::read::plans::plan_of;
use crate::read::scripts::script_of;
use crate::read::values::member;
use json_data::{Element, Scratch};
use rollout_rules::Script;
use std::alloc::Global;
use std::marker::Model;
use wan_model::{Plan, Problem};

/// A problem, and a plan that may be meant for it.
#[derive(Debug, Drop)]
pub struct Document {
    pub problem: Problem,
    pub plan: Plan,
}

impl Model for Document {
    ghost use Rattle.problem_json.specs.GrammarDocuments.{DocumentRead};

    ghost Value = { DocumentRead };

    ghost view = { λ d. record { problem = d.problem; plan = d.plan } };

    ghost inverse = { λ d. record { problem = d.problem; plan = d.plan } };
}

/// A document, and what is to happen in its rollout.
#[derive(Debug, Drop)]
pub struct Scripted {
    pub document: Document,
    pub script: Script,
}

impl Model for Scripted {
    ghost use Rattle.problem_json.specs.GrammarDocuments.{ScriptedRead};

    ghost Value = { ScriptedRead };

    ghost view = { λ s. record { document = s.document; script = s.script } };

    ghost inverse = { λ s. record { document = s.document; script = s.script } };
}

/// Reads a document: an object of a `problem` and a `plan`. Whether the plan's lengths and scale fit the
/// problem is not asked here.
///
/// # Errors
///
/// Those of [`read_problem`](crate::read_problem), at the first refused place of the document.
#[tactic(auto, using(crate::proofs::Steps::steps), unfolding(crate::specs::GrammarDocuments::document_in))]
pub fn read_document(alloc: Global, bytes: &[u8]) -> Result<Document, InputFault>
    ensures { Reads result (document_in bytes.now) }
{
    let mut scratch = Scratch::new(alloc);
    let data = read_data(alloc, bytes, &mut scratch)?;
    document_of(alloc, &data.root())
}

/// Reads a document with a `script` in the same object.
///
/// # Errors
///
/// Those of [`read_problem`](crate::read_problem), at the first refused place of the document or of the
/// script, and [`InputFault::BadEvent`].
#[tactic(auto, using(crate::proofs::Steps::steps), unfolding(crate::specs::GrammarDocuments::scripted_in))]
pub fn read_script(alloc: Global, bytes: &[u8]) -> Result<Scripted, InputFault>
    ensures { Reads result (scripted_in bytes.now) }
{
    let mut scratch = Scratch::new(alloc);
    let data = read_data(alloc, bytes, &mut scratch)?;
    scripted_of(alloc, &data.root())
}

#[tactic(auto, using(crate::proofs::Steps::steps), unfolding(crate::specs::GrammarDocuments::document_of))]
pub(super) fn document_of(alloc: Global, value: &Element<'_, '_>) -> Result<Document, InputFault>
    ensures { Reads result (document_of (view value.now)) }
{
    let problem = problem_part(alloc, value)?;
    match plan_part(alloc, value) {
        Ok(plan) => Ok(Document { problem, plan }),
        Err(fault) => {
            drop(problem);
            Err(fault)
        }
    }
}

#[tactic(auto, using(crate::proofs::Steps::steps), unfolding(crate::specs::GrammarDocuments::problem_part))]
fn problem_part(alloc: Global, value: &Element<'_, '_>) -> Result<Problem, InputFault>
    ensures { Reads result (problem_part (view value.now)) }
{
    let problem = member(Place::of(Part::Top), Key::Problem, value)?;
    problem_of(alloc, Place::of(Part::Problem), &problem)
}

#[tactic(auto, using(crate::proofs::Steps::steps), unfolding(crate::specs::GrammarDocuments::plan_part))]
fn plan_part(alloc: Global, value: &Element<'_, '_>) -> Result<Plan, InputFault>
    ensures { Reads result (plan_part (view value.now)) }
{
    plan_of(alloc, &member(Place::of(Part::Top), Key::Plan, value)?)
}

#[tactic(auto, using(crate::proofs::Steps::steps), unfolding(crate::specs::GrammarDocuments::scripted_of))]
fn scripted_of(alloc: Global, value: &Element<'_, '_>) -> Result<Scripted, InputFault>
    ensures { Reads result (scripted_of (view value.now)) }
{
    let document = document_of(alloc, value)?;
    match script_of(alloc, value) {
        Ok(script) => Ok(Scripted { document, script }),
        Err(fault) => {
            drop(document);
            Err(fault)
        }
    }
}
