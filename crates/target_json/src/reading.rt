//! A target, from the bytes of a document on.
ghost use Rattle.std.specs.Prelude.{IfOk};
ghost use Rattle.json_data.specs.View.{data_of, view};
ghost use Rattle.retarget_plan.specs.Aiming.{AreGiven, AreWithin};
ghost use Rattle.target_json.specs.Results.{Reads, ReadsAs};
ghost use Rattle.target_json.specs.Grammar.{data_in, target_at, target_in, target_of};

use crate::fault::TargetFault;
use crate::key::TargetKey;
use crate::place::{TargetPart, TargetPlace};
use crate::rows::{capacities_of, rates_of};
use crate::values::member;
use json_data::{DataFault, Document, Element, Scratch};
use lists::Many;
use retarget_plan::Target;
use std::alloc::Global;
use wan_model::Problem;

/// Reads the target that stands beside a problem in a document, at the key `target` of the same object.
///
/// # Errors
///
/// [`TargetFault::NotJson`] where the bytes aren't UTF-8 or aren't one JSON value, [`TargetFault::Memory`] where
/// memory runs out, and else the fault of the first place that the grammar refuses.
#[tactic(auto, using(crate::proofs::Steps::steps), unfolding(crate::specs::Grammar::target_in))]
pub fn read_target(alloc: Global, bytes: &[u8], problem: &Problem) -> Result<Target, TargetFault>
    ensures target { Reads result (target_in problem.now bytes.now) }
    ensures capacities { IfOk result (λ target. AreGiven target.capacities) }
    ensures rates { IfOk result (λ target. AreWithin target.new) }
{
    let mut scratch = Scratch::new(alloc);
    let data = read_data(alloc, bytes, &mut scratch)?;
    target_of(alloc, problem, &data.root())
}

#[tactic(auto, using(crate::proofs::Texts::data_read, crate::proofs::Texts::data_refused))]
fn read_data<'a>(
    alloc: Global,
    bytes: &'a [u8],
    scratch: &'a mut Scratch,
) -> Result<Document<'a>, TargetFault>
    ensures { ReadsAs data_of result (data_in bytes.now) }
{
    match Document::read(alloc, bytes, scratch) {
        Ok(data) => Ok(data),
        Err(DataFault::Memory) => Err(TargetFault::Memory),
        Err(DataFault::NotJson) => Err(TargetFault::NotJson),
    }
}

#[tactic(auto, using(crate::proofs::Steps::steps), unfolding(crate::specs::Grammar::target_of))]
fn target_of(
    alloc: Global,
    problem: &Problem,
    value: &Element<'_, '_>,
) -> Result<Target, TargetFault>
    ensures target { Reads result (target_of problem.now (view value.now)) }
    ensures capacities { IfOk result (λ target. AreGiven target.capacities) }
    ensures rates { IfOk result (λ target. AreWithin target.new) }
{
    let object = member(TargetPlace::of(TargetPart::Top), TargetKey::Target, value)?;
    target_at(alloc, problem, &object)
}

#[tactic(auto, using(crate::proofs::Steps::steps), unfolding(crate::specs::Grammar::target_at))]
fn target_at(
    alloc: Global,
    problem: &Problem,
    value: &Element<'_, '_>,
) -> Result<Target, TargetFault>
    ensures target { Reads result (target_at problem.now (view value.now)) }
    ensures capacities { IfOk result (λ target. AreGiven target.capacities) }
    ensures rates { IfOk result (λ target. AreWithin target.new) }
{
    let new = rates_of(alloc, problem, value)?;
    let given = capacities_of(alloc, problem, value)?;
    let mut capacities = Many::new(alloc);
    capacities.extend_from_slice(given.as_slice())?;
    Ok(Target { new, capacities })
}
