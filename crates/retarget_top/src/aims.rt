//! What the input and the words want: a rollout, and where it is to go.
ghost use Rattle.std.specs.Prelude.{◌≡◌, ◌<◌, length, IfOk, Ok, bytes_eq};
ghost use Rattle.retarget_plan.specs.Aiming.{MayAim};
ghost use Rattle.target_json.specs.Grammar.{target_in};
ghost use Rattle.text_commands.specs.Answers.{rollout_in};
ghost use Rattle.retarget_top.specs.Aims as aims;
ghost use Rattle.retarget_top.specs.Aims.{GivesAim, WantsBy, aim_in, link_name};

use crate::ending::{RetargetEnding, Wanted};
use lists::{Memory, Text};
use retarget_plan::Aim;
use std::alloc::Global;
use target_json::read_target;
use text_commands::{CommandEnd, rollout_of};
use wan_edge::Nums8;
use wan_model::{CheckedPlan, Problem};

/// The rollout of a document, and where it is to go: to the document's target, or where a link is named to give
/// up what crosses that.
pub(crate) fn wanted_of(alloc: Global, shed: &str, input: Nums8) -> Result<Wanted, RetargetEnding>
    ensures { WantsBy shed.now input result }
{
    match copied(alloc, &input) {
        Ok(again) => wanted_with(alloc, shed, input, again),
        Err(_) => {
            drop(input);
            Err(RetargetEnding::Ended(CommandEnd::OutOfMemory))
        }
    }
}

// The same bytes.
fn copied(alloc: Global, input: &Nums8) -> Result<Nums8, Memory>
    ensures { IfOk result (λ again. again ≡ input.now) }
{
    let mut again = Nums8::new(alloc);
    again.extend_from_slice(input.as_slice())?;
    Ok(again)
}

// The same with the bytes once more, since reading the document takes them.
fn wanted_with(
    alloc: Global,
    shed: &str,
    input: Nums8,
    again: Nums8,
) -> Result<Wanted, RetargetEnding>
    requires { again ≡ input }
    ensures { WantsBy shed.now input result }
{
    match rollout_of(alloc, input) {
        Ok(plan) => aimed_at(alloc, shed, plan, again),
        Err(ending) => {
            drop(again);
            Err(RetargetEnding::Ended(ending))
        }
    }
}

// A rollout with its aim.
fn aimed_at(
    alloc: Global,
    shed: &str,
    plan: CheckedPlan,
    input: Nums8,
) -> Result<Wanted, RetargetEnding>
    requires { rollout_in input ≡ Ok plan }
    ensures { WantsBy shed.now input result }
{
    match aim_of(alloc, shed, input.as_slice(), plan.problem()) {
        Ok(aim) => Ok(Wanted { plan, aim }),
        Err(ending) => {
            drop(plan);
            Err(ending)
        }
    }
}

fn aim_of(alloc: Global, shed: &str, input: &[u8], problem: &Problem) -> Result<Aim, RetargetEnding>
    ensures aim { GivesAim result (aim_in shed.now problem.now input.now) }
    ensures may { IfOk result MayAim }
{
    if shed.is_empty() {
        return toward(alloc, input, problem);
    }
    match link_named(alloc, problem, shed) {
        Ok(Some(link)) => Ok(Aim::Shed(link)),
        Ok(None) => Err(RetargetEnding::NoLink),
        Err(_) => Err(RetargetEnding::Ended(CommandEnd::OutOfMemory)),
    }
}

fn toward(alloc: Global, input: &[u8], problem: &Problem) -> Result<Aim, RetargetEnding>
    ensures aim { GivesAim result (aims.toward (target_in problem.now input.now)) }
    ensures may { IfOk result MayAim }
{
    match read_target(alloc, input, problem) {
        Ok(target) => Ok(Aim::Toward(target)),
        Err(fault) => Err(RetargetEnding::from(fault)),
    }
}

/// The link whose name this is.
fn link_named(alloc: Global, problem: &Problem, name: &str) -> Result<Option<u32>, Memory>
    ensures { IfOk result (λ link. link ≡ aims.link_named problem.now name.now) }
{
    for link in 0..problem.links().len() {
        let found = is_named(alloc, problem, link, name)?;
        if found {
            return Ok(Some(link as u32));
        }
    }
    Ok(None)
}

fn is_named(alloc: Global, problem: &Problem, link: usize, name: &str) -> Result<bool, Memory>
    requires { link < length problem.now.links }
    ensures { IfOk result (λ is. is ≡ bytes_eq (link_name problem.now link) name.now) }
{
    let row = &problem.links()[link];
    let mut text = Text::new(alloc);
    text.push_str(problem.switch_name(row.from as usize))?;
    text.push_str(">")?;
    text.push_str(problem.switch_name(row.to as usize))?;
    Ok(is_same(text.as_str(), name))
}

fn is_same(name: &str, other: &str) -> bool
    ensures { result ≡ bytes_eq name.now other.now }
{
    name == other
}
