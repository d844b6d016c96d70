ghost use Rattle.std.specs.Prelude.{◌≡◌, ◌+◌, ◌<◌, ◌≤◌, length, OnOk};
ghost use Rattle.serde_json.specs.Events.{items_len};
ghost use Rattle.json_data.specs.View.{view, items_view};
ghost use Rattle.rollout_rules.specs.declared.limits.TheConstants.{MOST_STAGES, MOST_TUNNELS};
ghost use Rattle.problem_json.specs.GrammarResults.{Reads, Leaves, add_each};
ghost use Rattle.problem_json.specs.GrammarPlans.{with_one_mark, marks_of, with_one_rate, rates_of, stage_of, with_one_stage, plan_of};

use crate::fault::InputFault;
use crate::key::Key;
use crate::place::{Part, Place};
use crate::read::values::{list_of, number, number_of};
use json_data::{Element, Elements};
use lists::{Marks, Nums};
use rollout_rules::{LARGEST_PLAN_RATE, LARGEST_SCALE, MOST_STAGES, MOST_TUNNELS};
use std::alloc::Global;
use wan_model::{Plan, Stage};

/// The plan that an object is.
#[tactic(auto, using(crate::proofs::Steps::steps), unfolding(crate::specs::GrammarPlans::plan_of))]
pub(super) fn plan_of(alloc: Global, value: &Element<'_, '_>) -> Result<Plan, InputFault>
    ensures { Reads result (plan_of (view value.now)) }
{
    let object = Place::of(Part::PlanTop);
    let scaled = Place::of(Part::Scale);
    let staged = Place::of(Part::Stages);
    let scale = number_of(object, Key::Scale, scaled, u64::from(LARGEST_SCALE), value)?;
    let stages = list_of(object, Key::Stages, staged, MOST_STAGES, value)?;
    let mut plan = Plan::new(alloc, scale as u32);
    add_stages(alloc, &mut plan, stages)?;
    Ok(plan)
}

#[tactic(auto, using(crate::proofs::Steps::steps))]
fn add_stages(alloc: Global, plan: &mut Plan, stages: Elements<'_, '_>) -> Result<(), InputFault>
    requires { length plan.old.stages + items_len (items_view stages) ≤ MOST_STAGES }
    ensures { Leaves result plan.new (add_each with_one_stage (items_view stages.entry) plan.old) }
{
    let mut left = stages;
    'each: while let Some(stage) = left.next() {
        add_stage(alloc, plan, &stage)?;
    }
    Ok(())
}

#[tactic(auto, using(crate::proofs::Steps::steps), unfolding(crate::specs::GrammarPlans::with_one_stage))]
fn add_stage(alloc: Global, plan: &mut Plan, value: &Element<'_, '_>) -> Result<(), InputFault>
    requires { length plan.old.stages < MOST_STAGES }
    ensures added { Leaves result plan.new (with_one_stage (view value.now) plan.old) }
    ensures longer { OnOk result (length plan.new.stages ≡ length plan.old.stages + 1) }
{
    let number = plan.stages.as_slice().len() as u32;
    let stage = stage_of(alloc, number, value)?;
    plan.add_stage(stage)?;
    Ok(())
}

#[tactic(auto, using(crate::proofs::Steps::steps), unfolding(crate::specs::GrammarPlans::stage_of))]
/// The stage with a number.
fn stage_of(alloc: Global, stage: u32, value: &Element<'_, '_>) -> Result<Stage, InputFault>
    ensures { Reads result (stage_of stage (view value.now)) }
{
    let installed = marks_of(alloc, stage, value)?;
    let rates = rates_of(alloc, stage, value)?;
    Ok(Stage { rates, installed })
}

#[tactic(auto, using(crate::proofs::Steps::steps), unfolding(crate::specs::GrammarPlans::marks_of))]
fn marks_of(alloc: Global, stage: u32, value: &Element<'_, '_>) -> Result<Marks, InputFault>
    ensures { Reads result (marks_of stage (view value.now)) }
{
    let object = Place::at(Part::Stage, stage);
    let place = Place::at(Part::Installed, stage);
    let elements = list_of(object, Key::Installed, place, MOST_TUNNELS, value)?;
    let mut marks = Marks::new(alloc);
    add_marks(stage, &mut marks, elements)?;
    Ok(marks)
}

#[tactic(auto, using(crate::proofs::Steps::steps))]
fn add_marks(stage: u32, marks: &mut Marks, elements: Elements<'_, '_>) -> Result<(), InputFault>
    requires { length marks.old + items_len (items_view elements) ≤ MOST_TUNNELS }
    ensures { Leaves result marks.new
        (add_each (with_one_mark stage) (items_view elements.entry) marks.old) }
{
    let mut left = elements;
    'each: while let Some(element) = left.next() {
        add_mark(stage, marks, &element)?;
    }
    Ok(())
}

#[tactic(auto, using(crate::proofs::Steps::steps), unfolding(crate::specs::GrammarPlans::with_one_mark))]
fn add_mark(stage: u32, marks: &mut Marks, value: &Element<'_, '_>) -> Result<(), InputFault>
    requires { length marks.old < MOST_TUNNELS }
    ensures added { Leaves result marks.new (with_one_mark stage (view value.now) marks.old) }
    ensures longer { OnOk result (length marks.new ≡ length marks.old + 1) }
{
    let place = Place::within(Part::Mark, stage, marks.as_slice().len() as u32);
    let mark = value.as_bool().ok_or(InputFault::WrongKind(place))?;
    marks.push(mark)?;
    Ok(())
}

#[tactic(auto, using(crate::proofs::Steps::steps), unfolding(crate::specs::GrammarPlans::rates_of))]
fn rates_of(alloc: Global, stage: u32, value: &Element<'_, '_>) -> Result<Nums, InputFault>
    ensures { Reads result (rates_of stage (view value.now)) }
{
    let object = Place::at(Part::Stage, stage);
    let place = Place::at(Part::Rates, stage);
    let elements = list_of(object, Key::Rates, place, MOST_TUNNELS, value)?;
    let mut rates = Nums::new(alloc);
    add_rates(stage, &mut rates, elements)?;
    Ok(rates)
}

#[tactic(auto, using(crate::proofs::Steps::steps))]
fn add_rates(stage: u32, rates: &mut Nums, elements: Elements<'_, '_>) -> Result<(), InputFault>
    requires { length rates.old + items_len (items_view elements) ≤ MOST_TUNNELS }
    ensures { Leaves result rates.new
        (add_each (with_one_rate stage) (items_view elements.entry) rates.old) }
{
    let mut left = elements;
    'each: while let Some(element) = left.next() {
        add_rate(stage, rates, &element)?;
    }
    Ok(())
}

#[tactic(auto, using(crate::proofs::Steps::steps), unfolding(crate::specs::GrammarPlans::with_one_rate))]
fn add_rate(stage: u32, rates: &mut Nums, value: &Element<'_, '_>) -> Result<(), InputFault>
    requires { length rates.old < MOST_TUNNELS }
    ensures added { Leaves result rates.new (with_one_rate stage (view value.now) rates.old) }
    ensures longer { OnOk result (length rates.new ≡ length rates.old + 1) }
{
    let place = Place::within(Part::Rate, stage, rates.as_slice().len() as u32);
    let rate = number(place, LARGEST_PLAN_RATE, value)?;
    rates.push(rate)?;
    Ok(())
}
