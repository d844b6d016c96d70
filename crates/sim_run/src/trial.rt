ghost use Rattle.std.specs.Prelude.{◌≡◌, ◌<◌, ◌++◌, IfOk, IsTrue, OnErr, OnOk, length};
ghost use Rattle.order_policy.specs.Answers.{rank_by};
ghost use Rattle.sim_run.specs.Acts.{after_act, first_rehearsal};
ghost use Rattle.sim_run.specs.Trials.{after_trial};
ghost use Rattle.sim_run.specs.TrialText.{events_line, pair_text, plan_line, shape_line, trial_text};
ghost use Rattle.sim_run.specs.Trying.{HasTried};

use crate::acts::Rehearsal;
use crate::drain::drain;
use crate::events::next_act;
use crate::plain::Plain;
use crate::shape::Shape;
use case_gen::Draws;
use lists::{Memory, Text};
use order_policy::Policy;
use rollout_rules::Act;
use std::alloc::Global;
use wan_model::CheckedPlan;

/// Makes a trial of a plan of so many rate steps under a policy, and gives its text: for each of the shape's
/// events an act is drawn and done, and then the rollout is drained. The text tells the shape's numbers, the
/// plan, the events, and how far the rollout came and how full a link. An Err is lack of memory, and leaves
/// the draws as they were.
///
/// Time: what each act touches, and for each turn of the drain the items.
pub fn run_trial(
    alloc: Global,
    plan: CheckedPlan,
    rate_steps: u32,
    policy: &Policy,
    shape: &Shape,
    draws: &mut Draws,
) -> Result<Text, Memory>
    ensures text { IfOk result
        (λ text. text
        ≡ trial_text plan.problem plan.plan rate_steps (rank_by policy.now.answers) shape.now
        draws.old) }
    ensures behind { OnOk result
        (draws.new
        ≡ (after_trial plan.problem plan.plan (rank_by policy.now.answers) draws.old
        shape.now.events).draws) }
    ensures kept { OnErr result (draws.new ≡ draws.old) }
{
    let mut ahead = draws.copied()?;
    let text = try_plan(alloc, plan, rate_steps, policy, shape, &mut ahead)?;
    *draws = ahead;
    Ok(text)
}

fn try_plan(
    alloc: Global,
    plan: CheckedPlan,
    rate_steps: u32,
    policy: &Policy,
    shape: &Shape,
    draws: &mut Draws,
) -> Result<Text, Memory>
    ensures text { IfOk result
        (λ text. text
        ≡ trial_text plan.problem plan.plan rate_steps (rank_by policy.now.answers) shape.now
        draws.old) }
    ensures behind { OnOk result
        (draws.new
        ≡ (after_trial plan.problem plan.plan (rank_by policy.now.answers) draws.old
        shape.now.events).draws) }
{
    match Rehearsal::<Plain>::new(alloc, plan) {
        Ok(rehearsal) => of_rehearsal(alloc, rehearsal, rate_steps, policy, shape, draws),
        Err(error) => Err(error),
    }
}

/// The text of a trial from a first rehearsal on, which ends with it.
fn of_rehearsal(
    alloc: Global,
    mut rehearsal: Rehearsal<Plain>,
    rate_steps: u32,
    policy: &Policy,
    shape: &Shape,
    draws: &mut Draws,
) -> Result<Text, Memory>
    requires live { IsTrue rehearsal.live }
    requires first { rehearsal.state
        ≡ first_rehearsal rehearsal.rollout.problem rehearsal.rollout.plan }
    ensures text { IfOk result
        (λ text. text
        ≡ trial_text rehearsal.rollout.problem rehearsal.rollout.plan rate_steps
        (rank_by policy.now.answers) shape.now draws.old) }
    ensures behind { OnOk result
        (draws.new
        ≡ (after_trial rehearsal.rollout.problem rehearsal.rollout.plan
        (rank_by policy.now.answers) draws.old shape.now.events).draws) }
{
    let text = text_of(alloc, &mut rehearsal, rate_steps, policy, shape, draws);
    drop(rehearsal);
    text
}

fn text_of(
    alloc: Global,
    rehearsal: &mut Rehearsal<Plain>,
    rate_steps: u32,
    policy: &Policy,
    shape: &Shape,
    draws: &mut Draws,
) -> Result<Text, Memory>
    requires live { IsTrue rehearsal.old.live }
    requires first { rehearsal.old.state
        ≡ first_rehearsal rehearsal.old.rollout.problem rehearsal.old.rollout.plan }
    ensures text { IfOk result
        (λ text. text
        ≡ trial_text rehearsal.old.rollout.problem rehearsal.old.rollout.plan rate_steps
        (rank_by policy.now.answers) shape.now draws.old) }
    ensures behind { OnOk result
        (draws.new
        ≡ (after_trial rehearsal.old.rollout.problem rehearsal.old.rollout.plan
        (rank_by policy.now.answers) draws.old shape.now.events).draws) }
{
    let mut text = Text::new(alloc);
    push_shape(alloc, &mut text, shape)?;
    push_plan(alloc, &mut text, rehearsal.graph().plan(), rate_steps)?;
    let skipped = do_events(rehearsal, policy, draws, shape.events)?;
    let turns = drain(rehearsal, policy)?;
    push_events(alloc, &mut text, shape.events, skipped, turns)?;
    rehearsal.push_outcome(alloc, &mut text)?;
    Ok(text)
}

/// Draws an act for each of so many events and does it. Answers how many events were skipped, since there was
/// nothing that the act could be done with.
fn do_events(
    rehearsal: &mut Rehearsal<Plain>,
    policy: &Policy,
    draws: &mut Draws,
    events: u32,
) -> Result<u32, Memory>
    requires live { IsTrue rehearsal.old.live }
    requires first { rehearsal.old.state
        ≡ first_rehearsal rehearsal.old.rollout.problem rehearsal.old.rollout.plan }
    ensures state { OnOk result
        (rehearsal.new
        ≡ record rehearsal.old {
          state =
              (after_trial rehearsal.old.rollout.problem rehearsal.old.rollout.plan
              (rank_by policy.now.answers) draws.old events).rehearsal;
        }) }
    ensures skipped { IfOk result
        (λ skipped. skipped
        ≡ (after_trial rehearsal.old.rollout.problem rehearsal.old.rollout.plan
        (rank_by policy.now.answers) draws.old events).skipped) }
    ensures left { OnOk result
        (draws.new
        ≡ (after_trial rehearsal.old.rollout.problem rehearsal.old.rollout.plan
        (rank_by policy.now.answers) draws.old events).draws) }
{
    let mut skipped = 0;
    for _event in 0..events {
        let more = do_next(rehearsal, policy, draws)?;
        skipped += more;
    }
    Ok(skipped)
}

/// Draws an act for the next event and does it. Answers how many events were skipped: this one or none.
fn do_next(
    rehearsal: &mut Rehearsal<Plain>,
    policy: &Policy,
    draws: &mut Draws,
) -> Result<u32, Memory>
    requires live { IsTrue rehearsal.old.live }
    requires sent { length rehearsal.old.state.world.sent < 4294967296 }
    requires given { length rehearsal.old.state.world.given < 4294967296 }
    ensures { IfOk result
        (λ skipped. HasTried (rank_by policy.now.answers) rehearsal.old draws.old rehearsal.new
        draws.new skipped) }
{
    match next_act(rehearsal, draws) {
        Some(act) => do_act(rehearsal, policy, act),
        None => Ok(1),
    }
}

fn do_act(rehearsal: &mut Rehearsal<Plain>, policy: &Policy, act: Act) -> Result<u32, Memory>
    requires { IsTrue rehearsal.old.live }
    ensures { IfOk result
        (λ skipped. (rehearsal.new
        ≡ record rehearsal.old {
          state = after_act rehearsal.old.rollout.problem rehearsal.old.rollout.plan
              (rank_by policy.now.answers) rehearsal.old.state act;
        })
        × (skipped ≡ 0)) }
{
    rehearsal.act(policy, act)?;
    Ok(0)
}

fn push_shape(alloc: Global, text: &mut Text, shape: &Shape) -> Result<(), Memory>
    ensures { OnOk result (text.new ≡ text.old ++ shape_line shape.now) }
{
    let switches = u64::from(shape.switches);
    let flows = u64::from(shape.flows);
    let k = u64::from(shape.k);
    push_pair(
        alloc,
        text,
        "trial: switches ",
        switches,
        ", links ",
        2 * switches,
    )?;
    push_pair(alloc, text, ", flows ", flows, ", tunnels ", 2 * flows)?;
    push_pair(alloc, text, ", k ", k, ", seed ", shape.seed)?;
    text.push_str("\n")
}

/// Adds two numbers, each after a name.
fn push_pair(
    alloc: Global,
    text: &mut Text,
    first: &str,
    one: u64,
    second: &str,
    other: u64,
) -> Result<(), Memory>
    ensures { OnOk result (text.new ≡ text.old ++ pair_text first.now one second.now other) }
{
    let pair = format!(in alloc; "{first}{one}{second}{other}")?;
    text.push_str(&pair)
}

fn push_plan(
    alloc: Global,
    text: &mut Text,
    plan: &CheckedPlan,
    rate_steps: u32,
) -> Result<(), Memory>
    ensures { OnOk result (text.new ≡ text.old ++ plan_line plan.now.plan rate_steps) }
{
    let steps = plan.last_stage();
    let scale = plan.plan().scale;
    let line = format!(in alloc; "plan: steps {steps}, rate steps {rate_steps}, scale {scale}\n")?;
    text.push_str(&line)
}

fn push_events(
    alloc: Global,
    text: &mut Text,
    events: u32,
    skipped: u32,
    turns: u64,
) -> Result<(), Memory>
    ensures { OnOk result (text.new ≡ text.old ++ events_line events skipped turns) }
{
    let line = format!(in alloc; "events: {events}, skipped {skipped}, drain {turns}\n")?;
    text.push_str(&line)
}
