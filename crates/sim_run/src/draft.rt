//! A script that is drawn, act by act.
ghost use Rattle.std.specs.Prelude.{◌≡◌, ◌<◌, [], ◌∷◌, ◌++◌, length, IfOk, IsTrue, OnOk};
ghost use Rattle.order_policy.specs.Answers.{rank_by};
ghost use Rattle.case_gen.specs.Draws.{seeded};
ghost use Rattle.sim_run.specs.Acts.{acted, can_happen, first_rehearsal};
ghost use Rattle.sim_run.specs.Drafts.{HasDrafted, HasSketched, IsDrawnScript, draft_in, drained_draft, drawn_script, is_over, joined, joins, one_more, raised_draft, sketched, turned_draft, whole_of};
ghost use Rattle.sim_run.specs.DrawnFor.{IsDrawnFor, IsScriptFor};

use crate::acts::Rehearsal;
use crate::drain::is_finished;
use crate::events::next_act;
use crate::laws::a_drawn_script_happens;
use crate::plain::Plain;
use crate::script_shape::ScriptShape;
use case_gen::Draws;
use dependency_graph::checked_plan_is_valid;
use lists::Memory;
use order_policy::Policy;
use rollout_rules::{Act, MOST_ACTS, Script};
use std::alloc::Global;
use wan_model::CheckedPlan;

/// A plan, and a script that was drawn for it.
#[derive(Debug, Drop)]
pub struct DrawnScript {
    pub plan: CheckedPlan,
    pub script: Script,
}

/// Draws a script of a plan under a policy. As many acts as the shape has events are drawn as those of a trial
/// are, from its seed on, and then the rollout is drained. The script has the acts that happen, in order, and at
/// most [`MOST_ACTS`] of them. An Err is lack of memory.
///
/// Time: what each act touches, and for each turn of the drain the items.
pub fn draw_script(
    alloc: Global,
    plan: CheckedPlan,
    policy: &Policy,
    shape: &ScriptShape,
) -> Result<DrawnScript, Memory>
    ensures script { IfOk result
        (λ drawn. IsDrawnFor (rank_by policy.now.answers) shape.now plan drawn) }
    ensures happens { IfOk result
        (λ drawn. IsDrawnScript plan.problem plan.plan (rank_by policy.now.answers)
        (seeded shape.now.seed) shape.now.events
        (drawn_script plan.problem plan.plan (rank_by policy.now.answers) (seeded shape.now.seed)
        shape.now.events)) }
{
    script_is_drawn(&plan, policy, shape);
    let drawn = rehearse(alloc, plan, policy, shape)?;
    Ok(drawn)
}

/// What the plan's type keeps makes its script one that was drawn.
fn script_is_drawn(plan: &CheckedPlan, policy: &Policy, shape: &ScriptShape)
    ensures { IsDrawnScript plan.now.problem plan.now.plan (rank_by policy.now.answers)
        (seeded shape.now.seed) shape.now.events
        (drawn_script plan.now.problem plan.now.plan (rank_by policy.now.answers)
        (seeded shape.now.seed) shape.now.events) }
{
    checked_plan_is_valid(plan);
    a_drawn_script_happens();
}

fn rehearse(
    alloc: Global,
    plan: CheckedPlan,
    policy: &Policy,
    shape: &ScriptShape,
) -> Result<DrawnScript, Memory>
    ensures { IfOk result
        (λ drawn. IsDrawnFor (rank_by policy.now.answers) shape.now plan drawn) }
{
    match Rehearsal::<Plain>::new(alloc, plan) {
        Ok(rehearsal) => of_rehearsal(alloc, rehearsal, policy, shape),
        Err(error) => Err(error),
    }
}

/// The script from a first rehearsal on, which ends with it.
fn of_rehearsal(
    alloc: Global,
    mut rehearsal: Rehearsal<Plain>,
    policy: &Policy,
    shape: &ScriptShape,
) -> Result<DrawnScript, Memory>
    requires live { IsTrue rehearsal.live }
    requires first { rehearsal.state
        ≡ first_rehearsal rehearsal.rollout.problem rehearsal.rollout.plan }
    ensures { IfOk result
        (λ drawn. IsDrawnFor (rank_by policy.now.answers) shape.now rehearsal.rollout drawn) }
{
    match script_of(alloc, &mut rehearsal, policy, shape) {
        Ok(script) => Ok(DrawnScript {
            plan: rehearsal.into_rounds().into_plan(),
            script,
        }),
        Err(refused) => {
            drop(rehearsal);
            Err(refused)
        }
    }
}

fn script_of(
    alloc: Global,
    rehearsal: &mut Rehearsal<Plain>,
    policy: &Policy,
    shape: &ScriptShape,
) -> Result<Script, Memory>
    requires live { IsTrue rehearsal.old.live }
    requires first { rehearsal.old.state
        ≡ first_rehearsal rehearsal.old.rollout.problem rehearsal.old.rollout.plan }
    ensures rollout { OnOk result (rehearsal.new.rollout ≡ rehearsal.old.rollout) }
    ensures script { IfOk result
        (λ script. IsScriptFor (rank_by policy.now.answers) shape.now rehearsal.old.rollout
        script) }
{
    let mut script = Script::new(alloc);
    let mut draws = Draws::new(shape.seed);
    draw_events(rehearsal, policy, &mut draws, &mut script, shape.events)?;
    drain_script(rehearsal, policy, &mut script)?;
    Ok(script)
}

/// Draws an act for each of so many events; those that join are done, and stand in the script.
fn draw_events(
    rehearsal: &mut Rehearsal<Plain>,
    policy: &Policy,
    draws: &mut Draws,
    script: &mut Script,
    events: u32,
) -> Result<(), Memory>
    requires live { IsTrue rehearsal.old.live }
    requires first { rehearsal.old.state
        ≡ first_rehearsal rehearsal.old.rollout.problem rehearsal.old.rollout.plan }
    requires none { script.old ≡ [] }
    ensures { OnOk result
        (HasSketched rehearsal.old
        (sketched rehearsal.old.rollout.problem rehearsal.old.rollout.plan
        (rank_by policy.now.answers) draws.old events)
        rehearsal.new script.new draws.new) }
{
    for _event in 0..events {
        draw_next(rehearsal, policy, draws, script)?;
    }
    Ok(())
}

/// Draws an act for the next event. It joins, or there is nothing that it could be done with.
fn draw_next(
    rehearsal: &mut Rehearsal<Plain>,
    policy: &Policy,
    draws: &mut Draws,
    script: &mut Script,
) -> Result<(), Memory>
    requires live { IsTrue rehearsal.old.live }
    requires sent { length rehearsal.old.state.world.sent < 4294967296 }
    requires given { length rehearsal.old.state.world.given < 4294967296 }
    ensures { OnOk result
        (HasSketched rehearsal.old
        (one_more rehearsal.old.rollout.problem rehearsal.old.rollout.plan
        (rank_by policy.now.answers)
        (record { draft = draft_in rehearsal.old script.old; draws = draws.old }))
        rehearsal.new script.new draws.new) }
{
    match next_act(rehearsal, draws) {
        Some(act) => join(rehearsal, policy, script, act),
        None => Ok(()),
    }
}

/// Starts the controller where it is down, and makes turns until every operation is settled, the script is
/// full, or as many as there are operations and one are made.
fn drain_script(
    rehearsal: &mut Rehearsal<Plain>,
    policy: &Policy,
    script: &mut Script,
) -> Result<(), Memory>
    requires { IsTrue rehearsal.old.live }
    ensures { OnOk result
        (HasDrafted rehearsal.old
        (whole_of rehearsal.old.rollout.problem rehearsal.old.rollout.plan
        (rank_by policy.now.answers) (draft_in rehearsal.old script.old))
        rehearsal.new script.new) }
{
    raise(rehearsal, policy, script)?;
    let operations = rehearsal.graph().op_total();
    make_turns(rehearsal, policy, script, u64::from(operations) + 1)
}

fn raise(
    rehearsal: &mut Rehearsal<Plain>,
    policy: &Policy,
    script: &mut Script,
) -> Result<(), Memory>
    requires { IsTrue rehearsal.old.live }
    ensures { OnOk result
        (HasDrafted rehearsal.old
        (raised_draft rehearsal.old.rollout.problem rehearsal.old.rollout.plan
        (rank_by policy.now.answers) (draft_in rehearsal.old script.old))
        rehearsal.new script.new) }
{
    if rehearsal.is_up() {
        return Ok(());
    }
    join(rehearsal, policy, script, Act::Start)
}

/// Makes turns until every operation is settled or the script is full, and at most so many.
fn make_turns(
    rehearsal: &mut Rehearsal<Plain>,
    policy: &Policy,
    script: &mut Script,
    most: u64,
) -> Result<(), Memory>
    requires { IsTrue rehearsal.old.live }
    ensures { OnOk result
        (HasDrafted rehearsal.old
        (drained_draft rehearsal.old.rollout.problem rehearsal.old.rollout.plan
        (rank_by policy.now.answers) most (draft_in rehearsal.old script.old))
        rehearsal.new script.new) }
{
    for _made in 0..most {
        if is_over(rehearsal, script.as_slice()) {
            return Ok(());
        }
        turn(rehearsal, policy, script)?;
    }
    Ok(())
}

/// What is in flight is exchanged, and then a round is made.
fn turn(
    rehearsal: &mut Rehearsal<Plain>,
    policy: &Policy,
    script: &mut Script,
) -> Result<(), Memory>
    requires { IsTrue rehearsal.old.live }
    ensures { OnOk result
        (HasDrafted rehearsal.old
        (turned_draft rehearsal.old.rollout.problem rehearsal.old.rollout.plan
        (rank_by policy.now.answers) (draft_in rehearsal.old script.old))
        rehearsal.new script.new) }
{
    join(rehearsal, policy, script, Act::All)?;
    join(rehearsal, policy, script, Act::Round)?;
    Ok(())
}

/// Whether no more turns are made. Time: the items.
fn is_over(rehearsal: &Rehearsal<Plain>, script: &[Act]) -> bool
    requires { IsTrue rehearsal.now.live }
    ensures { result
        ≡ is_over rehearsal.now.rollout.problem rehearsal.now.rollout.plan
        (draft_in rehearsal.now script.now) }
{
    is_finished(rehearsal) || script.len() >= MOST_ACTS
}

/// An act that can happen is done, and stands in the script, where that has room; another is left out.
fn join(
    rehearsal: &mut Rehearsal<Plain>,
    policy: &Policy,
    script: &mut Script,
    act: Act,
) -> Result<(), Memory>
    requires { IsTrue rehearsal.old.live }
    ensures { OnOk result
        (HasDrafted rehearsal.old
        (joined rehearsal.old.rollout.problem rehearsal.old.rollout.plan
        (rank_by policy.now.answers) (draft_in rehearsal.old script.old) act)
        rehearsal.new script.new) }
{
    if joins(rehearsal, script.as_slice(), act) {
        return add_act(rehearsal, policy, script, act);
    }
    Ok(())
}

fn joins(rehearsal: &Rehearsal<Plain>, script: &[Act], act: Act) -> bool
    requires { IsTrue rehearsal.now.live }
    ensures { result
        ≡ joins rehearsal.now.rollout.problem (draft_in rehearsal.now script.now) act }
{
    script.len() < MOST_ACTS && rehearsal.can_happen(act)
}

fn add_act(
    rehearsal: &mut Rehearsal<Plain>,
    policy: &Policy,
    script: &mut Script,
    act: Act,
) -> Result<(), Memory>
    requires live { IsTrue rehearsal.old.live }
    requires happens { IsTrue (can_happen rehearsal.old.rollout.problem rehearsal.old.state act) }
    ensures { OnOk result
        (HasDrafted rehearsal.old
        (record {
          acts = script.old ++ act ∷ [];
          rehearsal = acted rehearsal.old.rollout.problem rehearsal.old.rollout.plan
              (rank_by policy.now.answers) rehearsal.old.state act;
        })
        rehearsal.new script.new) }
{
    script.push(act)?;
    rehearsal.act_out(policy, act)?;
    Ok(())
}
