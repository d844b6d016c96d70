ghost use Rattle.std.specs.Prelude.{◌≡◌, ◌<◌, IfSome, IsTrue, OnErr, OnOk};
ghost use Rattle.rollout_rules.specs.Items.{item_count};
ghost use Rattle.rollout_rules.specs.World.{after_event, allows};
ghost use Rattle.takeover_rules.specs.Takeovers as takeovers;
ghost use Rattle.takeover_core.specs.Standings.{behind, newer_after};

use crate::fences::is_fenced;
use lists::Memory;
use rollout_core::{Event, World, copied_event};
use std::alloc::Global;
use wan_model::CheckedPlan;

/// Makes an event of the older controller happen, where it is allowed: a command that comes to a fenced
/// switch is answered with what is held, and changes nothing. Lack of memory changes nothing either.
#[tactic(auto, using(crate::proofs::Steppings::older_passes, crate::proofs::Steppings::older_answers, crate::proofs::Steppings::older_happens))]
pub(crate) fn step_older(
    alloc: Global,
    plan: &CheckedPlan,
    fenced: &[bool],
    older: &mut World<'_>,
    event: &Event,
) -> Result<(), Memory>
    requires { older.old.rollout ≡ plan.now }
    ensures ok { OnOk result
        (older.new
        ≡ record older.old {
          world = takeovers.after_older older.old.rollout.problem older.old.rollout.plan fenced.now
              older.old.world event.now;
        }) }
    ensures err { OnErr result (older.new ≡ older.old) }
{
    if !older.allows(event) {
        return Ok(());
    }
    match item_behind(plan, fenced, older, event) {
        Some(item) => {
            let held = older.held(item);
            older.answer(item, held)
        }
        None => older.step(copied_event(alloc, event)?),
    }
}

// The item of the command that an event brings to a fenced switch.
fn item_behind(plan: &CheckedPlan, fenced: &[bool], world: &World<'_>, event: &Event) -> Option<u32>
    requires own { world.now.rollout ≡ plan.now }
    requires allowed { IsTrue (allows world.now.rollout.problem world.now.rollout.plan
        world.now.world event.now) }
    ensures item { result
        ≡ behind world.now.rollout.problem fenced.now
        (takeovers.comes_to world.now.world event.now) }
    ensures inside { IfSome result (λ item. item < item_count world.now.rollout.problem) }
{
    let item = comes_to(world, event)?;
    if is_fenced(plan, fenced, item) {
        Some(item)
    } else {
        None
    }
}

// The item of the command that an event brings to its switch.
#[tactic(auto, using(crate::proofs::Steppings::sent_inside, crate::proofs::Steppings::late_inside))]
fn comes_to(world: &World<'_>, event: &Event) -> Option<u32>
    requires { IsTrue (allows world.now.rollout.problem world.now.rollout.plan world.now.world
        event.now) }
    ensures item { result ≡ takeovers.comes_to world.now.world event.now }
    ensures inside { IfSome result (λ item. item < item_count world.now.rollout.problem) }
{
    match event {
        Event::Write(_) => None,
        Event::EndWrite => None,
        Event::Send(_) => None,
        Event::Deliver(n) => Some(world.sent().as_slice()[*n as usize].item),
        Event::Hand(_) => None,
        Event::Old { item, .. } => Some(*item),
        Event::Crash(_) => None,
        Event::Restart => None,
    }
}

/// Makes an event of the newer controller happen, where its world has begun and allows it. Lack of memory
/// changes nothing.
pub(crate) fn step_newer(
    alloc: Global,
    newer: &mut Option<World<'_>>,
    event: &Event,
) -> Result<(), Memory>
    ensures ok { OnOk result (newer.new ≡ newer_after newer.old event.now) }
    ensures err { OnErr result (newer.new ≡ newer.old) }
{
    match newer {
        Some(world) => step(alloc, world, event),
        None => Ok(()),
    }
}

fn step(alloc: Global, world: &mut World<'_>, event: &Event) -> Result<(), Memory>
    ensures ok { OnOk result
        (world.new
        ≡ record world.old {
          world = after_event world.old.rollout.problem world.old.rollout.plan world.old.world
              event.now;
        }) }
    ensures err { OnErr result (world.new ≡ world.old) }
{
    if !world.allows(event) {
        return Ok(());
    }
    world.step(copied_event(alloc, event)?)
}
