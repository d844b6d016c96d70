ghost use Rattle.std.specs.Prelude.{◌≡◌, IfOk, IsTrue, OnOk, length};
ghost use Rattle.rollout_rules.specs.Items.{item_count};
ghost use Rattle.rollout_rules.specs.Legal.{is_sound};
ghost use Rattle.rollout_rules.specs.World.{are_first_pairs};
ghost use Rattle.takeover_rules.specs.Takeovers.{after_two_events, first_takeover};
ghost use Rattle.takeover_laws.specs.SafeTakeovers.{EveryTakeoverIsSafe, IsSafeTakeover};

use crate::two_worlds::TwoWorlds;
use dependency_graph::checked_plan_is_valid;
use lists::Memory;
use rollout_rules::Held;
use std::alloc::Global;
use takeover_rules::{TwoEvent, TwoEventList};
use wan_model::CheckedPlan;

/// The two worlds that a schedule leads to from a sound start, a migration and what the switches held at
/// first: its events in order, those that aren't allowed passed over.
///
/// Whatever the events, every takeover on the way is safe.
pub fn any_takeover<'p>(
    alloc: Global,
    plan: &'p CheckedPlan,
    start: &[u32],
    migration: u32,
    first: &[Held],
    events: &TwoEventList,
) -> Result<TwoWorlds<'p>, Memory>
    requires numbers { length start.now ≡ item_count plan.now.problem }
    requires pairs { length first.now ≡ item_count plan.now.problem }
    requires sound { IsTrue (is_sound plan.now.problem plan.now.plan start.now) }
    requires first { IsTrue (are_first_pairs plan.now.problem start.now migration first.now) }
    ensures rollout { IfOk result (λ worlds. worlds.rollout ≡ plan.now) }
    ensures takeover { IfOk result
        (λ worlds. worlds.takeover
        ≡ after_two_events plan.now.problem plan.now.plan
        (first_takeover plan.now.problem plan.now.plan start.now migration first.now) events.now) }
    ensures safe { IfOk result
        (λ worlds. IsSafeTakeover plan.now.problem plan.now.plan migration worlds.takeover) }
    ensures every { IfOk result
        (λ worlds. EveryTakeoverIsSafe plan.now.problem plan.now.plan migration
        (first_takeover plan.now.problem plan.now.plan start.now migration first.now) events.now) }
{
    checked_plan_is_valid(plan);
    let mut worlds = TwoWorlds::new(alloc, plan, start, migration, first)?;
    match follow(&mut worlds, events.as_slice()) {
        Ok(()) => Ok(worlds),
        Err(refused) => {
            drop(worlds);
            Err(refused)
        }
    }
}

/// Makes the events happen in order; those that aren't allowed are passed over.
fn follow(worlds: &mut TwoWorlds<'_>, events: &[TwoEvent]) -> Result<(), Memory>
    ensures rollout { OnOk result (worlds.new.rollout ≡ worlds.old.rollout) }
    ensures takeover { OnOk result
        (worlds.new.takeover
        ≡ after_two_events worlds.old.rollout.problem worlds.old.rollout.plan worlds.old.takeover
        events.now) }
{
    for event in events {
        worlds.step(event)?;
    }
    Ok(())
}
