ghost use Rattle.std.specs.Prelude.{◌≡◌, IfOk, OnOk, IsTrue, length};
ghost use Rattle.rollout_rules.specs.Items.{item_count};
ghost use Rattle.rollout_rules.specs.Legal.{is_sound};
ghost use Rattle.rollout_rules.specs.World.{first_world, are_first_pairs, after_events};
ghost use Rattle.rollout_laws.specs.SafeWorlds.{IsSafeWorld, EveryWorldIsSafe};

use crate::world::World;
use dependency_graph::checked_plan_is_valid;
use lists::Memory;
use rollout_rules::{EntryList, Event, EventList, Held};
use std::alloc::Global;
use wan_model::CheckedPlan;

/// The world that a schedule leads to from a sound start, a migration and what the switches held at first:
/// its events in order, those that aren't allowed passed over.
///
/// Whatever the events, every world on the way is safe.
pub fn any_rollout<'p>(
    alloc: Global,
    plan: &'p CheckedPlan,
    start: &[u32],
    migration: u32,
    first: &[Held],
    events: &EventList,
) -> Result<World<'p>, Memory>
    requires numbers { length start.now ≡ item_count plan.now.problem }
    requires pairs { length first.now ≡ item_count plan.now.problem }
    requires sound { IsTrue (is_sound plan.now.problem plan.now.plan start.now) }
    requires first { IsTrue (are_first_pairs plan.now.problem start.now migration first.now) }
    ensures rollout { IfOk result (λ w. w.rollout ≡ plan.now) }
    ensures world { IfOk result
        (λ w. w.world
        ≡ after_events plan.now.problem plan.now.plan
        (first_world plan.now.problem plan.now.plan start.now migration first.now) events.now) }
    ensures safe { IfOk result (λ w. IsSafeWorld plan.now.problem plan.now.plan w.world) }
    ensures every { IfOk result
        (λ w. EveryWorldIsSafe plan.now.problem plan.now.plan
        (first_world plan.now.problem plan.now.plan start.now migration first.now) events.now) }
{
    checked_plan_is_valid(plan);
    let mut world = World::new(alloc, plan, start, migration, first)?;
    match follow(alloc, &mut world, events.as_slice()) {
        Ok(()) => Ok(world),
        Err(refused) => {
            drop(world);
            Err(refused)
        }
    }
}

/// Makes the events happen in order; those that aren't allowed are passed over.
fn follow(alloc: Global, world: &mut World<'_>, events: &[Event]) -> Result<(), Memory>
    ensures rollout { OnOk result (world.new.rollout ≡ world.old.rollout) }
    ensures world { OnOk result
        (world.new.world
        ≡ after_events world.old.rollout.problem world.old.rollout.plan world.old.world
        events.now) }
{
    for event in events {
        if world.allows(event) {
            world.step(copied_event(alloc, event)?)?;
        }
    }
    Ok(())
}

/// The same event once more.
pub fn copied_event(alloc: Global, event: &Event) -> Result<Event, Memory>
    ensures { IfOk result (λ copy. copy ≡ event.now) }
{
    Ok(match event {
        Event::Write(batch) => {
            let mut copy = EntryList::new(alloc);
            copy.extend_from_slice(batch.as_slice())?;
            Event::Write(copy)
        }
        Event::EndWrite => Event::EndWrite,
        Event::Send(n) => Event::Send(*n),
        Event::Deliver(n) => Event::Deliver(*n),
        Event::Hand(n) => Event::Hand(*n),
        Event::Old {
            item,
            migration,
            number,
        } => Event::Old {
            item: *item,
            migration: *migration,
            number: *number,
        },
        Event::Crash(n) => Event::Crash(*n),
        Event::Restart => Event::Restart,
    })
}
