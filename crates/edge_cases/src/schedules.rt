//! One schedule of the definition's world, with a crash inside a write: taken event by event, and as a whole.

use dependency_graph::checked_plan_is_valid;
use fixtures::{FIRST_BEGUN, FIRST_DONE, plan_of_document, two_flows, write_of};
use lists::Memory;
use rollout_core::{Event, EventList, World, any_rollout};
use rollout_rules::Held;
use std::alloc::Global;
use std::test::Fail;
use wan_model::{CheckedPlan, item_count};

// How many events the schedule has.
const EVENTS: u32 = 8;

// An event of the schedule. The controller stops in the write that begins the operation, and the entry is
// durable; it starts again, and the operation is carried out and settled.
fn event(alloc: Global, place: u32) -> Result<Event, Memory> {
    Ok(match place {
        0 => write_of(alloc, FIRST_BEGUN)?,
        1 => Event::Crash(1),
        2 => Event::Restart,
        3 => Event::Send(0),
        4 => Event::Deliver(0),
        5 => Event::Hand(0),
        6 => write_of(alloc, FIRST_DONE)?,
        _ => Event::EndWrite,
    })
}

// The events of the schedule, after what stands.
fn add_events(alloc: Global, events: &mut EventList) -> Result<(), Memory> {
    for place in 0..EVENTS {
        events.push(event(alloc, place)?)?;
    }
    Ok(())
}

fn all_events(alloc: Global) -> Result<EventList, Memory> {
    let mut events = EventList::new(alloc);
    match add_events(alloc, &mut events) {
        Ok(()) => Ok(events),
        Err(error) => {
            drop(events);
            Err(error)
        }
    }
}

// Takes each event of the schedule where it is allowed.
fn walk(alloc: Global, world: &mut World) -> Result<(), Memory> {
    for place in 0..EVENTS {
        take(world, event(alloc, place)?)?;
    }
    Ok(())
}

fn take(world: &mut World, event: Event) -> Result<(), Memory> {
    if world.allows(&event) {
        return world.step(event);
    }
    drop(event);
    Ok(())
}

// The world after these events as a whole.
fn run_schedule<'p>(
    alloc: Global,
    plan: &'p CheckedPlan,
    events: &EventList,
) -> Result<World<'p>, Memory> {
    checked_plan_is_valid(plan);
    let items = item_count(plan.problem()) as usize;
    let start = vec![in alloc; 0u32; items]?;
    let first = vec![in alloc; NOTHING; items]?;
    any_rollout(alloc, plan, &start, 0, &first, events)
}

// What a switch holds of an item to which nothing was applied.
const NOTHING: Held = Held {
    migration: 0,
    number: 0,
};

// Whether the operation is settled in this world, and its switch holds it.
fn is_the_end(world: &World) -> bool {
    let durable = world.durable().as_slice();
    durable == [FIRST_BEGUN, FIRST_DONE].as_slice()
        && world.items() > 0
        && world.held(0).number == 1
}

// Lets the world go.
fn ends_there(world: World) -> bool {
    let ends_there = is_the_end(&world);
    drop(world);
    ends_there
}

fn walks_to_the_end(alloc: Global, plan: &CheckedPlan) -> Result<bool, Memory> {
    let mut world = World::fresh(alloc, plan)?;
    match walk(alloc, &mut world) {
        Ok(()) => Ok(ends_there(world)),
        Err(error) => {
            drop(world);
            Err(error)
        }
    }
}

fn rolls_to_the_end(alloc: Global, plan: &CheckedPlan) -> Result<bool, Memory> {
    let events = all_events(alloc)?;
    let rolls = rolls_by(alloc, plan, &events);
    drop(events);
    rolls
}

fn rolls_by(alloc: Global, plan: &CheckedPlan, events: &EventList) -> Result<bool, Memory> {
    match run_schedule(alloc, plan, events) {
        Ok(world) => Ok(ends_there(world)),
        Err(error) => Err(error),
    }
}

// Event by event, and as a whole.
fn lead_to_the_end(alloc: Global, plan: &CheckedPlan) -> Result<bool, Memory> {
    let walks = walks_to_the_end(alloc, plan)?;
    let rolls = rolls_to_the_end(alloc, plan)?;
    Ok(walks && rolls)
}

// Of the rollout of two flows.
fn both_lead_to_the_end(alloc: Global) -> Result<bool, Fail> {
    let plan = plan_of_document(alloc, two_flows())?;
    let both = lead_to_the_end(alloc, &plan);
    drop(plan);
    Ok(both?)
}

#[test]
fn a_schedule_with_a_crash_inside_a_write_leads_to_the_end(rt: HostRuntime) -> Result<(), Fail> {
    assert!(rt; both_lead_to_the_end(rt.alloc())?);
    Ok(())
}
