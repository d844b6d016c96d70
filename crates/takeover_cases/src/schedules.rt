//! A takeover, from the older controller's first entry to the newer one's last.

use dependency_graph::checked_plan_is_valid;
use fixtures::{FIRST_BEGUN, FIRST_DONE, plan_of_document, two_flows, write_of};
use lists::Memory;
use rollout_core::{Event, World};
use rollout_rules::Held;
use std::alloc::Global;
use std::test::Fail;
use takeover_core::{TwoWorlds, any_takeover};
use takeover_rules::{TwoEvent, TwoEventList};
use wan_model::{CheckedPlan, item_count};

// What a switch holds of an item to which nothing was applied.
const NOTHING: Held = Held {
    migration: 0,
    number: 0,
};

// The older controller begins the first flow's operation and sends its command.
fn add_older(alloc: Global, events: &mut TwoEventList) -> Result<(), Memory> {
    events.push(TwoEvent::Old(write_of(alloc, FIRST_BEGUN)?))?;
    events.push(TwoEvent::Old(Event::EndWrite))?;
    events.push(TwoEvent::Old(Event::Send(0)))
}

// Both switches are fenced, and that command comes.
fn add_fences(events: &mut TwoEventList) -> Result<(), Memory> {
    events.push(TwoEvent::Fence(0))?;
    events.push(TwoEvent::Fence(1))?;
    events.push(TwoEvent::Old(Event::Deliver(0)))
}

// The newer controller begins the operation anew, and it is carried out and settled.
fn add_newer(alloc: Global, events: &mut TwoEventList) -> Result<(), Memory> {
    events.push(TwoEvent::New(write_of(alloc, FIRST_BEGUN)?))?;
    events.push(TwoEvent::New(Event::EndWrite))?;
    events.push(TwoEvent::New(Event::Send(0)))?;
    events.push(TwoEvent::New(Event::Deliver(0)))?;
    events.push(TwoEvent::New(Event::Hand(0)))?;
    events.push(TwoEvent::New(write_of(alloc, FIRST_DONE)?))?;
    events.push(TwoEvent::New(Event::EndWrite))
}

fn add_all(alloc: Global, events: &mut TwoEventList) -> Result<(), Memory> {
    add_older(alloc, events)?;
    add_fences(events)?;
    add_newer(alloc, events)
}

fn taken_over<'p>(
    alloc: Global,
    plan: &'p CheckedPlan,
    events: &TwoEventList,
) -> Result<TwoWorlds<'p>, Memory> {
    checked_plan_is_valid(plan);
    let items = item_count(plan.problem()) as usize;
    let start = vec![in alloc; 0u32; items]?;
    let first = vec![in alloc; NOTHING; items]?;
    any_takeover(alloc, plan, &start, 0, &first, events)
}

// Whether the older controller was answered with what was held before, and has begun no more.
fn is_behind(older: &World) -> bool {
    let given = older.given().as_slice();
    older.durable().as_slice() == [FIRST_BEGUN].as_slice()
        && given.len() == 1
        && given[0].held == NOTHING
}

// Whether the newer controller has settled the operation, and the switch holds it.
fn is_the_end(newer: &World) -> bool {
    let durable = newer.durable().as_slice();
    durable == [FIRST_BEGUN, FIRST_DONE].as_slice()
        && newer.items() > 0
        && newer.held(0).number == 1
}

// Of both worlds.
fn are_the_end(worlds: &TwoWorlds) -> bool {
    let ended = match worlds.new_world() {
        Some(newer) => is_the_end(newer),
        None => false,
    };
    is_behind(worlds.old()) && ended
}

fn ends_there(alloc: Global, plan: &CheckedPlan, events: &TwoEventList) -> Result<bool, Memory> {
    match taken_over(alloc, plan, events) {
        Ok(worlds) => {
            let ends_there = are_the_end(&worlds);
            drop(worlds);
            Ok(ends_there)
        }
        Err(error) => Err(error),
    }
}

fn leads_to_the_end(alloc: Global, plan: &CheckedPlan) -> Result<bool, Memory> {
    let mut events = TwoEventList::new(alloc);
    let led = match add_all(alloc, &mut events) {
        Ok(()) => ends_there(alloc, plan, &events),
        Err(error) => Err(error),
    };
    drop(events);
    led
}

// Of the rollout of two flows.
fn two_lead_to_the_end(alloc: Global) -> Result<bool, Fail> {
    let plan = plan_of_document(alloc, two_flows())?;
    let led = leads_to_the_end(alloc, &plan);
    drop(plan);
    Ok(led?)
}

#[test]
fn a_takeover_leads_to_the_end(rt: HostRuntime) -> Result<(), Fail> {
    assert!(rt; two_lead_to_the_end(rt.alloc())?);
    Ok(())
}
