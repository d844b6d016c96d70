//! The rates of a target, flow by flow, and its capacities.
ghost use Rattle.std.specs.Prelude.{◌≡◌, ◌+◌, ◌<◌, ◌≤◌, length, replicate, IfOk, OnOk};
ghost use Rattle.serde_json.specs.Events.{items_len};
ghost use Rattle.json_data.specs.View.{view, items_view};
ghost use Rattle.rollout_rules.specs.declared.limits.TheConstants.{MOST_FLOWS, MOST_LINKS, MOST_TUNNELS_OF_FLOW};
ghost use Rattle.rollout_rules.specs.Sums.{same_numbers};
ghost use Rattle.rollout_rules.specs.Wan as wan;
ghost use Rattle.wan_model.specs.Rates.{rate_in};
ghost use Rattle.retarget_plan.specs.Aiming.{AreGiven, AreWithin};
ghost use Rattle.target_json.specs.Results.{Leaves, Reads, ReadsAs, add_from};
ghost use Rattle.target_json.specs.Grammar.{capacities_in, end_of, link_in, named_in, rates_in, with_one_capacity, with_one_flow, with_one_rate};
ghost use Rattle.target_json.specs.declared.key.TargetKey.TheVariants as key;

use crate::fault::{TargetFault, Wrong};
use crate::key::TargetKey;
use crate::place::{TargetPart, TargetPlace};
use crate::values::{list_of, member, number, rate_of, row_of, text_of};
use json_data::{Element, Elements};
use lists::{Many, Memory};
use rollout_rules::LARGEST_CAPACITY;
use std::alloc::Global;
use std::vec;
use wan_model::Problem;

/// The new rate of each tunnel, those of one flow after those of another, as the problem has them.
#[tactic(auto, using(crate::proofs::Steps::steps, crate::proofs::Limits::limits), unfolding(crate::specs::Grammar::rates_in))]
pub(crate) fn rates_of(
    alloc: Global,
    problem: &Problem,
    value: &Element<'_, '_>,
) -> Result<Many<Option<u64>>, TargetFault>
    ensures rates { Reads result (rates_in problem.now (view value.now)) }
    ensures within { IfOk result AreWithin }
{
    let count = problem.flows().len();
    let list = member(TargetPlace::of(TargetPart::Target), TargetKey::Flows, value)?;
    let flows = row_of(TargetPlace::of(TargetPart::Flows), count, &list)?;
    let mut rates = Many::new(alloc);
    add_flows(problem, flows, &mut rates)?;
    Ok(rates)
}

#[tactic(auto, using(crate::proofs::Steps::steps))]
fn add_flows(
    problem: &Problem,
    flows: Elements<'_, '_>,
    rates: &mut Many<Option<u64>>,
) -> Result<(), TargetFault>
    requires all { items_len (items_view flows) ≡ length problem.now.flows }
    requires few { length problem.now.flows ≤ MOST_FLOWS }
    requires within { AreWithin rates.old }
    ensures added { Leaves result rates.new
        (add_from (with_one_flow problem.now) 0 (items_view flows.entry) rates.old) }
    ensures within { OnOk result (AreWithin rates.new) }
{
    let mut number = 0;
    let mut left = flows;
    'each: while let Some(flow) = left.next() {
        add_flow(problem, number, &flow, rates)?;
        number += 1;
    }
    Ok(())
}

/// Adds the rates of the flow of this number.
#[tactic(auto, using(crate::proofs::Steps::steps), unfolding(crate::specs::Grammar::with_one_flow))]
fn add_flow(
    problem: &Problem,
    flow: u32,
    value: &Element<'_, '_>,
    rates: &mut Many<Option<u64>>,
) -> Result<(), TargetFault>
    requires flow { flow < length problem.now.flows }
    requires within { AreWithin rates.old }
    ensures added { Leaves result rates.new
        (with_one_flow problem.now flow (view value.now) rates.old) }
    ensures within { OnOk result (AreWithin rates.new) }
{
    let _name = named(problem, flow, value)?;
    let list = member(
        TargetPlace::at(TargetPart::Flow, flow),
        TargetKey::New,
        value,
    )?;
    let count = problem.tunnel_count(flow as usize);
    let new = row_of(
        TargetPlace::at(TargetPart::Rates, flow),
        count as usize,
        &list,
    )?;
    add_rates(flow, new, rates)
}

/// The name of the flow of this number, as the problem has it.
#[tactic(auto, using(crate::proofs::Steps::steps), unfolding(crate::specs::Grammar::named_in))]
fn named<'a>(problem: &Problem, flow: u32, value: &Element<'_, 'a>) -> Result<&'a str, TargetFault>
    requires { flow < length problem.now.flows }
    ensures { ReadsAs (λ s. s.now) result (named_in problem.now flow (view value.now)) }
{
    let place = TargetPlace::at(TargetPart::FlowName, flow);
    let at = member(
        TargetPlace::at(TargetPart::Flow, flow),
        TargetKey::Name,
        value,
    )?;
    let name = text_of(place, &at)?;
    if !is_same(name, problem.flow_name(flow as usize)) {
        return Err(TargetFault::At(place, Wrong::OtherFlow));
    }
    Ok(name)
}

fn is_same(name: &str, other: &str) -> bool
    ensures { result ≡ same_numbers name.now other.now }
{
    name == other
}

#[tactic(auto, using(crate::proofs::Steps::steps))]
fn add_rates(
    flow: u32,
    new: Elements<'_, '_>,
    rates: &mut Many<Option<u64>>,
) -> Result<(), TargetFault>
    requires few { items_len (items_view new) ≤ MOST_TUNNELS_OF_FLOW }
    requires within { AreWithin rates.old }
    ensures added { Leaves result rates.new
        (add_from (with_one_rate flow) 0 (items_view new.entry) rates.old) }
    ensures within { OnOk result (AreWithin rates.new) }
{
    let mut number = 0;
    let mut left = new;
    'each: while let Some(rate) = left.next() {
        add_rate(flow, number, &rate, rates)?;
        number += 1;
    }
    Ok(())
}

#[tactic(auto, using(crate::proofs::Steps::steps, crate::proofs::Limits::within_more), unfolding(crate::specs::Grammar::with_one_rate))]
fn add_rate(
    flow: u32,
    number: u32,
    value: &Element<'_, '_>,
    rates: &mut Many<Option<u64>>,
) -> Result<(), TargetFault>
    requires { AreWithin rates.old }
    ensures added { Leaves result rates.new
        (with_one_rate flow number (view value.now) rates.old) }
    ensures within { OnOk result (AreWithin rates.new) }
{
    let rate = rate_of(TargetPlace::within(TargetPart::Rate, flow, number), value)?;
    rates.push(rate)?;
    Ok(())
}

/// The capacity of each link to which one is given.
#[tactic(auto, using(crate::proofs::Steps::steps, crate::proofs::Limits::limits), unfolding(crate::specs::Grammar::capacities_in, crate::specs::Grammar::capacities_at))]
pub(crate) fn capacities_of(
    alloc: Global,
    problem: &Problem,
    value: &Element<'_, '_>,
) -> Result<Vec<Option<u64>>, TargetFault>
    ensures capacities { ReadsAs (λ v. v.items) result
        (capacities_in problem.now (view value.now)) }
    ensures given { IfOk result (λ v. AreGiven v.items) }
{
    let count = problem.links().len();
    let mut given = nothing_given(alloc, count)?;
    let Some(list) = value.get(TargetKey::Capacities.as_str()) else {
        return Ok(given);
    };
    let links = list_of(TargetPlace::of(TargetPart::Capacities), count, &list)?;
    add_capacities(problem, links, &mut given)?;
    Ok(given)
}

#[tactic(auto, using(crate::proofs::Limits::nothing_given))]
fn nothing_given(alloc: Global, count: usize) -> Result<Vec<Option<u64>>, Memory>
    ensures row { IfOk result (λ v. v.items ≡ replicate count None) }
    ensures given { IfOk result (λ v. AreGiven v.items) }
{
    let row: Vec<Option<u64>> = vec![in alloc; None; count]?;
    Ok(row)
}

#[tactic(auto, using(crate::proofs::Steps::steps))]
fn add_capacities(
    problem: &Problem,
    links: Elements<'_, '_>,
    given: &mut Vec<Option<u64>>,
) -> Result<(), TargetFault>
    requires few { items_len (items_view links) ≤ MOST_LINKS }
    requires all { length given.old.items ≡ length problem.now.links }
    requires given { AreGiven given.old.items }
    ensures added { Leaves result given.new.items
        (add_from (with_one_capacity problem.now) 0 (items_view links.entry) given.old.items) }
    ensures given { OnOk result (AreGiven given.new.items) }
{
    let mut number = 0;
    let mut left = links;
    'each: while let Some(link) = left.next() {
        add_capacity(problem, number, &link, given)?;
        number += 1;
    }
    Ok(())
}

#[tactic(auto, using(crate::proofs::Steps::steps, crate::proofs::Limits::limits), unfolding(crate::specs::Grammar::with_one_capacity))]
fn add_capacity(
    problem: &Problem,
    element: u32,
    value: &Element<'_, '_>,
    given: &mut Vec<Option<u64>>,
) -> Result<(), TargetFault>
    requires all { length given.old.items ≡ length problem.now.links }
    requires given { AreGiven given.old.items }
    ensures added { Leaves result given.new.items
        (with_one_capacity problem.now element (view value.now) given.old.items) }
    ensures all { length given.new.items ≡ length given.old.items }
    ensures given { OnOk result (AreGiven given.new.items) }
{
    let place = TargetPlace::at(TargetPart::Link, element);
    let link = link_of(problem, element, value)?;
    if given[link].is_some() {
        return Err(TargetFault::At(place, Wrong::LinkTwice));
    }
    let at = member(place, TargetKey::Capacity, value)?;
    let sized = TargetPlace::at(TargetPart::LinkCapacity, element);
    let capacity = number(sized, LARGEST_CAPACITY, &at)?;
    given[link] = Some(capacity);
    Ok(())
}

/// The link that an element names by its ends.
#[tactic(auto, using(crate::proofs::Steps::steps, crate::proofs::Limits::link_below), unfolding(crate::specs::Grammar::link_in))]
fn link_of(problem: &Problem, element: u32, value: &Element<'_, '_>) -> Result<usize, TargetFault>
    ensures link { Reads result (link_in problem.now element (view value.now)) }
    ensures below { IfOk result (λ l. l < length problem.now.links) }
{
    let from = end_of(
        TargetKey::From,
        TargetPart::LinkFrom,
        problem,
        element,
        value,
    )?;
    let to = end_of(TargetKey::To, TargetPart::LinkTo, problem, element, value)?;
    match problem.find_link(from, to) {
        Some(link) => Ok(link as usize),
        None => Err(TargetFault::At(
            TargetPlace::at(TargetPart::Link, element),
            Wrong::NoSuchLink,
        )),
    }
}

/// The switch at one of these ends.
#[tactic(auto, using(crate::proofs::Steps::steps), unfolding(crate::specs::Grammar::end_of))]
fn end_of(
    key: TargetKey,
    part: TargetPart,
    problem: &Problem,
    element: u32,
    value: &Element<'_, '_>,
) -> Result<u32, TargetFault>
    ensures { Reads result (end_of key part problem.now element (view value.now)) }
{
    let place = TargetPlace::at(part, element);
    let at = member(TargetPlace::at(TargetPart::Link, element), key, value)?;
    let name = text_of(place, &at)?;
    problem
        .find_switch(name)
        .ok_or(TargetFault::At(place, Wrong::UnknownSwitch))
}
