ghost use Rattle.std.specs.Prelude.{◌≡◌, ◌+◌, ◌<◌, length, IfOk, OnOk};
ghost use Rattle.json_data.specs.View.{view};
ghost use Rattle.rollout_rules.specs.declared.limits.TheConstants.{MOST_SWITCHES, MOST_LINKS};
ghost use Rattle.problem_json.specs.GrammarResults.{Reads, Leaves};
ghost use Rattle.problem_json.specs.GrammarNetwork.{with_one_switch, with_one_link, switch_named, end_of};

use crate::fault::InputFault;
use crate::key::Key;
use crate::place::{Part, Place};
use crate::read::values::{member, name_of, number_of, text_of};
use json_data::Element;
use rollout_rules::{LARGEST_CAPACITY, LARGEST_TABLE};
use wan_model::Problem;

/// Adds a switch.
#[tactic(auto, using(crate::proofs::Steps::steps), unfolding(crate::specs::GrammarNetwork::with_one_switch))]
pub(super) fn add_switch(problem: &mut Problem, value: &Element<'_, '_>) -> Result<(), InputFault>
    requires { length problem.old.switches < MOST_SWITCHES }
    ensures added { Leaves result problem.new (with_one_switch (view value.now) problem.old) }
    ensures switches { OnOk result (length problem.new.switches ≡ length problem.old.switches + 1) }
    ensures links { problem.new.links ≡ problem.old.links }
    ensures flows { problem.new.flows ≡ problem.old.flows }
{
    let number = problem.switches().len() as u32;
    let object = Place::at(Part::Switch, number);
    let named = Place::at(Part::SwitchName, number);
    let sized = Place::at(Part::SwitchTable, number);
    let name = name_of(object, named, value)?;
    if problem.find_switch(name).is_some() {
        return Err(InputFault::NameTwice(named));
    }
    let table = number_of(object, Key::Table, sized, u64::from(LARGEST_TABLE), value)?;
    problem.add_switch(name, table as u32)?;
    Ok(())
}

/// The switch that a text names.
#[tactic(auto, using(crate::proofs::Steps::steps, crate::proofs::Found::found_below), unfolding(crate::specs::GrammarNetwork::switch_named))]
pub(super) fn switch_named(
    place: Place,
    problem: &Problem,
    value: &Element<'_, '_>,
) -> Result<u32, InputFault>
    ensures switch { Reads result (switch_named place problem.now (view value.now)) }
    ensures below { IfOk result (λ w. w < length problem.now.switches) }
{
    let name = text_of(place, value)?;
    problem
        .find_switch(name)
        .ok_or(InputFault::UnknownSwitch(place))
}

/// The switch that the object of a new link names at a key.
#[tactic(auto, using(crate::proofs::Steps::steps), unfolding(crate::specs::GrammarNetwork::end_of))]
fn end_of(
    key: Key,
    part: Part,
    problem: &Problem,
    value: &Element<'_, '_>,
) -> Result<u32, InputFault>
    requires { length problem.now.links < MOST_LINKS }
    ensures switch { Reads result (end_of key part problem.now (view value.now)) }
    ensures below { IfOk result (λ w. w < length problem.now.switches) }
{
    let number = problem.links().len() as u32;
    let object = Place::at(Part::Link, number);
    let place = Place::at(part, number);
    switch_named(place, problem, &member(object, key, value)?)
}

/// Adds a link.
#[tactic(auto, using(crate::proofs::Steps::steps), unfolding(crate::specs::GrammarNetwork::with_one_link))]
pub(super) fn add_link(problem: &mut Problem, value: &Element<'_, '_>) -> Result<(), InputFault>
    requires { length problem.old.links < MOST_LINKS }
    ensures added { Leaves result problem.new (with_one_link (view value.now) problem.old) }
    ensures links { OnOk result (length problem.new.links ≡ length problem.old.links + 1) }
    ensures flows { problem.new.flows ≡ problem.old.flows }
{
    let number = problem.links().len() as u32;
    let object = Place::at(Part::Link, number);
    let carrying = Place::at(Part::LinkCapacity, number);
    let from = end_of(Key::From, Part::LinkFrom, problem, value)?;
    let to = end_of(Key::To, Part::LinkTo, problem, value)?;
    let capacity = number_of(object, Key::Capacity, carrying, LARGEST_CAPACITY, value)?;
    if problem.find_link(from, to).is_some() {
        return Err(InputFault::LinkTwice(object));
    }
    problem.add_link(from, to, capacity)?;
    Ok(())
}
