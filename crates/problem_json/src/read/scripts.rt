ghost use Rattle.std.specs.Prelude.{◌≡◌, ◌+◌, ◌<◌, ◌≤◌, length, IfOk, OnOk};
ghost use Rattle.serde_json.specs.Data.{item};
ghost use Rattle.serde_json.specs.Events.{items_len};
ghost use Rattle.json_data.specs.View.{view, items_view};
ghost use Rattle.rollout_rules.specs.declared.limits.TheConstants.{MOST_ACTS};
ghost use Rattle.problem_json.specs.GrammarResults.{Reads, ReadsAs, Leaves, add_each};
ghost use Rattle.problem_json.specs.GrammarScripts.{largest_number, plain_act, numbered_act, crash_act, word_in, count_in, plain_event, crash_in, numbered_in, event_with, event_of_parts, event_in, with_one_event, script_of};

use crate::fault::InputFault;
use crate::key::Key;
use crate::place::{Part, Place};
use crate::read::values::{list_of, number};
use json_data::{Element, Elements};
use rollout_rules::{Act, MOST_ACTS, Script};
use std::alloc::Global;

/// The script in the object of a document.
#[tactic(auto, using(crate::proofs::Steps::steps), unfolding(crate::specs::GrammarScripts::script_of))]
pub(super) fn script_of(alloc: Global, value: &Element<'_, '_>) -> Result<Script, InputFault>
    ensures { Reads result (script_of (view value.now)) }
{
    let object = Place::of(Part::Top);
    let place = Place::of(Part::ScriptTop);
    let events = list_of(object, Key::Script, place, MOST_ACTS, value)?;
    let mut script = Script::new(alloc);
    add_events(&mut script, events)?;
    Ok(script)
}

#[tactic(auto, using(crate::proofs::Steps::steps))]
fn add_events(script: &mut Script, events: Elements<'_, '_>) -> Result<(), InputFault>
    requires { length script.old + items_len (items_view events) ≤ MOST_ACTS }
    ensures { Leaves result script.new
        (add_each with_one_event (items_view events.entry) script.old) }
{
    let mut left = events;
    'each: while let Some(event) = left.next() {
        add_event(script, &event)?;
    }
    Ok(())
}

#[tactic(auto, using(crate::proofs::Steps::steps), unfolding(crate::specs::GrammarScripts::with_one_event))]
fn add_event(script: &mut Script, value: &Element<'_, '_>) -> Result<(), InputFault>
    requires { length script.old < MOST_ACTS }
    ensures added { Leaves result script.new (with_one_event (view value.now) script.old) }
    ensures longer { OnOk result (length script.new ≡ length script.old + 1) }
{
    let event = Place::at(Part::Event, script.as_slice().len() as u32);
    let act = event_of(event, value)?;
    script.push(act)?;
    Ok(())
}

/// The act that an event is.
#[tactic(auto, using(crate::proofs::Steps::steps), unfolding(crate::specs::GrammarScripts::event_in))]
fn event_of(event: Place, value: &Element<'_, '_>) -> Result<Act, InputFault>
    ensures { Reads result (event_in event (view value.now)) }
{
    let parts = value.as_array().ok_or(InputFault::WrongKind(event))?;
    event_of_parts(event, parts)
}

#[tactic(auto, using(crate::proofs::Events::no_part, crate::proofs::Events::some_parts))]
fn event_of_parts(event: Place, parts: Elements<'_, '_>) -> Result<Act, InputFault>
    ensures { Reads result (event_of_parts event (items_view parts.entry)) }
{
    let mut rest = parts;
    match rest.next() {
        Some(name) => event_named(event, &name, rest),
        None => Err(InputFault::BadEvent(event)),
    }
}

/// The act of a name with the parts after it.
#[tactic(auto, using(crate::proofs::Events::alone, crate::proofs::Events::with_parts))]
fn event_named(
    event: Place,
    name: &Element<'_, '_>,
    rest: Elements<'_, '_>,
) -> Result<Act, InputFault>
    ensures { Reads result (event_of_parts event (item (view name.now) (items_view rest.entry))) }
{
    let mut left = rest;
    match left.next() {
        Some(second) => event_of_two(event, name, &second, left),
        None => plain_event(event, name),
    }
}

/// The act of a name and one part more, where none is left.
#[tactic(auto, using(crate::proofs::Events::two))]
fn event_of_two(
    event: Place,
    name: &Element<'_, '_>,
    second: &Element<'_, '_>,
    rest: Elements<'_, '_>,
) -> Result<Act, InputFault>
    ensures { Reads result
        (event_of_parts event
        (item (view name.now) (item (view second.now) (items_view rest.entry)))) }
{
    let mut left = rest;
    match left.next() {
        Some(_) => Err(InputFault::BadEvent(event)),
        None => event_with(event, name, second),
    }
}

/// A part that is a text.
#[tactic(auto, unfolding(crate::specs::GrammarScripts::word_in))]
fn word<'a>(event: Place, value: &Element<'_, 'a>) -> Result<&'a str, InputFault>
    ensures { ReadsAs (λ s. s.now) result (word_in event (view value.now)) }
{
    value.as_str().ok_or(InputFault::BadEvent(event))
}

/// A part that is the number of a command or an answer.
#[tactic(auto, unfolding(crate::specs::GrammarScripts::count_in))]
fn count(event: Place, value: &Element<'_, '_>) -> Result<u64, InputFault>
    ensures number { Reads result (count_in event (view value.now)) }
    ensures most { IfOk result (λ n. n ≤ largest_number) }
{
    if value.as_number().is_none() {
        return Err(InputFault::BadEvent(event));
    }
    number(event, u64::from(u32::MAX), value)
}

/// An event that its name says alone.
#[tactic(auto, using(crate::proofs::Steps::steps), unfolding(crate::specs::GrammarScripts::plain_event))]
fn plain_event(event: Place, name: &Element<'_, '_>) -> Result<Act, InputFault>
    ensures { Reads result (plain_event event (view name.now)) }
{
    let name = word(event, name)?;
    plain_act(name).ok_or(InputFault::BadEvent(event))
}

fn plain_act(name: &str) -> Option<Act>
    ensures { result ≡ plain_act name.now }
{
    match name {
        "round" => Some(Act::Round),
        "all" => Some(Act::All),
        "stop" => Some(Act::Stop),
        "start" => Some(Act::Start),
        _ => None,
    }
}

/// An event of a name and one part more.
#[tactic(auto, using(crate::proofs::Steps::steps), unfolding(crate::specs::GrammarScripts::event_with))]
fn event_with(
    event: Place,
    name: &Element<'_, '_>,
    second: &Element<'_, '_>,
) -> Result<Act, InputFault>
    ensures { Reads result (event_with event (view name.now) (view second.now)) }
{
    let name = word(event, name)?;
    if name == "crash" {
        return crash_of(event, second);
    }
    numbered_of(event, name, second)
}

#[tactic(auto, using(crate::proofs::Steps::steps), unfolding(crate::specs::GrammarScripts::crash_in))]
fn crash_of(event: Place, batch: &Element<'_, '_>) -> Result<Act, InputFault>
    ensures { Reads result (crash_in event (view batch.now)) }
{
    let batch = word(event, batch)?;
    crash_act(batch).ok_or(InputFault::BadEvent(event))
}

fn crash_act(batch: &str) -> Option<Act>
    ensures { result ≡ crash_act batch.now }
{
    match batch {
        "lost" => Some(Act::CrashLost),
        "kept" => Some(Act::CrashKept),
        _ => None,
    }
}

#[tactic(auto, using(crate::proofs::Steps::steps), unfolding(crate::specs::GrammarScripts::numbered_in))]
fn numbered_of(event: Place, name: &str, value: &Element<'_, '_>) -> Result<Act, InputFault>
    ensures { Reads result (numbered_in event name.now (view value.now)) }
{
    if numbered_act(name, 0).is_none() {
        return Err(InputFault::BadEvent(event));
    }
    let number = count(event, value)?;
    numbered_act(name, number as u32).ok_or(InputFault::BadEvent(event))
}

fn numbered_act(name: &str, number: u32) -> Option<Act>
    ensures { result ≡ numbered_act name.now number }
{
    match name {
        "send" => Some(Act::Send(number)),
        "deliver" => Some(Act::Deliver(number)),
        "hand" => Some(Act::Hand(number)),
        _ => None,
    }
}
