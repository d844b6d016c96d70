ghost use Rattle.std.specs.Prelude.{◌≡◌, ◌+◌, ◌≤◌, length, IfOk, OnOk, Ok};
ghost use Rattle.serde_json.specs.Events.{items_len};
ghost use Rattle.json_data.specs.View.{data_of, view, items_view};
ghost use Rattle.rollout_rules.specs.declared.limits.TheConstants.{MOST_SWITCHES, MOST_LINKS, MOST_FLOWS};
ghost use Rattle.problem_json.specs.GrammarResults.{Reads, ReadsAs, Leaves, add_each};
ghost use Rattle.problem_json.specs.GrammarNetwork.{with_one_switch, with_one_link, with_one_flow};
ghost use Rattle.problem_json.specs.Places.{place_of};
ghost use Rattle.problem_json.specs.declared.key.Key.TheVariants as key;
ghost use Rattle.problem_json.specs.declared.place.Part.TheVariants as part;
ghost use Rattle.problem_json.specs.Grammar.{with_list, empty_in, empty_of, data_in, problem_of, problem_in};

mod documents;
mod flows;
mod least;
mod path;
mod plans;
mod scripts;
mod topology;
mod values;

use crate::fault::InputFault;
use crate::key::Key;
use crate::place::{Part, Place};
use crate::read::flows::add_flow;
use crate::read::topology::{add_link, add_switch};
use crate::read::values::{list_of, whole};
pub use documents::{Document, Scripted, read_document, read_script};
use json_data::{DataFault, Element, Elements, Scratch};
pub use least::read_claimed;
use rollout_rules::{MOST_FLOWS, MOST_LINKS, MOST_SWITCHES};
use std::alloc::Global;
use wan_model::Problem;

/// Reads a problem: an object of `switches`, `links` and `flows`, in the keys and limits of its grammar.
///
/// Unknown keys are passed over, and of equal keys the last counts (RFC 8259 leaves that open).
///
/// # Errors
///
/// [`InputFault::NotJson`] where the bytes aren't UTF-8 or aren't one JSON value, [`InputFault::Memory`]
/// where memory runs out, and else the fault of the first place that the grammar refuses.
#[tactic(auto, using(crate::proofs::Steps::steps), unfolding(crate::specs::Grammar::problem_in))]
pub fn read_problem(alloc: Global, bytes: &[u8]) -> Result<Problem, InputFault>
    ensures { Reads result (problem_in bytes.now) }
{
    let mut scratch = Scratch::new(alloc);
    let data = read_data(alloc, bytes, &mut scratch)?;
    problem_of(alloc, Place::of(Part::Top), &data.root())
}

#[tactic(auto, using(crate::proofs::Text::data_read, crate::proofs::Text::data_refused))]
fn read_data<'a>(
    alloc: Global,
    bytes: &'a [u8],
    scratch: &'a mut Scratch,
) -> Result<json_data::Document<'a>, InputFault>
    ensures { ReadsAs data_of result (data_in bytes.now) }
{
    match json_data::Document::read(alloc, bytes, scratch) {
        Ok(data) => Ok(data),
        Err(DataFault::Memory) => Err(InputFault::Memory),
        Err(DataFault::NotJson) => Err(InputFault::NotJson),
    }
}

#[tactic(auto, using(crate::proofs::Steps::steps), unfolding(crate::specs::Grammar::problem_of))]
fn problem_of(alloc: Global, object: Place, value: &Element<'_, '_>) -> Result<Problem, InputFault>
    ensures { Reads result (problem_of object (view value.now)) }
{
    let mut problem = empty_of(alloc, value)?;
    match read_parts(alloc, &mut problem, object, value) {
        Ok(()) => Ok(problem),
        Err(fault) => {
            drop(problem);
            Err(fault)
        }
    }
}

/// Adds the switches, links and flows of an object to the problem without them.
#[tactic(auto, using(crate::proofs::Steps::steps), unfolding(crate::specs::Grammar::problem_of))]
fn read_parts(
    alloc: Global,
    problem: &mut Problem,
    object: Place,
    value: &Element<'_, '_>,
) -> Result<(), InputFault>
    requires empty { empty_of (view value.now) ≡ Ok problem.old }
    requires switches { length problem.old.switches ≡ 0 }
    requires links { length problem.old.links ≡ 0 }
    requires flows { length problem.old.flows ≡ 0 }
    ensures { Leaves result problem.new (problem_of object (view value.now)) }
{
    read_switches(problem, object, value)?;
    read_links(problem, object, value)?;
    read_flows(alloc, problem, object, value)
}

/// The problem without switches, links and flows, in the format that an object names, or in format 1.
#[tactic(auto, using(crate::proofs::Steps::steps), unfolding(crate::specs::Grammar::empty_of, crate::specs::Grammar::empty_of_format))]
fn empty_of(alloc: Global, value: &Element<'_, '_>) -> Result<Problem, InputFault>
    ensures empty { Reads result (empty_of (view value.now)) }
    ensures switches { IfOk result (λ p. length p.switches ≡ 0) }
    ensures links { IfOk result (λ p. length p.links ≡ 0) }
    ensures flows { IfOk result (λ p. length p.flows ≡ 0) }
{
    let Some(format) = value.get(Key::Format.as_str()) else {
        return Ok(Problem::new(alloc));
    };
    empty_in(alloc, whole(Place::of(Part::Format), &format)?)
}

#[tactic(auto, unfolding(crate::specs::Grammar::empty_in))]
fn empty_in(alloc: Global, format: u64) -> Result<Problem, InputFault>
    ensures empty { Reads result (empty_in format) }
    ensures switches { IfOk result (λ p. length p.switches ≡ 0) }
    ensures links { IfOk result (λ p. length p.links ≡ 0) }
    ensures flows { IfOk result (λ p. length p.flows ≡ 0) }
{
    match format {
        1 => Ok(Problem::new(alloc)),
        2 => Ok(Problem::new_wide(alloc)),
        _ => Err(InputFault::BadFormat(Place::of(Part::Format), format)),
    }
}

#[tactic(auto, using(crate::proofs::Steps::steps), unfolding(crate::specs::Grammar::with_list))]
fn read_switches(
    problem: &mut Problem,
    object: Place,
    value: &Element<'_, '_>,
) -> Result<(), InputFault>
    requires { length problem.old.switches ≡ 0 }
    ensures added { Leaves result problem.new
        (with_list object key.Switches (place_of part.Switches) MOST_SWITCHES with_one_switch
        (view value.now) problem.old) }
    ensures links { problem.new.links ≡ problem.old.links }
    ensures flows { problem.new.flows ≡ problem.old.flows }
{
    let switches = list_of(
        object,
        Key::Switches,
        Place::of(Part::Switches),
        MOST_SWITCHES,
        value,
    )?;
    add_switches(problem, switches)
}

#[tactic(auto, using(crate::proofs::Steps::steps))]
fn add_switches(problem: &mut Problem, switches: Elements<'_, '_>) -> Result<(), InputFault>
    requires { length problem.old.switches + items_len (items_view switches) ≤ MOST_SWITCHES }
    ensures added { Leaves result problem.new
        (add_each with_one_switch (items_view switches.entry) problem.old) }
    ensures links { problem.new.links ≡ problem.old.links }
    ensures flows { problem.new.flows ≡ problem.old.flows }
{
    let mut left = switches;
    'each: while let Some(switch) = left.next() {
        add_switch(problem, &switch)?;
    }
    Ok(())
}

#[tactic(auto, using(crate::proofs::Steps::steps), unfolding(crate::specs::Grammar::with_list))]
fn read_links(
    problem: &mut Problem,
    object: Place,
    value: &Element<'_, '_>,
) -> Result<(), InputFault>
    requires { length problem.old.links ≡ 0 }
    ensures added { Leaves result problem.new
        (with_list object key.Links (place_of part.Links) MOST_LINKS with_one_link (view value.now)
        problem.old) }
    ensures flows { problem.new.flows ≡ problem.old.flows }
{
    let links = list_of(
        object,
        Key::Links,
        Place::of(Part::Links),
        MOST_LINKS,
        value,
    )?;
    add_links(problem, links)
}

#[tactic(auto, using(crate::proofs::Steps::steps))]
fn add_links(problem: &mut Problem, links: Elements<'_, '_>) -> Result<(), InputFault>
    requires { length problem.old.links + items_len (items_view links) ≤ MOST_LINKS }
    ensures added { Leaves result problem.new
        (add_each with_one_link (items_view links.entry) problem.old) }
    ensures flows { problem.new.flows ≡ problem.old.flows }
{
    let mut left = links;
    'each: while let Some(link) = left.next() {
        add_link(problem, &link)?;
    }
    Ok(())
}

#[tactic(auto, using(crate::proofs::Steps::steps), unfolding(crate::specs::Grammar::with_list))]
fn read_flows(
    alloc: Global,
    problem: &mut Problem,
    object: Place,
    value: &Element<'_, '_>,
) -> Result<(), InputFault>
    requires { length problem.old.flows ≡ 0 }
    ensures { Leaves result problem.new
        (with_list object key.Flows (place_of part.Flows) MOST_FLOWS with_one_flow (view value.now)
        problem.old) }
{
    let flows = list_of(
        object,
        Key::Flows,
        Place::of(Part::Flows),
        MOST_FLOWS,
        value,
    )?;
    add_flows(alloc, problem, flows)
}

#[tactic(auto, using(crate::proofs::Steps::steps))]
fn add_flows(
    alloc: Global,
    problem: &mut Problem,
    flows: Elements<'_, '_>,
) -> Result<(), InputFault>
    requires { length problem.old.flows + items_len (items_view flows) ≤ MOST_FLOWS }
    ensures { Leaves result problem.new
        (add_each with_one_flow (items_view flows.entry) problem.old) }
{
    let mut left = flows;
    'each: while let Some(flow) = left.next() {
        add_flow(alloc, problem, &flow)?;
    }
    Ok(())
}
