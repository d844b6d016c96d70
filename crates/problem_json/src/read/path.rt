ghost use Rattle.std.specs.Prelude.{◌≡◌, ◌+◌, ◌<◌, ◌≤◌, ◌==◌, length, IfOk, OnOk};
ghost use Rattle.std.specs.List.{list_any};
ghost use Rattle.serde_json.specs.Events.{items_len};
ghost use Rattle.json_data.specs.View.{view, items_view};
ghost use Rattle.rollout_rules.specs.declared.limits.TheConstants.{MOST_HOPS};
ghost use Rattle.rollout_rules.specs.Building.{IsRoute, last_flow};
ghost use Rattle.problem_json.specs.GrammarResults.{Reads, Leaves, add_each};
ghost use Rattle.problem_json.specs.GrammarNetwork.{of_tunnel, of_hop, with_one_hop, leads_on, path_of};

use crate::fault::InputFault;
use crate::key::Key;
use crate::place::{Part, Place};
use crate::read::topology::switch_named;
use crate::read::values::list_of;
use json_data::{Element, Elements};
use lists::Ids;
use rollout_rules::MOST_HOPS;
use std::alloc::Global;
use wan_model::Problem;

/// A path joins two switches or more.
const LEAST_HOPS: usize = 2;

/// A part of the tunnel that is added next to the last flow.
#[tactic(auto)]
pub(super) fn of_tunnel(part: Part, problem: &Problem) -> Place
    requires { 0 < length problem.now.flows }
    ensures { result ≡ of_tunnel part problem.now }
{
    let flows = problem.flows();
    let last = flows.len() - 1;
    let flow = &flows[last];
    Place::within(part, last as u32, flow.tunnels)
}

/// The name that is added next to the path of that tunnel.
fn of_hop(problem: &Problem, path: &Ids) -> Place
    requires some_flow { 0 < length problem.now.flows }
    requires room { length path.now < MOST_HOPS }
    ensures { result ≡ of_hop problem.now path.now }
{
    let tunnel = of_tunnel(Part::PathName, problem);
    Place::along(
        tunnel.part,
        tunnel.a,
        tunnel.b,
        path.as_slice().len() as u32,
    )
}

/// The path of a tunnel: switches by their numbers, each joined to the next by a link.
#[tactic(auto, using(crate::proofs::Steps::steps, crate::proofs::Routes::route_none), unfolding(crate::specs::GrammarNetwork::path_of))]
pub(super) fn path_of(
    alloc: Global,
    problem: &Problem,
    value: &Element<'_, '_>,
) -> Result<Ids, InputFault>
    requires { 0 < length problem.now.flows }
    ensures path { Reads result (path_of problem.now (view value.now)) }
    ensures route { IfOk result (λ path. IsRoute problem.now path) }
    ensures least { IfOk result (λ path. 2 ≤ length path) }
{
    let object = of_tunnel(Part::Tunnel, problem);
    let place = of_tunnel(Part::Path, problem);
    let names = list_of(object, Key::Path, place, MOST_HOPS, value)?;
    if names.len() < LEAST_HOPS {
        return Err(InputFault::ShortPath(place, names.len() as u64));
    }
    let mut path = Ids::new(alloc);
    add_hops(problem, names, &mut path)?;
    Ok(path)
}

#[tactic(auto, using(crate::proofs::Steps::steps))]
fn add_hops(problem: &Problem, names: Elements<'_, '_>, path: &mut Ids) -> Result<(), InputFault>
    requires some_flow { 0 < length problem.now.flows }
    requires room { length path.old + items_len (items_view names) ≤ MOST_HOPS }
    requires route { IsRoute problem.now path.old }
    ensures hops { Leaves result path.new
        (add_each (with_one_hop problem.now) (items_view names.entry) path.old) }
    ensures route { OnOk result (IsRoute problem.now path.new) }
    ensures longer { OnOk result
        (length path.new ≡ length path.old + items_len (items_view names.entry)) }
{
    let mut left = names;
    'each: while let Some(name) = left.next() {
        add_hop(problem, &name, path)?;
    }
    Ok(())
}

/// Adds a switch to a path.
#[tactic(auto, using(crate::proofs::Steps::steps, crate::proofs::Routes::route_more), unfolding(crate::specs::GrammarNetwork::with_one_hop))]
fn add_hop(problem: &Problem, value: &Element<'_, '_>, path: &mut Ids) -> Result<(), InputFault>
    requires some_flow { 0 < length problem.now.flows }
    requires room { length path.old < MOST_HOPS }
    requires route { IsRoute problem.now path.old }
    ensures hop { Leaves result path.new (with_one_hop problem.now (view value.now) path.old) }
    ensures route { OnOk result (IsRoute problem.now path.new) }
    ensures longer { OnOk result (length path.new ≡ length path.old + 1) }
{
    let place = of_hop(problem, path);
    let next = switch_named(place, problem, value)?;
    if passes(path, next) {
        return Err(InputFault::SwitchTwice(place));
    }
    if !leads_on(problem, path, next) {
        return Err(InputFault::NoSuchLink(place));
    }
    path.push(next)?;
    Ok(())
}

fn passes(path: &Ids, switch: u32) -> bool
    ensures { result ≡ list_any (λ s. s == switch) path.now }
{
    path.as_slice().contains(&switch)
}

/// Whether a path may go on to a switch.
fn leads_on(problem: &Problem, path: &Ids, next: u32) -> bool
    ensures { result ≡ leads_on problem.now path.now next }
{
    match path.as_slice().last() {
        None => true,
        Some(last) => problem.find_link(*last, next).is_some(),
    }
}
