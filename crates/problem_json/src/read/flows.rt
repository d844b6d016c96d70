ghost use Rattle.std.specs.Prelude.{◌≡◌, ◌+◌, ◌-◌, ◌<◌, ◌≤◌, ◌==◌, ◌&&◌, length, slice_index, OnOk};
ghost use Rattle.serde_json.specs.Events.{items_len};
ghost use Rattle.json_data.specs.View.{view, items_view};
ghost use Rattle.rollout_rules.specs.declared.limits.TheConstants.{MOST_FLOWS, MOST_TUNNELS, MOST_TUNNELS_OF_FLOW};
ghost use Rattle.rollout_rules.specs.Building.{has_ends, last_flow};
ghost use Rattle.problem_json.specs.GrammarResults.{Leaves, add_each};
ghost use Rattle.problem_json.specs.GrammarNetwork.{with_one_flow, with_one_tunnel};
ghost use Rattle.problem_json.specs.GrammarGrowth.{tunnels_of_last, HasMoreTunnels};

use crate::fault::InputFault;
use crate::key::Key;
use crate::place::{Part, Place};
use crate::read::path::{of_tunnel, path_of};
use crate::read::values::{list_of, name_of, rate_of, width_of};
use json_data::{Element, Elements};
use lists::Ids;
use rollout_rules::{MOST_TUNNELS, MOST_TUNNELS_OF_FLOW};
use std::alloc::Global;
use wan_model::Problem;

/// Adds a flow with its tunnels.
#[tactic(auto, using(crate::proofs::Steps::steps, crate::proofs::Growth::flow_starts, crate::proofs::Growth::flow_more), unfolding(crate::specs::GrammarNetwork::with_one_flow))]
pub(super) fn add_flow(
    alloc: Global,
    problem: &mut Problem,
    value: &Element<'_, '_>,
) -> Result<(), InputFault>
    requires { length problem.old.flows < MOST_FLOWS }
    ensures added { Leaves result problem.new (with_one_flow (view value.now) problem.old) }
    ensures flows { OnOk result (length problem.new.flows ≡ length problem.old.flows + 1) }
{
    let number = problem.flows().len() as u32;
    let object = Place::at(Part::Flow, number);
    let named = Place::at(Part::FlowName, number);
    let place = Place::at(Part::Tunnels, number);
    let name = name_of(object, named, value)?;
    if problem.find_flow(name).is_some() {
        return Err(InputFault::NameTwice(named));
    }
    let most = MOST_TUNNELS_OF_FLOW as usize;
    let tunnels = list_of(object, Key::Tunnels, place, most, value)?;
    let all = problem.tunnels().len() + tunnels.len();
    if all > MOST_TUNNELS {
        return Err(InputFault::TooMany(place, all as u64, MOST_TUNNELS as u64));
    }
    problem.add_flow(name)?;
    add_tunnels(alloc, problem, tunnels)
}

/// Adds tunnels to the last flow, in which there is room for them.
#[tactic(auto, using(crate::proofs::Steps::steps, crate::proofs::Growth::grows_on))]
fn add_tunnels(
    alloc: Global,
    problem: &mut Problem,
    tunnels: Elements<'_, '_>,
) -> Result<(), InputFault>
    requires some_flow { 0 < length problem.old.flows }
    requires few { tunnels_of_last problem.old + items_len (items_view tunnels)
        ≤ MOST_TUNNELS_OF_FLOW }
    requires room { length problem.old.tunnels + items_len (items_view tunnels) ≤ MOST_TUNNELS }
    ensures added { Leaves result problem.new
        (add_each with_one_tunnel (items_view tunnels.entry) problem.old) }
    ensures grown { OnOk result
        (HasMoreTunnels problem.old problem.new (items_len (items_view tunnels.entry))) }
{
    let mut left = tunnels;
    'each: while let Some(tunnel) = left.next() {
        add_tunnel(alloc, problem, &tunnel)?;
    }
    Ok(())
}

/// Adds a tunnel to the last flow.
#[tactic(auto, using(crate::proofs::Steps::steps, crate::proofs::Growth::tunnel_grows), unfolding(crate::specs::GrammarNetwork::with_one_tunnel))]
fn add_tunnel(
    alloc: Global,
    problem: &mut Problem,
    value: &Element<'_, '_>,
) -> Result<(), InputFault>
    requires some_flow { 0 < length problem.old.flows }
    requires few { tunnels_of_last problem.old < MOST_TUNNELS_OF_FLOW }
    requires room { length problem.old.tunnels < MOST_TUNNELS }
    ensures added { Leaves result problem.new (with_one_tunnel (view value.now) problem.old) }
    ensures grown { OnOk result (HasMoreTunnels problem.old problem.new 1) }
{
    let object = of_tunnel(Part::Tunnel, problem);
    let path = path_of(alloc, problem, value)?;
    if !has_ends(problem, &path) {
        return Err(InputFault::EndsDiffer(object));
    }
    let old = rate_of(object, Key::Old, of_tunnel(Part::Old, problem), value)?;
    let new = rate_of(object, Key::New, of_tunnel(Part::New, problem), value)?;
    let widened = of_tunnel(Part::Width, problem);
    let width = width_of(object, widened, problem.format(), value)?;
    problem.add_tunnel(path.as_slice(), old, new, width)?;
    Ok(())
}

/// Whether a path has the ends of the last flow's first tunnel, where there is one.
#[tactic(auto, using(crate::proofs::Growth::first_stands, crate::proofs::Growth::path_stands))]
fn has_ends(problem: &Problem, path: &Ids) -> bool
    requires some_flow { 0 < length problem.now.flows }
    requires least { 2 ≤ length path.now }
    ensures { result ≡ has_ends problem.now (last_flow problem.now) path.now }
{
    let flows = problem.flows();
    let flow = &flows[flows.len() - 1];
    if flow.tunnels == 0 {
        return true;
    }
    let first = &problem.tunnels()[flow.first as usize];
    have_same_ends(path.as_slice(), first.path.as_slice())
}

fn have_same_ends(path: &[u32], other: &[u32]) -> bool
    requires path { 2 ≤ length path.now }
    requires other { 2 ≤ length other.now }
    ensures { result ≡ (slice_index path.now 0 == slice_index other.now 0)
        && (slice_index path.now (length path.now - 1)
        == slice_index other.now (length other.now - 1)) }
{
    path[0] == other[0] && path[path.len() - 1] == other[other.len() - 1]
}
