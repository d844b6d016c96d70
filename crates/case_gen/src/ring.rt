ghost use Rattle.std.specs.Prelude.{◌≡◌, ℕ, ◌+◌, ◌*◌, ◌<◌, ◌≤◌, [], ◌∷◌, ◌++◌, IfOk, OnOk, length, slice_index};
ghost use Rattle.rollout_rules.specs.Building.{no_problem};
ghost use Rattle.rollout_rules.specs.declared.limits.TheConstants.{MOST_SWITCHES, MOST_FLOWS, LARGEST_TABLE, LARGEST_CAPACITY};
ghost use Rattle.case_gen.specs.Rings.{network, flow_named, first_tunnel, second_tunnel, flows_below, links_below, switches_below, tunnels_below, trip_at, walk};
ghost use Rattle.case_gen.specs.Conditions.{IsRing, IsTrip, AreTrips, AreTables, AreCapacities};

use crate::trip::Trip;
use lists::{Ids, Memory};
use std::alloc::Global;
use wan_model::Problem;

/// A ring with a switch for each table, two links from each switch, and a flow for each trip. Time: the
/// switches, and the lengths of the tunnels.
pub(crate) fn network(
    alloc: Global,
    tables: &[u32],
    capacities: &[u64],
    trips: &[Trip],
) -> Result<Problem, Memory>
    requires tables { AreTables tables.now }
    requires capacities { AreCapacities (length tables.now) capacities.now }
    requires trips { AreTrips (length tables.now) trips.now }
    ensures { IfOk result
        (λ p. p ≡ network (length tables.now) tables.now capacities.now trips.now) }
{
    let mut problem = Problem::new(alloc);
    match fill(alloc, &mut problem, tables, capacities, trips) {
        Ok(()) => Ok(problem),
        Err(refused) => {
            drop(problem);
            Err(refused)
        }
    }
}

fn fill(
    alloc: Global,
    problem: &mut Problem,
    tables: &[u32],
    capacities: &[u64],
    trips: &[Trip],
) -> Result<(), Memory>
    requires empty { problem.old ≡ no_problem }
    requires tables { AreTables tables.now }
    requires capacities { AreCapacities (length tables.now) capacities.now }
    requires trips { AreTrips (length tables.now) trips.now }
    ensures { OnOk result
        (problem.new ≡ network (length tables.now) tables.now capacities.now trips.now) }
{
    add_switches(alloc, problem, tables)?;
    add_links(problem, tables.len() as u32, capacities)?;
    add_flows(alloc, problem, tables.len() as u32, trips)?;
    Ok(())
}

fn add_switches(alloc: Global, problem: &mut Problem, tables: &[u32]) -> Result<(), Memory>
    requires empty { problem.old ≡ no_problem }
    requires tables { AreTables tables.now }
    ensures { OnOk result
        (problem.new
        ≡ record no_problem { switches = switches_below tables.now (length tables.now) }) }
{
    for number in 0..tables.len() {
        let name = format!(in alloc; "s{number}")?;
        problem.add_switch(&name, tables[number])?;
    }
    Ok(())
}

fn add_links(problem: &mut Problem, switches: u32, capacities: &[u64]) -> Result<(), Memory>
    requires bare { problem.old.links ≡ [] }
    requires count { length problem.old.switches ≡ switches }
    requires least { 3 ≤ switches }
    requires most { switches ≤ MOST_SWITCHES }
    requires capacities { AreCapacities switches capacities.now }
    ensures { OnOk result
        (problem.new
        ≡ record problem.old { links = links_below switches capacities.now (2 * switches) }) }
{
    for number in 0..capacities.len() {
        let from = (number / 2) as u32;
        let to = (from + 1 + (number % 2) as u32) % switches;
        problem.add_link(from, to, capacities[number])?;
    }
    Ok(())
}

fn add_flows(
    alloc: Global,
    problem: &mut Problem,
    switches: u32,
    trips: &[Trip],
) -> Result<(), Memory>
    requires ring { IsRing switches problem.old }
    requires no_flows { problem.old.flows ≡ [] }
    requires no_tunnels { problem.old.tunnels ≡ [] }
    requires trips { AreTrips switches trips.now }
    ensures { OnOk result
        (problem.new
        ≡ record problem.old {
          flows = flows_below (length trips.now);
          tunnels = tunnels_below switches trips.now (length trips.now);
        }) }
{
    for number in 0..trips.len() {
        add_flow(alloc, problem, switches, number as u32, &trips[number])?;
    }
    Ok(())
}

// Adds a flow with a tunnel in steps of one switch and a tunnel in steps of two.
fn add_flow(
    alloc: Global,
    problem: &mut Problem,
    switches: u32,
    number: u32,
    trip: &Trip,
) -> Result<(), Memory>
    requires ring { IsRing switches problem.old }
    requires few { number < MOST_FLOWS }
    requires flows { problem.old.flows ≡ flows_below number }
    requires tunnels { length problem.old.tunnels ≡ 2 * number }
    requires trip { IsTrip switches trip.now }
    ensures { OnOk result
        (problem.new
        ≡ record problem.old {
          flows = problem.old.flows ++ flow_named number ∷ [];
          tunnels = problem.old.tunnels
              ++ first_tunnel switches number trip.now
              ∷ second_tunnel switches number trip.now
              ∷ [];
        }) }
{
    let name = format!(in alloc; "f{number}")?;
    problem.add_flow(&name)?;
    let single = walk(alloc, switches, trip.start, 1, 2 * trip.steps)?;
    problem.add_tunnel(single.as_slice(), trip.first.old, trip.first.new, 1)?;
    let double = walk(alloc, switches, trip.start, 2, trip.steps)?;
    problem.add_tunnel(double.as_slice(), trip.second.old, trip.second.new, 1)?;
    Ok(())
}

// The switches that a walk round the ring passes.
fn walk(alloc: Global, switches: u32, start: u32, step: u32, count: u32) -> Result<Ids, Memory>
    requires some { 0 < switches }
    requires starts { start < switches }
    requires steps { step ≤ 2 }
    requires few { count ≤ 16 }
    requires most { switches ≤ MOST_SWITCHES }
    ensures { IfOk result (λ path. path ≡ walk switches start step count) }
{
    let mut path = Ids::new(alloc);
    for j in 0..count + 1 {
        path.push((start + j * step) % switches)?;
    }
    Ok(path)
}
