ghost use Rattle.std.specs.Prelude.{◌≡◌, ℕ, ◌<◌, ◌≤◌, IfOk, IsTrue, OnErr, OnOk, length, slice_index};
ghost use Rattle.rollout_rules.specs.Slack.{has_slack, has_table_room};
ghost use Rattle.rollout_rules.specs.declared.limits.TheConstants.{LARGEST_CAPACITY, LARGEST_TABLE, MOST_FLOWS, MOST_SWITCHES};
ghost use Rattle.rollout_rules.specs.Sums.{list_below};
ghost use Rattle.case_gen.specs.Cases.{after_case, bare_ring, capacity_for, case, fitted_ring, table_for};
ghost use Rattle.case_gen.specs.Conditions.{AreTrips, HasSmallRates};

use crate::draws::Draws;
use crate::needs::{capacities_for, tables_for};
use crate::ring::network;
use crate::trip::{Trip, draw_trips};
use lists::{Memory, Nums};
use std::alloc::Global;
use wan_model::Problem;

/// The case of a trial, made of the next draws, with slack 1/k and table room. An Err is lack of memory, and
/// leaves the draws as they were. Time: the switches, and the lengths of the tunnels.
pub fn make_case(
    alloc: Global,
    k: u32,
    switches: u32,
    flows: u32,
    draws: &mut Draws,
) -> Result<Problem, Memory>
    requires least_k { 2 ≤ k }
    requires most_k { k ≤ 64 }
    requires least_switches { 3 ≤ switches }
    requires most_switches { switches ≤ MOST_SWITCHES }
    requires most_flows { flows ≤ MOST_FLOWS }
    ensures case { IfOk result (λ problem. problem ≡ case k switches flows draws.old) }
    ensures slack { IfOk result (λ problem. IsTrue (has_slack problem k)) }
    ensures room { IfOk result (λ problem. IsTrue (has_table_room problem)) }
    ensures behind { OnOk result (draws.new ≡ after_case flows draws.old) }
    ensures kept { OnErr result (draws.new ≡ draws.old) }
{
    let mut ahead = draws.copied()?;
    let problem = drawn_case(alloc, k, switches, flows, &mut ahead)?;
    *draws = ahead;
    Ok(problem)
}

fn drawn_case(
    alloc: Global,
    k: u32,
    switches: u32,
    flows: u32,
    draws: &mut Draws,
) -> Result<Problem, Memory>
    requires least_k { 2 ≤ k }
    requires most_k { k ≤ 64 }
    requires least_switches { 3 ≤ switches }
    requires most_switches { switches ≤ MOST_SWITCHES }
    requires most_flows { flows ≤ MOST_FLOWS }
    ensures case { IfOk result (λ problem. problem ≡ case k switches flows draws.old) }
    ensures slack { IfOk result (λ problem. IsTrue (has_slack problem k)) }
    ensures room { IfOk result (λ problem. IsTrue (has_table_room problem)) }
    ensures behind { OnOk result (draws.new ≡ after_case flows draws.old) }
{
    let trips = draw_trips(alloc, switches, flows, draws)?;
    fitted_ring(alloc, k, switches, trips.as_slice())
}

// A ring with the capacities and the tables that its trips need, which are counted on the bare ring.
fn fitted_ring(alloc: Global, k: u32, switches: u32, trips: &[Trip]) -> Result<Problem, Memory>
    requires least_k { 2 ≤ k }
    requires most_k { k ≤ 64 }
    requires least { 3 ≤ switches }
    requires most { switches ≤ MOST_SWITCHES }
    requires trips { AreTrips switches trips.now }
    ensures { IfOk result (λ problem. problem ≡ fitted_ring k switches trips.now) }
{
    let bare = bare_ring(alloc, switches, trips)?;
    match needs_of(alloc, k, &bare) {
        Ok(needs) => {
            drop(bare);
            network(
                alloc,
                needs.tables.as_slice(),
                needs.capacities.as_slice(),
                trips,
            )
        }
        Err(refused) => {
            drop(bare);
            Err(refused)
        }
    }
}

// The tables and the capacities that a ring's trips need.
#[derive(Drop)]
struct Needs {
    tables: Vec<u32>,
    capacities: Nums,
}

fn needs_of(alloc: Global, k: u32, problem: &Problem) -> Result<Needs, Memory>
    requires least { 2 ≤ k }
    requires most { k ≤ 64 }
    requires rates { HasSmallRates problem.now }
    requires plain { problem.now.format ≡ 1 }
    ensures tables { IfOk result
        (λ needs. needs.tables.items
        ≡ list_below (length problem.now.switches) (table_for problem.now)) }
    ensures tables_fit { IfOk result
        (λ needs. (w : ℕ)
        → w < length needs.tables.items
        → slice_index needs.tables.items w ≤ LARGEST_TABLE) }
    ensures capacities { IfOk result
        (λ needs. needs.capacities
        ≡ list_below (length problem.now.links) (capacity_for k problem.now)) }
    ensures capacities_fit { IfOk result
        (λ needs. (l : ℕ)
        → l < length needs.capacities
        → slice_index needs.capacities l ≤ LARGEST_CAPACITY) }
{
    let tables = tables_for(alloc, problem)?;
    let capacities = capacities_for(alloc, k, problem)?;
    Ok(Needs { tables, capacities })
}

// The ring on which trips are made, without capacities and tables.
fn bare_ring(alloc: Global, switches: u32, trips: &[Trip]) -> Result<Problem, Memory>
    requires least { 3 ≤ switches }
    requires most { switches ≤ MOST_SWITCHES }
    requires trips { AreTrips switches trips.now }
    ensures { IfOk result (λ problem. problem ≡ bare_ring switches trips.now) }
{
    let tables = vec![in alloc; 0u32; switches as usize]?;
    let capacities = vec![in alloc; 0u64; 2 * switches as usize]?;
    network(alloc, tables.as_slice(), capacities.as_slice(), trips)
}
