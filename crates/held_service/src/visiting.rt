//! The switches of a rollout are asked, one after the other.
ghost use Rattle.std.specs.Prelude.{◌≡◌, ℕ, ◌<◌, ◌≤◌, length, true, IsErrOf};
ghost use Rattle.switch_ports.specs.Berths.{ports_of};
ghost use Rattle.wan_edge.specs.Streams.{Rose};
ghost use Rattle.wan_edge.specs.Fleets.{GuestsStay};
ghost use Rattle.held_service.specs.Noting.{no_notes};
ghost use Rattle.held_service.specs.Talks.{EndsTalk};
ghost use Rattle.held_service.specs.Visits.{AsksEach, AsksOne, Keeps, Visits};

use crate::NotTold;
use crate::asking::ask_port;
use crate::homes::items_at;
use rollout_rules::Held;
use std::alloc::Global;
use wan_edge::{Failed, Fleet};
use wan_model::Problem;

/// Asks each switch that is the home of an item with an operation, from number 0 up, by questions of a migration.
/// Each port is asked for by the problem's name, and given back before the next one is.
pub(crate) fn ask_each<F: Fleet>(
    alloc: Global,
    fleet: &mut F,
    problem: &Problem,
    homes: &[Option<u32>],
    count: u32,
    migration: u32,
    rounds: u32,
    notes: &mut [Option<Held>],
) -> Result<(), NotTold>
    requires count { count ≡ length homes.now }
    requires none { notes.old ≡ no_notes (length homes.now) }
    ensures asks { AsksEach result F.Port.told problem.now homes.now migration rounds
        (ports_of (F.told fleet.old)) notes.new (ports_of (F.told fleet.new)) }
    ensures guests { GuestsStay (F.told fleet.old) (F.told fleet.new) }
    ensures cause { (w : ℕ)
        → IsErrOf result (NotTold.NoPort w)
        → Rose (F.told fleet.old).faults (F.told fleet.new).faults }
    ensures count { (F.told fleet.old).faults ≤ (F.told fleet.new).faults }
{
    for switch in 0..problem.switches().len() as u32 {
        ask_one(
            alloc, fleet, problem, homes, count, switch, migration, rounds, notes,
        )?;
    }
    Ok(())
}

// Asks a switch about all of its items, where it is asked about any.
fn ask_one<F: Fleet>(
    alloc: Global,
    fleet: &mut F,
    problem: &Problem,
    homes: &[Option<u32>],
    count: u32,
    switch: u32,
    migration: u32,
    rounds: u32,
    notes: &mut [Option<Held>],
) -> Result<(), NotTold>
    requires count { count ≡ length homes.now }
    requires rows { length notes.old ≡ length homes.now }
    requires inside { switch < length problem.now.switches }
    ensures asks { AsksOne result F.Port.told problem.now homes.now switch notes.old migration
        rounds (ports_of (F.told fleet.old)) notes.new (ports_of (F.told fleet.new)) }
    ensures guests { GuestsStay (F.told fleet.old) (F.told fleet.new) }
    ensures cause { (w : ℕ)
        → IsErrOf result (NotTold.NoPort w)
        → Rose (F.told fleet.old).faults (F.told fleet.new).faults }
    ensures count { (F.told fleet.old).faults ≤ (F.told fleet.new).faults }
{
    let items = items_at(alloc, homes, count, switch)?;
    let some = items.as_slice().len();
    if some == 0 {
        return Ok(());
    }
    let items = items.as_slice();
    visit(
        alloc, fleet, problem, homes, switch, items, migration, rounds, notes,
    )
}

// Asks a switch about these items, by the port that the fleet gives for its name.
fn visit<F: Fleet>(
    alloc: Global,
    fleet: &mut F,
    problem: &Problem,
    homes: &[Option<u32>],
    switch: u32,
    items: &[u32],
    migration: u32,
    rounds: u32,
    notes: &mut [Option<Held>],
) -> Result<(), NotTold>
    requires rows { length notes.old ≡ length homes.now }
    requires inside { switch < length problem.now.switches }
    ensures visits { Visits result F.Port.told problem.now homes.now switch items.now notes.old
        migration rounds (ports_of (F.told fleet.old)) notes.new (ports_of (F.told fleet.new)) }
    ensures guests { GuestsStay (F.told fleet.old) (F.told fleet.new) }
    ensures cause { (w : ℕ)
        → IsErrOf result (NotTold.NoPort w)
        → Rose (F.told fleet.old).faults (F.told fleet.new).faults }
    ensures count { (F.told fleet.old).faults ≤ (F.told fleet.new).faults }
{
    match fleet.port(switch, problem.switch_name(switch as usize)) {
        Ok(port) => talk(
            alloc, fleet, port, homes, switch, items, migration, rounds, notes,
        ),
        Err(Failed) => Err(NotTold::NoPort(switch)),
    }
}

// Asks over a port that was lent, and gives it back.
fn talk<F: Fleet>(
    alloc: Global,
    fleet: &mut F,
    mut port: F::Port,
    homes: &[Option<u32>],
    switch: u32,
    items: &[u32],
    migration: u32,
    rounds: u32,
    notes: &mut [Option<Held>],
) -> Result<(), NotTold>
    requires rows { length notes.old ≡ length homes.now }
    requires lent { (F.told fleet.old).lent switch ≡ true }
    ensures keeps { Keeps F.Port.told switch
        (λ before now. EndsTalk result homes.now switch items.now notes.old migration rounds before
        notes.new now) port (ports_of (F.told fleet.old)) (ports_of (F.told fleet.new)) }
    ensures guests { GuestsStay (F.told fleet.old) (F.told fleet.new) }
    ensures count { (F.told fleet.old).faults ≤ (F.told fleet.new).faults }
{
    let told = ask_port(
        alloc, &mut port, homes, switch, items, migration, rounds, notes,
    );
    fleet.keep(switch, port);
    told
}
