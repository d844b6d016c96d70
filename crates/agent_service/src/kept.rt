//! The guests of an agent with a file.
ghost use Rattle.std.specs.Prelude.{◌≡◌, ◌≢◌, ◌+◌, ◌<◌, ◌≤◌, ◌^◌, [], Some, length, vec_capacity, IfErr, IfOk, IfSome};
ghost use Rattle.agent_service.specs.Keeping.{IsOnDisk};
ghost use Rattle.agent_service.specs.KeptServices.{EndsService, HasComeAlways, IsKeptBehind, IsHeldOnDisk, KeepsFrom, KeepsGuests, KeepsSeated, KeepsTurn, MayBeLeft, StopsService, at_place};
ghost use Rattle.agent_service.specs.Seats.{HasSeats};
ghost use Rattle.agent_service.specs.Services.{back_behind, count_behind, guests_behind, guests_of, most_seats, nothing_counted, table_of, talks_behind};
ghost use Rattle.agent_service.specs.declared.keep_fault.KeepFault.TheVariants as stop;
ghost use Rattle.disk_model.specs.Moments.{LeavesOnly};
ghost use Rattle.fenced_agent.specs.Agents.{fenced_holding};
ghost use Rattle.switch_agent.specs.declared.serve_fault.ServeFault.TheVariants as fault;
ghost use Rattle.wan_edge.specs.Fleets.{PortsStay, WaitsFor};
ghost use Rattle.wan_edge.specs.Streams.{KeepsTelling};

use crate::guests::wants_room;
use crate::keeping::serve_kept;
use crate::seats::{MOST_SEATS, keep_seated, settle, sit_down};
use crate::{KeepFault, Service};
use agent_state::{Place, open_state};
use agent_talks::{Heard, Talk};
use disk_model::Disk;
use fenced_agent::FencedAgent;
use std::alloc::Global;
use switch_agent::Agent;
use wan_edge::{Fleet, Waited};

/// Serves this many guests, or fewer where no more come, several at once as [`crate::serve_guests`] does, by
/// an agent that holds what its file says, under the floor that its file says. What a read of commands changes is on
/// the disk as one batch before its answers go out, and so is the floor that it raised; a crash at any moment leaves what was held before it or after all of it.
#[tactic(auto, using(crate::proofs::KeptRows::stops_ends))]
pub fn keep_guests<F: Fleet, D: Disk>(
    alloc: Global,
    fleet: &mut F,
    disk: &mut D,
    guests: u32,
) -> Result<Service, KeepFault>
    ensures keeps { IfOk result
        (λ service. KeepsGuests D.told (record {
          source = F.Guest.Source.told;
          sink = F.Guest.Sink.told;
        }) disk.old disk.new
        (guests_of (F.told fleet.old)) (guests_of (F.told fleet.new)) guests service) }
    ensures any_moment { IfSome (D.told disk.old).bytes
        (λ image. LeavesOnly D.told disk.old disk.new
        (MayBeLeft (D.told disk.old).may_leave image)) }
    ensures cause { IfErr result
        (λ why. EndsService why (F.told fleet.old).faults (F.told fleet.new).faults
        (D.told disk.old).faults (D.told disk.new).faults) }
    ensures visiting { (F.told fleet.new).visiting ≡ (F.told fleet.old).visiting }
    ensures ports { PortsStay (F.told fleet.old) (F.told fleet.new) }
{
    let plain = Agent::new(alloc);
    let mut agent = FencedAgent::new(plain);
    let place = open_state(alloc, disk, &mut agent)?;
    let service = keep_all(alloc, fleet, disk, place, &mut agent, guests)?;
    Ok(service)
}

// Serves guests by an agent whose file is at rest at this place, with what it holds.
fn keep_all<F: Fleet, D: Disk>(
    alloc: Global,
    fleet: &mut F,
    disk: &mut D,
    place: Place,
    agent: &mut FencedAgent,
    guests: u32,
) -> Result<Service, KeepFault>
    requires { IsOnDisk (D.told disk.old) place (fenced_holding agent.old) }
    ensures keeps { IfOk result
        (λ service. KeepsFrom D.told (record {
          source = F.Guest.Source.told;
          sink = F.Guest.Sink.told;
        }) agent.old disk.new
        (guests_of (F.told fleet.old)) (guests_of (F.told fleet.new)) guests service) }
    ensures any_moment { HasComeAlways D.told disk.old disk.new (fenced_holding agent.old) }
    ensures told { KeepsTelling (D.told disk.old).bytes (D.told disk.new).bytes }
    ensures visiting { (F.told fleet.new).visiting ≡ (F.told fleet.old).visiting }
    ensures ports { PortsStay (F.told fleet.old) (F.told fleet.new) }
    ensures cause { IfErr result
        (λ why. StopsService why (F.told fleet.old).faults (F.told fleet.new).faults
        (D.told disk.old).faults (D.told disk.new).faults) }
    ensures count { (F.told fleet.old).faults ≤ (F.told fleet.new).faults }
    ensures disk_count { (D.told disk.old).faults ≤ (D.told disk.new).faults }
{
    match Vec::with_capacity(alloc, MOST_SEATS) {
        Ok(mut talks) => keep_with(alloc, fleet, disk, place, agent, &mut talks, guests),
        Err(_) => Err(KeepFault::NoRoom),
    }
}

// The same with room for what is kept of those that sit.
fn keep_with<F: Fleet, D: Disk>(
    alloc: Global,
    fleet: &mut F,
    disk: &mut D,
    place: Place,
    agent: &mut FencedAgent,
    talks: &mut Vec<Talk>,
    guests: u32,
) -> Result<Service, KeepFault>
    requires nobody { talks.old.items ≡ [] }
    requires places { most_seats ≤ vec_capacity talks.old }
    requires kept { IsOnDisk (D.told disk.old) place (fenced_holding agent.old) }
    ensures keeps { IfOk result
        (λ service. KeepsFrom D.told (record {
          source = F.Guest.Source.told;
          sink = F.Guest.Sink.told;
        }) agent.old disk.new
        (guests_of (F.told fleet.old)) (guests_of (F.told fleet.new)) guests service) }
    ensures any_moment { HasComeAlways D.told disk.old disk.new (fenced_holding agent.old) }
    ensures told { KeepsTelling (D.told disk.old).bytes (D.told disk.new).bytes }
    ensures visiting { (F.told fleet.new).visiting ≡ (F.told fleet.old).visiting }
    ensures ports { PortsStay (F.told fleet.old) (F.told fleet.new) }
    ensures cause { IfErr result
        (λ why. StopsService why (F.told fleet.old).faults (F.told fleet.new).faults
        (D.told disk.old).faults (D.told disk.new).faults) }
    ensures count { (F.told fleet.old).faults ≤ (F.told fleet.new).faults }
    ensures disk_count { (D.told disk.old).faults ≤ (D.told disk.new).faults }
{
    match Vec::with_capacity(alloc, MOST_SEATS) {
        Ok(mut seated) => {
            let answer = keep_each(alloc, fleet, disk, place, agent, &mut seated, talks, guests);
            keep_seated(fleet, seated);
            answer
        }
        Err(_) => Err(KeepFault::NoRoom),
    }
}

// Serves guests from when nobody sits. Those that sit at its end are still there.
#[tactic(auto, using(crate::proofs::KeptRows::stops_later))]
fn keep_each<F: Fleet, D: Disk>(
    alloc: Global,
    fleet: &mut F,
    disk: &mut D,
    place: Place,
    agent: &mut FencedAgent,
    seated: &mut Vec<F::Guest>,
    talks: &mut Vec<Talk>,
    guests: u32,
) -> Result<Service, KeepFault>
    requires nobody { (seated.old.items ≡ []) × (talks.old.items ≡ []) }
    requires places { (most_seats ≤ vec_capacity seated.old)
        × (most_seats ≤ vec_capacity talks.old) }
    requires kept { IsOnDisk (D.told disk.old) place (fenced_holding agent.old) }
    ensures keeps { IfOk result
        (λ service. KeepsSeated (record {
          source = F.Guest.Source.told;
          sink = F.Guest.Sink.told;
        })
        (table_of agent.old [] [] (guests_of (F.told fleet.old)) nothing_counted) guests
        seated.new.items agent.new service (guests_of (F.told fleet.new))) }
    ensures durable { IfOk result (λ _. IsHeldOnDisk (D.told disk.new) (fenced_holding agent.new)) }
    ensures any_moment { HasComeAlways D.told disk.old disk.new (fenced_holding agent.old) }
    ensures told { KeepsTelling (D.told disk.old).bytes (D.told disk.new).bytes }
    ensures visiting { (F.told fleet.new).visiting
        ≡ (F.told fleet.old).visiting + length seated.new.items }
    ensures ports { PortsStay (F.told fleet.old) (F.told fleet.new) }
    ensures cause { IfErr result
        (λ why. StopsService why (F.told fleet.old).faults (F.told fleet.new).faults
        (D.told disk.old).faults (D.told disk.new).faults) }
    ensures count { (F.told fleet.old).faults ≤ (F.told fleet.new).faults }
    ensures disk_count { (D.told disk.old).faults ≤ (D.told disk.new).faults }
{
    let mut service = Service {
        guests: 0,
        commands: 0,
        refused: 0,
    };
    let mut here = place;
    while service.guests < guests {
        let next = keep_turn(alloc, fleet, disk, here, agent, seated, talks, service)?;
        let Some(kept) = next else {
            return Ok(service);
        };
        here = kept.0;
        service = kept.1;
    }
    Ok(service)
}

// Waits, and then a guest sits down, or one that sits is read once. None: no more come, and nobody sits.
fn keep_turn<F: Fleet, D: Disk>(
    alloc: Global,
    fleet: &mut F,
    disk: &mut D,
    place: Place,
    agent: &mut FencedAgent,
    seated: &mut Vec<F::Guest>,
    talks: &mut Vec<Talk>,
    service: Service,
) -> Result<Option<(Place, Service)>, KeepFault>
    requires seats { HasSeats seated.old.items talks.old.items service (vec_capacity seated.old)
        (vec_capacity talks.old) (F.told fleet.old).visiting }
    requires kept { IsOnDisk (D.told disk.old) place (fenced_holding agent.old) }
    ensures turn { IfOk result
        (λ found. KeepsTurn (record {
          source = F.Guest.Source.told;
          sink = F.Guest.Sink.told;
        })
        (table_of agent.old seated.old.items talks.old.items (guests_of (F.told fleet.old)) service)
        found
        (table_of agent.new seated.new.items talks.new.items (guests_of (F.told fleet.new))
        service)) }
    ensures kept { IfOk result
        (λ found. IsKeptBehind (D.told disk.new) place found (fenced_holding agent.new)) }
    ensures any_moment { HasComeAlways D.told disk.old disk.new (fenced_holding agent.old) }
    ensures told { KeepsTelling (D.told disk.old).bytes (D.told disk.new).bytes }
    ensures places { (vec_capacity seated.new ≡ vec_capacity seated.old)
        × (vec_capacity talks.new ≡ vec_capacity talks.old) }
    ensures visiting { (F.told fleet.new).visiting + length seated.old.items
        ≡ (F.told fleet.old).visiting + length seated.new.items }
    ensures ports { PortsStay (F.told fleet.old) (F.told fleet.new) }
    ensures cause { IfErr result
        (λ why. StopsService why (F.told fleet.old).faults (F.told fleet.new).faults
        (D.told disk.old).faults (D.told disk.new).faults) }
    ensures count { (F.told fleet.old).faults ≤ (F.told fleet.new).faults }
    ensures disk_count { (D.told disk.old).faults ≤ (D.told disk.new).faults }
{
    match fleet.wait(seated.as_slice()) {
        Ok(woken) => keep_wake(
            alloc, fleet, disk, place, agent, seated, talks, woken, service,
        ),
        Err(_) => Err(KeepFault::Fleet),
    }
}

// Does what a wait has ended for.
fn keep_wake<F: Fleet, D: Disk>(
    alloc: Global,
    fleet: &mut F,
    disk: &mut D,
    place: Place,
    agent: &mut FencedAgent,
    seated: &mut Vec<F::Guest>,
    talks: &mut Vec<Talk>,
    woken: Waited,
    service: Service,
) -> Result<Option<(Place, Service)>, KeepFault>
    requires seats { HasSeats seated.old.items talks.old.items service (vec_capacity seated.old)
        (vec_capacity talks.old) (F.told fleet.old).visiting }
    requires woken { WaitsFor (F.told fleet.old).coming seated.old.items woken }
    requires kept { IsOnDisk (D.told disk.old) place (fenced_holding agent.old) }
    ensures turn { IfOk result
        (λ found. KeepsTurn (record {
          source = F.Guest.Source.told;
          sink = F.Guest.Sink.told;
        })
        (table_of agent.old seated.old.items talks.old.items (guests_of (F.told fleet.old)) service)
        found
        (table_of agent.new seated.new.items talks.new.items (guests_of (F.told fleet.new))
        service)) }
    ensures kept { IfOk result
        (λ found. IsKeptBehind (D.told disk.new) place found (fenced_holding agent.new)) }
    ensures any_moment { HasComeAlways D.told disk.old disk.new (fenced_holding agent.old) }
    ensures told { KeepsTelling (D.told disk.old).bytes (D.told disk.new).bytes }
    ensures places { (vec_capacity seated.new ≡ vec_capacity seated.old)
        × (vec_capacity talks.new ≡ vec_capacity talks.old) }
    ensures visiting { (F.told fleet.new).visiting + length seated.old.items
        ≡ (F.told fleet.old).visiting + length seated.new.items }
    ensures ports { PortsStay (F.told fleet.old) (F.told fleet.new) }
    ensures cause { IfErr result
        (λ why. StopsService why (F.told fleet.old).faults (F.told fleet.new).faults
        (D.told disk.old).faults (D.told disk.new).faults) }
    ensures count { (F.told fleet.old).faults ≤ (F.told fleet.new).faults }
    ensures disk_count { (D.told disk.old).faults ≤ (D.told disk.new).faults }
{
    match woken {
        Waited::Came => keep_next(fleet, disk, place, agent, seated, talks, service),
        Waited::Seat(at) => keep_heard(
            alloc, fleet, disk, place, agent, seated, talks, at, service,
        ),
        Waited::NoMore => Ok(None),
    }
}

// The next guest sits down.
fn keep_next<F: Fleet, D: Disk>(
    fleet: &mut F,
    disk: &mut D,
    place: Place,
    agent: &mut FencedAgent,
    seated: &mut Vec<F::Guest>,
    talks: &mut Vec<Talk>,
    service: Service,
) -> Result<Option<(Place, Service)>, KeepFault>
    requires seats { HasSeats seated.old.items talks.old.items service (vec_capacity seated.old)
        (vec_capacity talks.old) (F.told fleet.old).visiting }
    requires kept { IsOnDisk (D.told disk.old) place (fenced_holding agent.old) }
    requires comes { IfSome (F.told fleet.old).coming (λ guests. 0 < length guests) }
    ensures turn { IfOk result
        (λ found. KeepsTurn (record {
          source = F.Guest.Source.told;
          sink = F.Guest.Sink.told;
        })
        (table_of agent.old seated.old.items talks.old.items (guests_of (F.told fleet.old)) service)
        found
        (table_of agent.new seated.new.items talks.new.items (guests_of (F.told fleet.new))
        service)) }
    ensures kept { IfOk result
        (λ found. IsKeptBehind (D.told disk.new) place found (fenced_holding agent.new)) }
    ensures any_moment { HasComeAlways D.told disk.old disk.new (fenced_holding agent.old) }
    ensures told { KeepsTelling (D.told disk.old).bytes (D.told disk.new).bytes }
    ensures places { (vec_capacity seated.new ≡ vec_capacity seated.old)
        × (vec_capacity talks.new ≡ vec_capacity talks.old) }
    ensures visiting { (F.told fleet.new).visiting + length seated.old.items
        ≡ (F.told fleet.old).visiting + length seated.new.items }
    ensures ports { PortsStay (F.told fleet.old) (F.told fleet.new) }
    ensures cause { IfErr result
        (λ why. StopsService why (F.told fleet.old).faults (F.told fleet.new).faults
        (D.told disk.old).faults (D.told disk.new).faults) }
    ensures count { (F.told fleet.old).faults ≤ (F.told fleet.new).faults }
    ensures disk_count { (D.told disk.old).faults ≤ (D.told disk.new).faults }
{
    match sit_down(fleet, seated, talks, service) {
        Ok(found) => Ok(with_place(found, place)),
        Err(_) => Err(KeepFault::Fleet),
    }
}

fn with_place(found: Option<Service>, place: Place) -> Option<(Place, Service)>
    ensures { result ≡ at_place place found }
{
    match found {
        Some(service) => Some((place, service)),
        None => None,
    }
}

// Reads the guest at this place once. Where the file fails it is given back at once.
fn keep_heard<F: Fleet, D: Disk>(
    alloc: Global,
    fleet: &mut F,
    disk: &mut D,
    place: Place,
    agent: &mut FencedAgent,
    seated: &mut Vec<F::Guest>,
    talks: &mut Vec<Talk>,
    at: usize,
    service: Service,
) -> Result<Option<(Place, Service)>, KeepFault>
    requires seats { HasSeats seated.old.items talks.old.items service (vec_capacity seated.old)
        (vec_capacity talks.old) (F.told fleet.old).visiting }
    requires at { at < length seated.old.items }
    requires even { length talks.old.items ≡ length seated.old.items }
    requires kept { IsOnDisk (D.told disk.old) place (fenced_holding agent.old) }
    ensures turn { IfOk result
        (λ found. KeepsTurn (record {
          source = F.Guest.Source.told;
          sink = F.Guest.Sink.told;
        })
        (table_of agent.old seated.old.items talks.old.items (guests_of (F.told fleet.old)) service)
        found
        (table_of agent.new seated.new.items talks.new.items (guests_of (F.told fleet.new))
        service)) }
    ensures kept { IfOk result
        (λ found. IsKeptBehind (D.told disk.new) place found (fenced_holding agent.new)) }
    ensures any_moment { HasComeAlways D.told disk.old disk.new (fenced_holding agent.old) }
    ensures told { KeepsTelling (D.told disk.old).bytes (D.told disk.new).bytes }
    ensures places { (vec_capacity seated.new ≡ vec_capacity seated.old)
        × (vec_capacity talks.new ≡ vec_capacity talks.old) }
    ensures visiting { (F.told fleet.new).visiting + length seated.old.items
        ≡ (F.told fleet.old).visiting + length seated.new.items }
    ensures ports { PortsStay (F.told fleet.old) (F.told fleet.new) }
    ensures cause { IfErr result
        (λ why. StopsService why (F.told fleet.old).faults (F.told fleet.new).faults
        (D.told disk.old).faults (D.told disk.new).faults) }
    ensures count { (F.told fleet.old).faults ≤ (F.told fleet.new).faults }
    ensures disk_count { (D.told disk.old).faults ≤ (D.told disk.new).faults }
{
    let mut guest = seated.remove(at);
    let talk = talks.remove(at);
    match serve_kept(alloc, disk, place, agent, &mut guest, talk) {
        Ok(read) => {
            agent.keeps_few_items();
            keep_settled(fleet, seated, talks, guest, read.0, read.1, service)
        }
        Err(why) => {
            fleet.keep_guest(guest);
            Err(KeepFault::State(why))
        }
    }
}

// Where a guest sits that was read. Without memory for an item that it named the service ends.
fn keep_settled<F: Fleet>(
    fleet: &mut F,
    seated: &mut Vec<F::Guest>,
    talks: &mut Vec<Talk>,
    guest: F::Guest,
    place: Place,
    heard: Heard,
    service: Service,
) -> Result<Option<(Place, Service)>, KeepFault>
    requires places { (length seated.old.items < vec_capacity seated.old)
        × (length talks.old.items < vec_capacity talks.old) }
    requires guests { service.guests + 1 < 2 ^ 32 }
    requires commands { service.commands + heard.served.commands < 2 ^ 64 }
    requires refused { service.refused + 1 < 2 ^ 32 }
    requires visiting { 0 < (F.told fleet.old).visiting }
    ensures found { IfOk result
        (λ found. (found ≡ Some (place, count_behind service heard.served heard.talk))
        × (heard.served.fault ≢ Some fault.Memory)) }
    ensures stops { IfErr result (λ why. why ≡ stop.NoRoom) }
    ensures seated { seated.new.items ≡ guests_behind seated.old.items guest heard.talk }
    ensures talks { talks.new.items ≡ talks_behind talks.old.items heard.talk }
    ensures back { (F.told fleet.new).served
        ≡ back_behind (F.told fleet.old).served guest heard.talk }
    ensures coming { (F.told fleet.new).coming ≡ (F.told fleet.old).coming }
    ensures places { (vec_capacity seated.new ≡ vec_capacity seated.old)
        × (vec_capacity talks.new ≡ vec_capacity talks.old) }
    ensures visiting { (F.told fleet.new).visiting + length seated.old.items + 1
        ≡ (F.told fleet.old).visiting + length seated.new.items }
    ensures ports { PortsStay (F.told fleet.old) (F.told fleet.new) }
    ensures count { (F.told fleet.old).faults ≤ (F.told fleet.new).faults }
{
    let served = heard.served;
    let now = settle(fleet, seated, talks, guest, heard, service);
    if wants_room(&served) {
        return Err(KeepFault::NoRoom);
    }
    Ok(Some((place, now)))
}
