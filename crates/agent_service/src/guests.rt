//! The guests of an agent without a file.
ghost use Rattle.std.specs.Prelude.{◌≡◌, ◌≢◌, ◌+◌, ◌≤◌, ◌<◌, [], Some, false, length, true, vec_capacity, IfErr, IfOk, IfSome, IsErrOf};
ghost use Rattle.agent_service.specs.Seats.{HasSeats};
ghost use Rattle.agent_service.specs.Services.{Serves, ServesBy, ServesSeated, StopsTurn, TakesTurn, guests_of, most_seats, nothing_counted, table_of};
ghost use Rattle.agent_service.specs.declared.service.ServiceFault.TheVariants as stop;
ghost use Rattle.switch_agent.specs.declared.serve_fault.ServeFault.TheVariants as fault;
ghost use Rattle.wan_edge.specs.Fleets.{PortsStay, WaitsFor};
ghost use Rattle.wan_edge.specs.Streams.{Rose};

use crate::seats::{MOST_SEATS, keep_seated, settle, sit_down};
use crate::{Service, ServiceFault};
use agent_talks::{Talk, serve_read};
use fenced_agent::FencedAgent;
use std::alloc::Global;
use switch_agent::{Agent, ServeFault, Served};
use wan_edge::{Fleet, Waited};

/// Serves this many guests, or fewer where no more come and nobody sits: up to 64 at once, each read when
/// something of it is there, by one agent that holds nothing at first and has heard of no term. Their commands
/// are carried out one by one in the order in which they were read, whoever sent them, under one floor: a term
/// that one guest named holds for all others. A guest that isn't served to its end is
/// refused, and what it brought about stays; so is the one that has said nothing for longest where another
/// one comes and all seats are taken. Only lack of memory ends the service, for an item or for the seats,
/// and none for more items than a document within the limits has is asked for. Each guest is given back,
/// at the end also those that still sit, which count no further.
pub fn serve_guests<F: Fleet>(
    alloc: Global,
    fleet: &mut F,
    guests: u32,
) -> Result<Service, ServiceFault>
    ensures served { Serves (record {
      source = F.Guest.Source.told;
      sink = F.Guest.Sink.told;
    })
        (guests_of (F.told fleet.old)) (guests_of (F.told fleet.new)) guests result }
    ensures visiting { (F.told fleet.new).visiting ≡ (F.told fleet.old).visiting }
    ensures ports { PortsStay (F.told fleet.old) (F.told fleet.new) }
    ensures cause { IsErrOf result ServiceFault.Fleet
        → Rose (F.told fleet.old).faults (F.told fleet.new).faults }
    ensures count { (F.told fleet.old).faults ≤ (F.told fleet.new).faults }
{
    let plain = Agent::new(alloc);
    let mut agent = FencedAgent::new(plain);
    match Vec::with_capacity(alloc, MOST_SEATS) {
        Ok(mut talks) => serve_with(alloc, &mut agent, fleet, &mut talks, guests),
        Err(_) => Err(ServiceFault::Memory),
    }
}

// The same with room for what is kept of those that sit.
fn serve_with<F: Fleet>(
    alloc: Global,
    agent: &mut FencedAgent,
    fleet: &mut F,
    talks: &mut Vec<Talk>,
    guests: u32,
) -> Result<Service, ServiceFault>
    requires nobody { talks.old.items ≡ [] }
    requires places { most_seats ≤ vec_capacity talks.old }
    ensures served { ServesBy (record {
      source = F.Guest.Source.told;
      sink = F.Guest.Sink.told;
    }) agent.old
        (guests_of (F.told fleet.old)) (guests_of (F.told fleet.new)) guests result }
    ensures visiting { (F.told fleet.new).visiting ≡ (F.told fleet.old).visiting }
    ensures ports { PortsStay (F.told fleet.old) (F.told fleet.new) }
    ensures cause { IfErr result
        (λ why. why ≡ stop.Fleet → Rose (F.told fleet.old).faults (F.told fleet.new).faults) }
    ensures count { (F.told fleet.old).faults ≤ (F.told fleet.new).faults }
{
    match Vec::with_capacity(alloc, MOST_SEATS) {
        Ok(mut seated) => {
            let answer = serve_seated(agent, fleet, &mut seated, talks, guests);
            keep_seated(fleet, seated);
            answer
        }
        Err(_) => Err(ServiceFault::Memory),
    }
}

// Serves guests from when nobody sits. Those that sit at its end are still there.
fn serve_seated<F: Fleet>(
    agent: &mut FencedAgent,
    fleet: &mut F,
    seated: &mut Vec<F::Guest>,
    talks: &mut Vec<Talk>,
    guests: u32,
) -> Result<Service, ServiceFault>
    requires nobody { (seated.old.items ≡ []) × (talks.old.items ≡ []) }
    requires places { (most_seats ≤ vec_capacity seated.old)
        × (most_seats ≤ vec_capacity talks.old) }
    ensures served { ServesSeated (record {
      source = F.Guest.Source.told;
      sink = F.Guest.Sink.told;
    })
        (table_of agent.old [] [] (guests_of (F.told fleet.old)) nothing_counted) guests result
        seated.new.items (guests_of (F.told fleet.new)) }
    ensures visiting { (F.told fleet.new).visiting
        ≡ (F.told fleet.old).visiting + length seated.new.items }
    ensures ports { PortsStay (F.told fleet.old) (F.told fleet.new) }
    ensures cause { IfErr result
        (λ why. why ≡ stop.Fleet → Rose (F.told fleet.old).faults (F.told fleet.new).faults) }
    ensures count { (F.told fleet.old).faults ≤ (F.told fleet.new).faults }
{
    let mut service = Service {
        guests: 0,
        commands: 0,
        refused: 0,
    };
    while service.guests < guests {
        let next = match take_turn(agent, fleet, seated, talks, service) {
            Ok(next) => next,
            Err(why) => return Err(why),
        };
        let Some(after) = next else {
            return Ok(service);
        };
        service = after;
    }
    Ok(service)
}

// Waits, and then a guest sits down, or one that sits is read once. None: no more come, and nobody sits.
fn take_turn<F: Fleet>(
    agent: &mut FencedAgent,
    fleet: &mut F,
    seated: &mut Vec<F::Guest>,
    talks: &mut Vec<Talk>,
    service: Service,
) -> Result<Option<Service>, ServiceFault>
    requires { HasSeats seated.old.items talks.old.items service (vec_capacity seated.old)
        (vec_capacity talks.old) (F.told fleet.old).visiting }
    ensures turn { IfOk result
        (λ found. TakesTurn (record {
          source = F.Guest.Source.told;
          sink = F.Guest.Sink.told;
        })
        (table_of agent.old seated.old.items talks.old.items (guests_of (F.told fleet.old)) service)
        found
        (table_of agent.new seated.new.items talks.new.items (guests_of (F.told fleet.new))
        service)) }
    ensures stops { IfErr result
        (λ why. StopsTurn (record {
          source = F.Guest.Source.told;
          sink = F.Guest.Sink.told;
        })
        (table_of agent.old seated.old.items talks.old.items (guests_of (F.told fleet.old)) service)
        why
        (table_of agent.new seated.new.items talks.new.items (guests_of (F.told fleet.new))
        service)) }
    ensures places { (vec_capacity seated.new ≡ vec_capacity seated.old)
        × (vec_capacity talks.new ≡ vec_capacity talks.old) }
    ensures visiting { (F.told fleet.new).visiting + length seated.old.items
        ≡ (F.told fleet.old).visiting + length seated.new.items }
    ensures ports { PortsStay (F.told fleet.old) (F.told fleet.new) }
    ensures cause { IfErr result
        (λ why. why ≡ stop.Fleet → Rose (F.told fleet.old).faults (F.told fleet.new).faults) }
    ensures count { (F.told fleet.old).faults ≤ (F.told fleet.new).faults }
{
    match fleet.wait(seated.as_slice()) {
        Ok(woken) => wake(agent, fleet, seated, talks, woken, service),
        Err(_) => Err(ServiceFault::Fleet),
    }
}

// Does what a wait has ended for.
fn wake<F: Fleet>(
    agent: &mut FencedAgent,
    fleet: &mut F,
    seated: &mut Vec<F::Guest>,
    talks: &mut Vec<Talk>,
    woken: Waited,
    service: Service,
) -> Result<Option<Service>, ServiceFault>
    requires seats { HasSeats seated.old.items talks.old.items service (vec_capacity seated.old)
        (vec_capacity talks.old) (F.told fleet.old).visiting }
    requires woken { WaitsFor (F.told fleet.old).coming seated.old.items woken }
    ensures turn { IfOk result
        (λ found. TakesTurn (record {
          source = F.Guest.Source.told;
          sink = F.Guest.Sink.told;
        })
        (table_of agent.old seated.old.items talks.old.items (guests_of (F.told fleet.old)) service)
        found
        (table_of agent.new seated.new.items talks.new.items (guests_of (F.told fleet.new))
        service)) }
    ensures stops { IfErr result
        (λ why. StopsTurn (record {
          source = F.Guest.Source.told;
          sink = F.Guest.Sink.told;
        })
        (table_of agent.old seated.old.items talks.old.items (guests_of (F.told fleet.old)) service)
        why
        (table_of agent.new seated.new.items talks.new.items (guests_of (F.told fleet.new))
        service)) }
    ensures places { (vec_capacity seated.new ≡ vec_capacity seated.old)
        × (vec_capacity talks.new ≡ vec_capacity talks.old) }
    ensures visiting { (F.told fleet.new).visiting + length seated.old.items
        ≡ (F.told fleet.old).visiting + length seated.new.items }
    ensures ports { PortsStay (F.told fleet.old) (F.told fleet.new) }
    ensures cause { IfErr result
        (λ why. why ≡ stop.Fleet → Rose (F.told fleet.old).faults (F.told fleet.new).faults) }
    ensures count { (F.told fleet.old).faults ≤ (F.told fleet.new).faults }
{
    match woken {
        Waited::Came => seat_next(agent, fleet, seated, talks, service),
        Waited::Seat(place) => hear(agent, fleet, seated, talks, place, service),
        Waited::NoMore => Ok(None),
    }
}

// The next guest sits down.
fn seat_next<F: Fleet>(
    _agent: &FencedAgent,
    fleet: &mut F,
    seated: &mut Vec<F::Guest>,
    talks: &mut Vec<Talk>,
    service: Service,
) -> Result<Option<Service>, ServiceFault>
    requires seats { HasSeats seated.old.items talks.old.items service (vec_capacity seated.old)
        (vec_capacity talks.old) (F.told fleet.old).visiting }
    requires comes { IfSome (F.told fleet.old).coming (λ guests. 0 < length guests) }
    ensures turn { IfOk result
        (λ found. TakesTurn (record {
          source = F.Guest.Source.told;
          sink = F.Guest.Sink.told;
        })
        (table_of _agent.now seated.old.items talks.old.items (guests_of (F.told fleet.old))
        service) found
        (table_of _agent.now seated.new.items talks.new.items (guests_of (F.told fleet.new))
        service)) }
    ensures stops { IfErr result
        (λ why. StopsTurn (record {
          source = F.Guest.Source.told;
          sink = F.Guest.Sink.told;
        })
        (table_of _agent.now seated.old.items talks.old.items (guests_of (F.told fleet.old))
        service) why
        (table_of _agent.now seated.new.items talks.new.items (guests_of (F.told fleet.new))
        service)) }
    ensures places { (vec_capacity seated.new ≡ vec_capacity seated.old)
        × (vec_capacity talks.new ≡ vec_capacity talks.old) }
    ensures visiting { (F.told fleet.new).visiting + length seated.old.items
        ≡ (F.told fleet.old).visiting + length seated.new.items }
    ensures ports { PortsStay (F.told fleet.old) (F.told fleet.new) }
    ensures cause { IfErr result
        (λ why. why ≡ stop.Fleet → Rose (F.told fleet.old).faults (F.told fleet.new).faults) }
    ensures count { (F.told fleet.old).faults ≤ (F.told fleet.new).faults }
{
    match sit_down(fleet, seated, talks, service) {
        Ok(found) => Ok(found),
        Err(_) => Err(ServiceFault::Fleet),
    }
}

// Reads the guest at this place once.
fn hear<F: Fleet>(
    agent: &mut FencedAgent,
    fleet: &mut F,
    seated: &mut Vec<F::Guest>,
    talks: &mut Vec<Talk>,
    place: usize,
    service: Service,
) -> Result<Option<Service>, ServiceFault>
    requires seats { HasSeats seated.old.items talks.old.items service (vec_capacity seated.old)
        (vec_capacity talks.old) (F.told fleet.old).visiting }
    requires place { place < length seated.old.items }
    requires even { length talks.old.items ≡ length seated.old.items }
    ensures turn { IfOk result
        (λ found. TakesTurn (record {
          source = F.Guest.Source.told;
          sink = F.Guest.Sink.told;
        })
        (table_of agent.old seated.old.items talks.old.items (guests_of (F.told fleet.old)) service)
        found
        (table_of agent.new seated.new.items talks.new.items (guests_of (F.told fleet.new))
        service)) }
    ensures stops { IfErr result
        (λ why. StopsTurn (record {
          source = F.Guest.Source.told;
          sink = F.Guest.Sink.told;
        })
        (table_of agent.old seated.old.items talks.old.items (guests_of (F.told fleet.old)) service)
        why
        (table_of agent.new seated.new.items talks.new.items (guests_of (F.told fleet.new))
        service)) }
    ensures places { (vec_capacity seated.new ≡ vec_capacity seated.old)
        × (vec_capacity talks.new ≡ vec_capacity talks.old) }
    ensures visiting { (F.told fleet.new).visiting + length seated.old.items
        ≡ (F.told fleet.old).visiting + length seated.new.items }
    ensures ports { PortsStay (F.told fleet.old) (F.told fleet.new) }
    ensures cause { IfErr result (λ why. why ≢ stop.Fleet) }
    ensures count { (F.told fleet.old).faults ≤ (F.told fleet.new).faults }
{
    let mut guest = seated.remove(place);
    let talk = talks.remove(place);
    let heard = serve_read(agent, &mut guest, talk);
    agent.keeps_few_items();
    let served = heard.served;
    let now = settle(fleet, seated, talks, guest, heard, service);
    if wants_room(&served) {
        return Err(ServiceFault::Memory);
    }
    Ok(Some(now))
}

// Whether a read ended for lack of memory for an item.
pub(crate) fn wants_room(served: &Served) -> bool
    ensures yes { result ≡ true → served.now.fault ≡ Some fault.Memory }
    ensures no { result ≡ false → served.now.fault ≢ Some fault.Memory }
{
    matches!(served.fault, Some(ServeFault::Memory))
}
