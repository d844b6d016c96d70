//! The seats at which several guests are served at once: who sits down, who stays, and who leaves.
ghost use Rattle.std.specs.Prelude.{◌≡◌, ◌+◌, ◌<◌, ◌≤◌, ◌^◌, false, length, true, vec_capacity, IfOk, OnErr};
ghost use Rattle.agent_service.specs.Services.{LosesFirst, MakesRoom, SeatsNext, SitsFrom, after_leaving, back_behind, count_behind, guests_behind, guests_of, most_seats, table_of, talks_behind};
ghost use Rattle.fenced_agent.specs.Agents.{FencedItems};
ghost use Rattle.wan_edge.specs.Streams.{Rose};
ghost use Rattle.wan_edge.specs.Fleets.{PortsStay};

use crate::Service;
use agent_talks::{Heard, Talk};
use wan_edge::{Failed, Fleet};

/// How many guests sit at once at most.
pub(crate) const MOST_SEATS: usize = 64;

/// The next guest sits down after all others, or no more come. Where all seats are taken, the guest that
/// has said nothing for longest leaves its own before.
pub(crate) fn sit_down<F: Fleet>(
    fleet: &mut F,
    seated: &mut Vec<F::Guest>,
    talks: &mut Vec<Talk>,
    service: Service,
) -> Result<Option<Service>, Failed>
    requires even { length talks.old.items ≡ length seated.old.items }
    requires few { length seated.old.items ≤ most_seats }
    requires places { (most_seats ≤ vec_capacity seated.old)
        × (most_seats ≤ vec_capacity talks.old) }
    requires guests { service.guests + 1 < 2 ^ 32 }
    requires refused { service.refused + 1 < 2 ^ 32 }
    requires visiting { length seated.old.items ≤ (F.told fleet.old).visiting }
    ensures sits { IfOk result
        (λ found. (items : FencedItems)
        → SeatsNext (record {
          source = F.Guest.Source.told;
          sink = F.Guest.Sink.told;
        })
        (table_of items seated.old.items talks.old.items (guests_of (F.told fleet.old)) service)
        found
        (table_of items seated.new.items talks.new.items (guests_of (F.told fleet.new)) service)) }
    ensures still { OnErr result
        ((seated.new.items ≡ seated.old.items)
        × (talks.new.items ≡ talks.old.items)
        × ((F.told fleet.new).coming ≡ (F.told fleet.old).coming)
        × ((F.told fleet.new).served ≡ (F.told fleet.old).served)) }
    ensures places { (vec_capacity seated.new ≡ vec_capacity seated.old)
        × (vec_capacity talks.new ≡ vec_capacity talks.old) }
    ensures visiting { (F.told fleet.new).visiting + length seated.old.items
        ≡ (F.told fleet.old).visiting + length seated.new.items }
    ensures ports { PortsStay (F.told fleet.old) (F.told fleet.new) }
    ensures cause { OnErr result (Rose (F.told fleet.old).faults (F.told fleet.new).faults) }
    ensures count { (F.told fleet.old).faults ≤ (F.told fleet.new).faults }
{
    let found = fleet.guest()?;
    let Some(guest) = found else {
        return Ok(None);
    };
    let now = seat(fleet, seated, talks, guest, service);
    Ok(Some(now))
}

// A guest that came sits down after all others.
fn seat<F: Fleet>(
    fleet: &mut F,
    seated: &mut Vec<F::Guest>,
    talks: &mut Vec<Talk>,
    guest: F::Guest,
    service: Service,
) -> Service
    requires even { length talks.old.items ≡ length seated.old.items }
    requires few { length seated.old.items ≤ most_seats }
    requires places { (most_seats ≤ vec_capacity seated.old)
        × (most_seats ≤ vec_capacity talks.old) }
    requires guests { service.guests + 1 < 2 ^ 32 }
    requires refused { service.refused + 1 < 2 ^ 32 }
    requires visiting { length seated.old.items ≤ (F.told fleet.old).visiting }
    ensures sits { (items : FencedItems)
        → SitsFrom
        (table_of items seated.old.items talks.old.items (guests_of (F.told fleet.old)) service)
        guest
        (table_of items seated.new.items talks.new.items (guests_of (F.told fleet.new)) result) }
    ensures coming { (F.told fleet.new).coming ≡ (F.told fleet.old).coming }
    ensures places { (vec_capacity seated.new ≡ vec_capacity seated.old)
        × (vec_capacity talks.new ≡ vec_capacity talks.old) }
    ensures visiting { (F.told fleet.new).visiting + length seated.old.items + 1
        ≡ (F.told fleet.old).visiting + length seated.new.items }
    ensures ports { PortsStay (F.told fleet.old) (F.told fleet.new) }
    ensures count { (F.told fleet.old).faults ≤ (F.told fleet.new).faults }
{
    let now = make_room(fleet, seated, talks, service);
    let talk = Talk::new();
    seated.push_reserved(guest);
    talks.push_reserved(talk);
    now
}

// Where all seats are taken, the guest that has said nothing for longest leaves: it is the first.
fn make_room<F: Fleet>(
    fleet: &mut F,
    seated: &mut Vec<F::Guest>,
    talks: &mut Vec<Talk>,
    service: Service,
) -> Service
    requires even { length talks.old.items ≡ length seated.old.items }
    requires few { length seated.old.items ≤ most_seats }
    requires guests { service.guests + 1 < 2 ^ 32 }
    requires refused { service.refused + 1 < 2 ^ 32 }
    requires visiting { length seated.old.items ≤ (F.told fleet.old).visiting }
    ensures room { (items : FencedItems)
        → MakesRoom
        (table_of items seated.old.items talks.old.items (guests_of (F.told fleet.old)) service)
        (table_of items seated.new.items talks.new.items
        (record { coming = (F.told fleet.old).coming; served = (F.told fleet.new).served })
        result) }
    ensures coming { (F.told fleet.new).coming ≡ (F.told fleet.old).coming }
    ensures free { (length seated.new.items < most_seats)
        × (length talks.new.items ≡ length seated.new.items) }
    ensures places { (vec_capacity seated.new ≡ vec_capacity seated.old)
        × (vec_capacity talks.new ≡ vec_capacity talks.old) }
    ensures visiting { (F.told fleet.new).visiting + length seated.old.items
        ≡ (F.told fleet.old).visiting + length seated.new.items }
    ensures ports { PortsStay (F.told fleet.old) (F.told fleet.new) }
    ensures count { (F.told fleet.old).faults ≤ (F.told fleet.new).faults }
{
    if is_full(seated.as_slice()) {
        return lose_first(fleet, seated, talks, service);
    }
    service
}

// Whether all seats are taken.
fn is_full<G>(seated: &[G]) -> bool
    ensures yes { result ≡ true → most_seats ≤ length seated.now }
    ensures no { result ≡ false → length seated.now < most_seats }
{
    if seated.len() < MOST_SEATS {
        return false;
    }
    true
}

// The first of those that sit leaves, and is refused.
fn lose_first<F: Fleet>(
    fleet: &mut F,
    seated: &mut Vec<F::Guest>,
    talks: &mut Vec<Talk>,
    service: Service,
) -> Service
    requires full { length seated.old.items ≡ most_seats }
    requires even { length talks.old.items ≡ length seated.old.items }
    requires guests { service.guests + 1 < 2 ^ 32 }
    requires refused { service.refused + 1 < 2 ^ 32 }
    requires visiting { 0 < (F.told fleet.old).visiting }
    ensures lost { (items : FencedItems)
        → LosesFirst
        (table_of items seated.old.items talks.old.items (guests_of (F.told fleet.old)) service)
        (table_of items seated.new.items talks.new.items
        (record { coming = (F.told fleet.old).coming; served = (F.told fleet.new).served })
        result) }
    ensures coming { (F.told fleet.new).coming ≡ (F.told fleet.old).coming }
    ensures free { (length seated.new.items + 1 ≡ length seated.old.items)
        × (length talks.new.items + 1 ≡ length talks.old.items) }
    ensures places { (vec_capacity seated.new ≡ vec_capacity seated.old)
        × (vec_capacity talks.new ≡ vec_capacity talks.old) }
    ensures visiting { (F.told fleet.new).visiting + 1 ≡ (F.told fleet.old).visiting }
    ensures ports { PortsStay (F.told fleet.old) (F.told fleet.new) }
    ensures count { (F.told fleet.old).faults ≤ (F.told fleet.new).faults }
{
    let first = seated.remove(0);
    let talk = talks.remove(0);
    drop(talk);
    fleet.keep_guest(first);
    service.with_refused()
}

/// A guest that was read sits after all others, where it is read further; else it is given back.
pub(crate) fn settle<F: Fleet>(
    fleet: &mut F,
    seated: &mut Vec<F::Guest>,
    talks: &mut Vec<Talk>,
    guest: F::Guest,
    heard: Heard,
    service: Service,
) -> Service
    requires places { (length seated.old.items < vec_capacity seated.old)
        × (length talks.old.items < vec_capacity talks.old) }
    requires guests { service.guests + 1 < 2 ^ 32 }
    requires commands { service.commands + heard.served.commands < 2 ^ 64 }
    requires refused { service.refused + 1 < 2 ^ 32 }
    requires visiting { 0 < (F.told fleet.old).visiting }
    ensures seated { seated.new.items ≡ guests_behind seated.old.items guest heard.talk }
    ensures talks { talks.new.items ≡ talks_behind talks.old.items heard.talk }
    ensures back { (F.told fleet.new).served
        ≡ back_behind (F.told fleet.old).served guest heard.talk }
    ensures counted { result ≡ count_behind service heard.served heard.talk }
    ensures coming { (F.told fleet.new).coming ≡ (F.told fleet.old).coming }
    ensures places { (vec_capacity seated.new ≡ vec_capacity seated.old)
        × (vec_capacity talks.new ≡ vec_capacity talks.old) }
    ensures visiting { (F.told fleet.new).visiting + length seated.old.items + 1
        ≡ (F.told fleet.old).visiting + length seated.new.items }
    ensures ports { PortsStay (F.told fleet.old) (F.told fleet.new) }
    ensures count { (F.told fleet.old).faults ≤ (F.told fleet.new).faults }
{
    let Heard { served, talk } = heard;
    match talk {
        Some(talk) => {
            seated.push_reserved(guest);
            talks.push_reserved(talk);
            service.with_commands(served.commands)
        }
        None => {
            fleet.keep_guest(guest);
            service.with_guest(served)
        }
    }
}

/// Gives all back that sit, from the one that spoke last on. It takes no memory.
pub(crate) fn keep_seated<F: Fleet>(fleet: &mut F, mut seated: Vec<F::Guest>)
    requires { length seated.items ≤ (F.told fleet.old).visiting }
    ensures back { (F.told fleet.new).served
        ≡ after_leaving (F.told fleet.old).served seated.items }
    ensures coming { (F.told fleet.new).coming ≡ (F.told fleet.old).coming }
    ensures visiting { (F.told fleet.new).visiting + length seated.items
        ≡ (F.told fleet.old).visiting }
    ensures ports { PortsStay (F.told fleet.old) (F.told fleet.new) }
    ensures count { (F.told fleet.old).faults ≤ (F.told fleet.new).faults }
{
    while let Some(guest) = seated.pop() {
        fleet.keep_guest(guest);
    }
    seated.destroy_empty();
}
