//! All ports of a run, as they are dealt to its workers.
ghost use Rattle.std.specs.Prelude.{◌≡◌, ◌⊎◌, ◌<◌, ◌≤◌, ◌++◌, [], ◌∷◌, IfErr, IfOk, IsPermutation, length, max, vec_capacity};
ghost use Rattle.wan_edge.specs.Fleets.{GuestsStay};
ghost use Rattle.switch_ports.specs.Berths.{AreApart, AreLent, after_keeping, ports_of};
ghost use Rattle.switch_ports.specs.Hands.{berths_of, first_sessions};
ghost use Rattle.controller_run.specs.Workers.{AreWorkers, workers_ports};

use crate::caller_ports::CallerPorts;
use lists::Memory;
use std::alloc::Global;
use switch_ports::{Berth, WorkerPorts, deal, keep_ports, keep_worker, keep_workers};
use wan_edge::{Fleet, Port};

/// All ports of a run: those of the caller with the spare ones, and those of each worker that is sent out.
#[derive(Drop)]
pub(crate) struct Workers<T: Port> {
    pub own: CallerPorts<T>,
    pub crews: Vec<WorkerPorts<T>>,
}

impl<T: Port + Drop> Workers<T> {
    /// Deals berths in turn to so many workers, of which the last one is the caller. Where memory runs out
    /// all come back.
    pub(crate) fn of(
        alloc: Global,
        berths: Vec<Berth<T>>,
        workers: u32,
    ) -> Result<Workers<T>, Vec<Berth<T>>>
        requires { AreApart berths.items }
        ensures same { IfOk result
            (λ team. IsPermutation (first_sessions berths.items)
            (workers_ports team.own.ports team.own.spare.items team.crews.items)) }
        ensures team { IfOk result
            (λ team. AreWorkers team.own.ports team.own.spare.items (vec_capacity team.own.spare)
            team.crews.items) }
        ensures few { IfOk result (λ team. length team.crews.items < max 1 workers) }
        ensures err { IfErr result (λ back. back.items ≡ berths.items) }
    {
        let Ok(spare) = room_for(alloc, berths.len()) else {
            return Err(berths);
        };
        let mut crews = deal(alloc, berths, workers)?;
        let ports = take_last(alloc, &mut crews);
        Ok(Workers {
            own: CallerPorts { ports, spare },
            crews,
        })
    }
}

// Room for so many berths.
fn room_for<T: Port + Drop>(alloc: Global, count: usize) -> Result<Vec<Berth<T>>, Memory>
    ensures { IfOk result (λ room. (room.items ≡ []) × (count ≤ vec_capacity room)) }
{
    Ok(Vec::with_capacity(alloc, count)?)
}

// Takes the ports of the last worker out; where there is no worker there are no ports.
fn take_last<T: Port + Drop>(alloc: Global, crews: &mut Vec<WorkerPorts<T>>) -> WorkerPorts<T>
    ensures { (crews.old.items ≡ crews.new.items ++ result ∷ [])
        ⊎ ((crews.old.items ≡ []) × (crews.new.items ≡ []) × (result ≡ [])) }
{
    match crews.pop() {
        Some(ports) => ports,
        None => WorkerPorts::new(alloc),
    }
}

/// Gives all ports of a run back.
pub(crate) fn keep_all_ports<F: Fleet>(fleet: &mut F, team: Workers<F::Port>)
where
    F::Port: Drop,
    requires apart { AreApart (berths_of (workers_ports team.own.ports team.own.spare.items
        team.crews.items)) }
    requires lent { AreLent (F.told fleet.old).lent
        (berths_of (workers_ports team.own.ports team.own.spare.items team.crews.items)) }
    ensures ports { ports_of (F.told fleet.new)
        ≡ after_keeping (ports_of (F.told fleet.old))
        (berths_of (workers_ports team.own.ports team.own.spare.items team.crews.items)) }
    ensures guests { GuestsStay (F.told fleet.old) (F.told fleet.new) }
    ensures count { (F.told fleet.old).faults ≤ (F.told fleet.new).faults }
{
    let Workers { own, crews } = team;
    let CallerPorts { ports, spare } = own;
    keep_workers(fleet, crews);
    keep_ports(fleet, spare);
    keep_worker(fleet, ports);
}
