//! Ports are given back to their fleet.
ghost use Rattle.std.specs.Prelude.{◌≡◌, ◌≤◌};
ghost use Rattle.wan_edge.specs.Fleets.{GuestsStay};
ghost use Rattle.switch_ports.specs.Berths.{AreApart, AreLent, after_keeping, ports_of};
ghost use Rattle.switch_ports.specs.Hands.{all_berths, berths_of};

use crate::{Berth, WorkerPorts};
use wan_edge::Fleet;

/// Gives the ports of these berths back, from the last one on. It takes no memory.
pub fn keep_ports<F: Fleet>(fleet: &mut F, mut berths: Vec<Berth<F::Port>>)
    requires apart { AreApart berths.items }
    requires lent { AreLent (F.told fleet.old).lent berths.items }
    ensures ports { ports_of (F.told fleet.new)
        ≡ after_keeping (ports_of (F.told fleet.old)) berths.items }
    ensures guests { GuestsStay (F.told fleet.old) (F.told fleet.new) }
    ensures count { (F.told fleet.old).faults ≤ (F.told fleet.new).faults }
{
    while let Some(berth) = berths.pop() {
        let Berth { switch, port } = berth;
        fleet.keep(switch, port);
    }
    berths.destroy_empty();
}

/// Gives the ports of a worker back, from the last one on. It takes no memory.
pub fn keep_worker<F: Fleet>(fleet: &mut F, mut ports: WorkerPorts<F::Port>)
where
    F::Port: Drop,
    requires apart { AreApart (berths_of ports) }
    requires lent { AreLent (F.told fleet.old).lent (berths_of ports) }
    ensures ports { ports_of (F.told fleet.new)
        ≡ after_keeping (ports_of (F.told fleet.old)) (berths_of ports) }
    ensures guests { GuestsStay (F.told fleet.old) (F.told fleet.new) }
    ensures count { (F.told fleet.old).faults ≤ (F.told fleet.new).faults }
{
    while let Some(berth) = ports.take() {
        let Berth { switch, port } = berth;
        fleet.keep(switch, port);
    }
}

/// Gives the ports of all these workers back, from the last worker on. It takes no memory.
pub fn keep_workers<F: Fleet>(fleet: &mut F, mut workers: Vec<WorkerPorts<F::Port>>)
where
    F::Port: Drop,
    requires apart { AreApart (all_berths workers.items) }
    requires lent { AreLent (F.told fleet.old).lent (all_berths workers.items) }
    ensures ports { ports_of (F.told fleet.new)
        ≡ after_keeping (ports_of (F.told fleet.old)) (all_berths workers.items) }
    ensures guests { GuestsStay (F.told fleet.old) (F.told fleet.new) }
    ensures count { (F.told fleet.old).faults ≤ (F.told fleet.new).faults }
{
    while let Some(ports) = workers.pop() {
        keep_worker(fleet, ports);
    }
}
