//! The ports that a rollout needs are opened.
ghost use Rattle.std.specs.Prelude.{◌≡◌, ℕ, ◌<◌, ◌≤◌, [], All, length, nat_eq, vec_capacity, IfErr, IfOk, IsErrOf, OnErr, OnOk};
ghost use Rattle.std.specs.List.{IsDistinct};
ghost use Rattle.wan_edge.specs.Streams.{Rose};
ghost use Rattle.wan_edge.specs.Fleets.{GuestsStay};
ghost use Rattle.switch_ports.specs.Berths.{AreApart, ports_of};
ghost use Rattle.switch_ports.specs.Homes.{working_homes};
ghost use Rattle.switch_ports.specs.Opening.{Opens, OpensUntil, Refuses};

use crate::Berth;
use crate::homes::working_homes;
use crate::keeping::keep_ports;
use lists::Memory;
use std::alloc::Global;
use wan_edge::{Failed, Fleet};
use wan_model::{CheckedPlan, Problem};

/// Why no ports were opened.
#[derive(Clone, Copy, Debug, PartialEq, Eq)]
pub enum NotOpened {
    /// The fleet has no port for this switch.
    NoPort(u32),
    Memory,
}

impl From<Memory> for NotOpened {
    ghost use Rattle.switch_ports.specs.declared.opening.NotOpened.TheVariants as why;

    ghost from_gives = { λ _ given. given ≡ why.Memory };

    fn from(_: Memory) -> Self {
        NotOpened::Memory
    }
}

/// Opens a port to each switch at which a rollout has work, from number 0 up, by the name that its problem has
/// for it.
///
/// # Errors
///
/// `NoPort` with the first switch for which the fleet has none: the ports that were opened before it are
/// given back. `Memory`, before the first one is opened.
pub fn open_ports<F: Fleet>(
    alloc: Global,
    fleet: &mut F,
    plan: &CheckedPlan,
) -> Result<Vec<Berth<F::Port>>, NotOpened>
    ensures opened { IfOk result
        (λ berths. Opens F.Port.told plan.now.problem (working_homes plan.now.problem plan.now.plan)
        (ports_of (F.told fleet.old)) berths.items (ports_of (F.told fleet.new))) }
    ensures apart { IfOk result (λ berths. AreApart berths.items) }
    ensures refused { IfErr result
        (λ why. Refuses F.Port.told plan.now.problem (working_homes plan.now.problem plan.now.plan)
        why (ports_of (F.told fleet.old)) (ports_of (F.told fleet.new))) }
    ensures guests { GuestsStay (F.told fleet.old) (F.told fleet.new) }
    ensures cause { (switch : ℕ)
        → IsErrOf result (NotOpened.NoPort switch)
        → Rose (F.told fleet.old).faults (F.told fleet.new).faults }
    ensures count { (F.told fleet.old).faults ≤ (F.told fleet.new).faults }
{
    let homes = working_homes(alloc, plan)?;
    let mut berths = Vec::with_capacity(alloc, homes.as_slice().len())?;
    let opened = open_each(fleet, plan.problem(), homes.as_slice(), &mut berths);
    match opened {
        Ok(()) => Ok(berths),
        Err(switch) => {
            keep_ports(fleet, berths);
            Err(NotOpened::NoPort(switch))
        }
    }
}

// Opens a port to each of these switches, in order, by its name, or ends with the first for which the fleet
// has none.
fn open_each<F: Fleet>(
    fleet: &mut F,
    problem: &Problem,
    homes: &[u32],
    berths: &mut Vec<Berth<F::Port>>,
) -> Result<(), u32>
    requires inside { All (λ home. home < length problem.now.switches) homes.now }
    requires once { IsDistinct nat_eq homes.now }
    requires fresh { berths.old.items ≡ [] }
    requires room { length homes.now ≤ vec_capacity berths.old }
    ensures opened { OnOk result
        (Opens F.Port.told problem.now homes.now (ports_of (F.told fleet.old)) berths.new.items
        (ports_of (F.told fleet.new))) }
    ensures until { IfErr result
        (λ switch. OpensUntil F.Port.told problem.now homes.now switch (ports_of (F.told fleet.old))
        berths.new.items (ports_of (F.told fleet.new))) }
    ensures guests { GuestsStay (F.told fleet.old) (F.told fleet.new) }
    ensures cause { OnErr result (Rose (F.told fleet.old).faults (F.told fleet.new).faults) }
    ensures count { (F.told fleet.old).faults ≤ (F.told fleet.new).faults }
{
    for &switch in homes {
        match fleet.port(switch, problem.switch_name(switch as usize)) {
            Ok(port) => berths.push_reserved(Berth { switch, port }),
            Err(Failed) => return Err(switch),
        }
    }
    Ok(())
}
