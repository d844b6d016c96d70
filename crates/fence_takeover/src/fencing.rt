ghost use Rattle.std.specs.Prelude.{ℕ, ◌≤◌, IsErrOf};
ghost use Rattle.switch_ports.specs.Berths.{ports_of};
ghost use Rattle.wan_edge.specs.Streams.{Rose};
ghost use Rattle.wan_edge.specs.Fleets.{GuestsStay};
ghost use Rattle.fence_takeover.specs.Fences.{Fences};

use crate::FenceEnd;
use crate::end::end_of;
use crate::taking::taken_start;
use held_service::held_pairs;
use lists::Ids;
use std::alloc::Global;
use wan_edge::Fleet;
use wan_model::CheckedPlan;

/// Asks the home of each item that has an operation what it holds of it, in so many rounds at the most, and gives of
/// each item the number that is held of this migration: 0 where it is of an earlier one, or the item has no
/// operation. The questions name this migration. The switches are asked one after the other, each by the name that
/// the problem has for it, and what a switch holds stays as it was.
///
/// Over a fleet for a controller of one term each switch has that term as its floor after it, since it told of
/// each of its items after that floor. What is given is then what its switches hold until the rollout goes on, but
/// it need not be a start at which one may begin: that is to be tested.
///
/// # Premises
///
/// The migration began with start 0 of every item, so that an item of which its home holds an earlier one stands at 0;
/// the term is above that of each controller before; and no agent was started anew without what it held.
///
/// # Errors
///
/// `NoPort` with a switch for which the fleet has none, `Port` where one fails, `Spent` with an item that wasn't told
/// in so many rounds, `NotMine` and `NoAnswer` where a switch tells what can't be, `Above` and `Later` with an item
/// whose pair can't be taken over, and `Memory`. No further switch is asked then.
pub fn fence<F: Fleet>(
    alloc: Global,
    fleet: &mut F,
    plan: &CheckedPlan,
    migration: u32,
    rounds: u32,
) -> Result<Ids, FenceEnd>
    ensures fences { Fences result F.Port.told plan.now.problem plan.now.plan migration rounds
        (ports_of (F.told fleet.old)) (ports_of (F.told fleet.new)) }
    ensures guests { GuestsStay (F.told fleet.old) (F.told fleet.new) }
    ensures cause { (w : ℕ)
        → IsErrOf result (FenceEnd.NoPort w)
        → Rose (F.told fleet.old).faults (F.told fleet.new).faults }
    ensures count { (F.told fleet.old).faults ≤ (F.told fleet.new).faults }
{
    match held_pairs(alloc, plan, migration, rounds, fleet) {
        Ok(pairs) => taken_start(alloc, plan, migration, pairs.as_slice()),
        Err(why) => Err(end_of(rounds, why)),
    }
}
