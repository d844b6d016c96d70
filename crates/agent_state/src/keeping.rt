ghost use Rattle.std.specs.Prelude.{◌≡◌, ◌+◌, ◌≤◌, ◌<◌, ◌^◌, length, IfErr, IfOk, IfSome, OnOk};
ghost use Rattle.disk_model.specs.Crashes.{Holds};
ghost use Rattle.agent_state.specs.Disks.{Causes};
ghost use Rattle.agent_state.specs.Stored.{IsAside, IsBatch, IsBeforeOrAfter, IsKept, IsReadAs, StoredBatch, with_batch};
ghost use Rattle.disk_model.specs.Moments.{LeavesOnly};
ghost use Rattle.fenced_agent.specs.Agents.{FencedHoldings, fenced_holding};
ghost use Rattle.wan_edge.specs.Streams.{KeepsTelling};

use crate::appending::commit;
use crate::body::{body_of, part_of};
use crate::fault::StateFault;
use crate::last::last_bytes;
use crate::place::Place;
use crate::renewing::renew;
use disk_model::Disk;
use fenced_agent::FencedAgent;
use lists::Memory;
use std::alloc::{AllocError, Global};
use std::cmp::max;

// Where the first part starts.
const FIRST_START: u64 = 10;

// How far out the last gate of a file may stand.
const MOST_GATE: u64 = 2_000_000_000;

// How much longer than twice what it was when it was written anew a part becomes.
const SLACK: u64 = 4_096;

/// Adds a batch to an agent's file that is at rest at this place: the floor, as [`fenced_wire::write_fence`]
/// writes it, where it was raised, and the commands that were carried out and changed something, in order. The
/// agent holds what they left. A crash at any moment leaves a file
/// that is read as what was held before the batch or after all of it; after `Ok` it is read as what is
/// held after it. A file that has grown to twice what was held when it was written anew is written anew.
#[tactic(auto, using(crate::proofs::Quiet::causes_later))]
pub fn append<D: Disk>(
    alloc: Global,
    disk: &mut D,
    place: Place,
    batch: &[u8],
    agent: &FencedAgent,
) -> Result<Place, StateFault>
    ensures any_moment { (before : FencedHoldings) (stored : StoredBatch)
        → Holds (IsKept place before) (D.told disk.old).bytes (D.told disk.old).may_leave
        → IsBatch stored batch.now
        → fenced_holding agent.now ≡ with_batch before stored
        → IfSome (D.told disk.old).bytes
        (λ _. LeavesOnly D.told disk.old disk.new
        (IsBeforeOrAfter before (fenced_holding agent.now))) }
    ensures done { IfOk result
        (λ now. (before : FencedHoldings) (stored : StoredBatch)
        → Holds (IsKept place before) (D.told disk.old).bytes (D.told disk.old).may_leave
        → IsBatch stored batch.now
        → fenced_holding agent.now ≡ with_batch before stored
        → Holds (IsKept now (fenced_holding agent.now)) (D.told disk.new).bytes
        (D.told disk.new).may_leave) }
    ensures told { KeepsTelling (D.told disk.old).bytes (D.told disk.new).bytes }
    ensures cause { IfErr result
        (λ fault. Causes fault (D.told disk.old).faults (D.told disk.new).faults) }
    ensures count { (D.told disk.old).faults ≤ (D.told disk.new).faults }
{
    let next = add(alloc, disk, place, batch)?;
    if !has_grown(next) {
        return Ok(next);
    }
    let anew = write_anew(alloc, disk, next, agent)?;
    Ok(anew)
}

// Adds a batch after the last gate.
fn add<D: Disk>(
    alloc: Global,
    disk: &mut D,
    place: Place,
    batch: &[u8],
) -> Result<Place, StateFault>
    ensures any_moment { (before now : FencedHoldings) (stored : StoredBatch)
        → Holds (IsKept place before) (D.told disk.old).bytes (D.told disk.old).may_leave
        → IsBatch stored batch.now
        → now ≡ with_batch before stored
        → IfSome (D.told disk.old).bytes
        (λ _. LeavesOnly D.told disk.old disk.new (IsBeforeOrAfter before now)) }
    ensures done { IfOk result
        (λ next. (before now : FencedHoldings) (stored : StoredBatch)
        → Holds (IsKept place before) (D.told disk.old).bytes (D.told disk.old).may_leave
        → IsBatch stored batch.now
        → now ≡ with_batch before stored
        → Holds (IsKept next now) (D.told disk.new).bytes (D.told disk.new).may_leave) }
    ensures told { KeepsTelling (D.told disk.old).bytes (D.told disk.new).bytes }
    ensures cause { IfErr result
        (λ fault. Causes fault (D.told disk.old).faults (D.told disk.new).faults) }
    ensures count { (D.told disk.old).faults ≤ (D.told disk.new).faults }
{
    near(place)?;
    let body = body_of(alloc, batch)?;
    commit(disk, place.gate, body.as_slice())?;
    Ok(Place {
        gate: place.gate + body.len() as u64,
        ..place
    })
}

// The gate doesn't stand too far out, or nothing more is written.
fn near(place: Place) -> Result<(), Memory>
    ensures { OnOk result (place.gate + 1 < 2 ^ 32) }
{
    let gate = place.gate;
    if gate > MOST_GATE {
        return Err(AllocError);
    }
    Ok(())
}

// Whether the live part has grown to more than twice what it was when it was written anew.
fn has_grown(place: Place) -> bool {
    place.gate.saturating_sub(place.start) > place.fresh.saturating_mul(2).saturating_add(SLACK)
}

// Writes the file anew: its part has one batch, with the floor and the command of each item that was carried
// out last.
#[tactic(auto, using(crate::proofs::Quiet::causes_later))]
fn write_anew<D: Disk>(
    alloc: Global,
    disk: &mut D,
    place: Place,
    agent: &FencedAgent,
) -> Result<Place, StateFault>
    ensures any_moment { Holds (IsKept place (fenced_holding agent.now)) (D.told disk.old).bytes
        (D.told disk.old).may_leave
        → IfSome (D.told disk.old).bytes
        (λ _. LeavesOnly D.told disk.old disk.new (λ c. IsReadAs c (fenced_holding agent.now))) }
    ensures done { IfOk result
        (λ next. Holds (IsKept place (fenced_holding agent.now)) (D.told disk.old).bytes
        (D.told disk.old).may_leave
        → Holds (IsKept next (fenced_holding agent.now)) (D.told disk.new).bytes
        (D.told disk.new).may_leave) }
    ensures told { KeepsTelling (D.told disk.old).bytes (D.told disk.new).bytes }
    ensures cause { IfErr result
        (λ fault. Causes fault (D.told disk.old).faults (D.told disk.new).faults) }
    ensures count { (D.told disk.old).faults ≤ (D.told disk.new).faults }
{
    let batch = last_bytes(alloc, agent)?;
    let part = part_of(alloc, batch.as_slice())?;
    let to = aside(place, part.len())?;
    renew(disk, place, to, part.as_slice())?;
    Ok(Place {
        second: !place.second,
        start: to,
        gate: to + 5 + batch.len() as u64,
        fresh: part.len() as u64,
    })
}

// Where a part of so many bytes may stand aside of the live one.
fn aside(place: Place, size: usize) -> Result<u64, Memory>
    requires { size < 2 ^ 63 }
    ensures aside { IfOk result (λ to. IsAside place to size) }
    ensures near { IfOk result (λ to. to < 2 ^ 32) }
{
    let end = FIRST_START + size as u64;
    let start = place.start;
    if end <= start {
        return Ok(FIRST_START);
    }
    near(place)?;
    Ok(max(FIRST_START, place.gate + 1))
}
