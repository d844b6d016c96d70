ghost use Rattle.std.specs.Prelude.{◌≡◌, ◌⊎◌, ◌+◌, ◌<◌, ◌≤◌, false, true, length, IfErr, IfOk, IfSome, OnOk};
ghost use Rattle.disk_model.specs.Crashes.{Holds};
ghost use Rattle.agent_state.specs.Disks.{RoseAtDisk};
ghost use Rattle.agent_state.specs.Images as images;
ghost use Rattle.agent_state.specs.Images.{made_length, number_place};
ghost use Rattle.agent_state.specs.Opened.{HasLive, IsBlank, IsFound, IsMisread, IsRefused, ReadsAlike};
ghost use Rattle.agent_state.specs.Stored.{IsKept, IsReadAs, nothing_yet};
ghost use Rattle.agent_state.specs.declared.fault.StateFault.TheVariants as fault;
ghost use Rattle.disk_model.specs.Moments.{LeavesOnly};
ghost use Rattle.fenced_agent.specs.Agents.{FencedHoldings, fenced_holding};
ghost use Rattle.wan_edge.specs.Streams.{KeepsTelling, Rose};

use crate::fault::StateFault;
use crate::place::Place;
use crate::walking::walk;
use disk_model::bytes::{byte_in, from_place, number_of_4};
use disk_model::{Disk, put, read_synced};
use fenced_agent::FencedAgent;
use std::alloc::Global;
use wan_edge::Failed;

// The first byte of an agent's file, and how long it is before its first batch.
const STATE_KIND: u8 = 0x55;

const MADE_LENGTH: usize = 11;

const OPEN_GATE: u8 = 0x47;

/// Reads an agent's file into an agent that holds nothing, and makes it ready for batches. A file that is
/// no longer than one without a batch is such a file, and is made anew. A batch that was cut off at the
/// end doesn't count, and its gate is closed. A crash at any moment leaves what it might have left
/// before, or a file that is read as this one is.
#[tactic(auto, using(crate::proofs::Refusals::causes_at_disk, crate::proofs::Refusals::at_disk_later, crate::proofs::Refusals::causes_refused, crate::proofs::Refusals::disk_refused))]
pub fn open_state<D: Disk>(
    alloc: Global,
    disk: &mut D,
    agent: &mut FencedAgent,
) -> Result<Place, StateFault>
    requires { fenced_holding agent.old ≡ nothing_yet }
    ensures found { IfOk result
        (λ _. IfSome (D.told disk.old).bytes (λ image. IsReadAs image (fenced_holding agent.new))) }
    ensures done { IfOk result
        (λ place. Holds (IsKept place (fenced_holding agent.new)) (D.told disk.new).bytes
        (D.told disk.new).may_leave) }
    ensures refused { IfErr result
        (λ fault. IfSome (D.told disk.old).bytes (IsRefused fault)) }
    ensures cause { IfErr result
        (λ fault. RoseAtDisk fault (D.told disk.old).faults (D.told disk.new).faults) }
    ensures any_moment { IfSome (D.told disk.old).bytes
        (λ image. LeavesOnly D.told disk.old disk.new
        (λ c. (D.told disk.old).may_leave c ⊎ ReadsAlike image c)) }
    ensures told { KeepsTelling (D.told disk.old).bytes (D.told disk.new).bytes }
    ensures count { (D.told disk.old).faults ≤ (D.told disk.new).faults }
{
    let image = read_synced(alloc, disk)?;
    let bytes = image.as_slice();
    if is_short(bytes) {
        let made = make(disk)?;
        return Ok(made);
    }
    let found = read_state(bytes, agent)?;
    close_cut(disk, found.0, found.1)?;
    Ok(found.0)
}

// Whether an image is no longer than a file without a batch.
fn is_short(image: &[u8]) -> bool
    ensures short { result ≡ true → IsBlank image.now }
    ensures long { result ≡ false → made_length < length image.now }
{
    image.len() <= MADE_LENGTH
}

// Makes a file without a batch of one in which nothing stands yet.
fn make<D: Disk>(disk: &mut D) -> Result<Place, Failed>
    requires { Holds IsBlank (D.told disk.old).bytes (D.told disk.old).may_leave }
    ensures any_moment { IfSome (D.told disk.old).bytes
        (λ image. LeavesOnly D.told disk.old disk.new (ReadsAlike image)) }
    ensures done { IfOk result
        (λ place. Holds (IsKept place nothing_yet) (D.told disk.new).bytes
        (D.told disk.new).may_leave) }
    ensures told { KeepsTelling (D.told disk.old).bytes (D.told disk.new).bytes }
    ensures cause { IfErr result
        (λ _. Rose (D.told disk.old).faults (D.told disk.new).faults) }
    ensures count { (D.told disk.old).faults ≤ (D.told disk.new).faults }
{
    let bytes = made_bytes();
    put(disk, 0, &bytes)?;
    Ok(first_place())
}

fn made_bytes() -> [u8; 11]
    ensures { result ≡ images.made }
{
    [STATE_KIND, 0, 0, 0, 0, 10, 0, 0, 0, 10, 0]
}

// Where a file without a batch stands.
fn first_place() -> Place
    ensures { result ≡ record { second = false; start = 10; gate = 10; fresh = 1 } }
{
    Place {
        second: false,
        start: 10,
        gate: 10,
        fresh: 1,
    }
}

// Reads an image that is longer than that, and says whether the last batch was cut off.
#[tactic(auto, using(crate::proofs::Refusals::midway_misread))]
fn read_state(image: &[u8], agent: &mut FencedAgent) -> Result<(Place, bool), StateFault>
    requires long { made_length < length image.now }
    requires nothing { fenced_holding agent.old ≡ nothing_yet }
    ensures found { IfOk result
        (λ found. IsFound found.0 found.1 (fenced_holding agent.new) image.now) }
    ensures refused { IfErr result (λ fault. IsMisread fault image.now) }
{
    let place = live_part(image)?;
    let part = from_place(image, place.start as usize);
    let gate = walk(part, agent)?;
    let cut = byte_in(part, gate) == OPEN_GATE;
    let next = with_gate(place, gate)?;
    Ok((next, cut))
}

// The place with its last gate, which stands so far behind the start of its part.
fn with_gate(place: Place, gate: usize) -> Result<Place, StateFault>
    ensures next { IfOk result (λ next. next ≡ record place { gate = place.start + gate }) }
    ensures far { IfErr result (λ why. why ≡ fault.Memory) }
{
    match place.start.checked_add(gate as u64) {
        Some(gate) => Ok(Place { gate, ..place }),
        None => Err(StateFault::Memory),
    }
}

// Finds the live part.
fn live_part(image: &[u8]) -> Result<Place, StateFault>
    requires { made_length < length image.now }
    ensures live { IfOk result (λ place. HasLive place image.now) }
    ensures refused { IfErr result (λ fault. IsMisread fault image.now) }
{
    let first = byte_in(image, 0);
    if first != STATE_KIND {
        return Err(StateFault::NotState(first));
    }
    let second = byte_in(image, 1) == 1;
    let number = number_of_4(from_place(image, place_of(second)));
    let start = u64::from(number);
    let length = image.len() as u64;
    if start < 10 || start >= length {
        return Err(StateFault::Damaged(0));
    }
    Ok(Place {
        second,
        start,
        gate: 0,
        fresh: 0,
    })
}

// Where the number stands that names the live part.
fn place_of(second: bool) -> usize
    ensures { result ≡ number_place second }
{
    if second { 6 } else { 2 }
}

// Closes the gate of a batch that was cut off. Another byte there stays, since a torn write over it could
// open it.
fn close_cut<D: Disk>(disk: &mut D, place: Place, cut: bool) -> Result<(), Failed>
    ensures any_moment { (held : FencedHoldings)
        → Holds (IsFound place cut held) (D.told disk.old).bytes (D.told disk.old).may_leave
        → IfSome (D.told disk.old).bytes
        (λ image. LeavesOnly D.told disk.old disk.new (ReadsAlike image)) }
    ensures done { OnOk result
        ((held : FencedHoldings)
        → Holds (IsFound place cut held) (D.told disk.old).bytes (D.told disk.old).may_leave
        → Holds (IsKept place held) (D.told disk.new).bytes (D.told disk.new).may_leave) }
    ensures told { KeepsTelling (D.told disk.old).bytes (D.told disk.new).bytes }
    ensures cause { IfErr result
        (λ _. Rose (D.told disk.old).faults (D.told disk.new).faults) }
    ensures count { (D.told disk.old).faults ≤ (D.told disk.new).faults }
{
    if cut {
        put(disk, place.gate, &[0])?;
    }
    Ok(())
}
