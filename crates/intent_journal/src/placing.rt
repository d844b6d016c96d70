ghost use Rattle.std.specs.Prelude.{◌≡◌, ◌⊎◌, ℕ, ◌+◌, ◌*◌, ◌<◌, ◌≤◌, ◌^◌, [], Some, false, length, IfErr, IfOk, IfSome, OnOk};
ghost use Rattle.rollout_rules.specs.History.{flies};
ghost use Rattle.rollout_rules.specs.Items.{item_count};
ghost use Rattle.disk_model.specs.Crashes.{Holds, Within};
ghost use Rattle.disk_model.specs.Moments.{LeavesOnly};
ghost use Rattle.intent_journal.specs.Images.{blank_most, is_blank, open_journal, second_side};
ghost use Rattle.disk_model.specs.Numbers.{byte_at};
ghost use Rattle.intent_journal.specs.Phases.{IsFound, end_of};
ghost use Rattle.intent_journal.specs.Reading as reading;
ghost use Rattle.intent_journal.specs.Recovered.{OnRefusal};
ghost use Rattle.intent_journal.specs.Placements.{IsPlaced, IsPlacingFault, IsRefused, IsStoodOrPlaced, MayBePlaced, placed_kept, settled_numbers};
ghost use Rattle.intent_journal.specs.Faults.{IsMemory};
ghost use Rattle.wan_edge.specs.Streams.{KeepsTelling};

use crate::blank::{self, is_cleared};
use crate::digest::Digest;
use crate::fault::JournalFault;
use crate::found::{Found, LATEST_START};
use crate::judging::found_at;
use crate::layout::OPEN_JOURNAL;
use crate::live::live_side;
use crate::making::make;
use crate::new_part::NewPart;
use crate::preparing::prepare;
use crate::renewing::renew;
use crate::slot::{Slot, part_of};
use crate::walking::read_list;
use dependency_graph::Graph;
use disk_model::bytes::byte_in;
use disk_model::{Disk, read_synced};
use lists::Memory as OutOfMemory;
use std::alloc::Global;
use wan_model::item_count;

/// Puts a journal in the place of a blank image or of any journal: with this digest, what is settled as
/// its start, and the empty list. A crash at any moment leaves what stood or the new journal; where the
/// image was blank, a blank one; and where that was a journal with the empty list but for its gate,
/// perhaps that journal. An image that is neither is refused, and then nothing was written.
#[tactic(auto, using(crate::proofs::Placings::cause_of_memory, crate::proofs::Placings::cause_later))]
pub fn place<D: Disk>(
    alloc: Global,
    disk: &mut D,
    digest: &Digest,
    graph: &Graph,
) -> Result<(), JournalFault>
    requires still { (item : ℕ)
        → item < item_count graph.now.rollout.problem
        → flies graph.now.history item ≡ false }
    ensures any_moment { IfSome (D.told disk.old).bytes
        (λ image. LeavesOnly D.told disk.old disk.new
        (λ c. (D.told disk.old).may_leave c
        ⊎ IsStoodOrPlaced (placed_kept digest.now graph.now) image c)) }
    ensures done { OnOk result
        (IsPlaced (placed_kept digest.now graph.now) (D.told disk.new).bytes
        (D.told disk.new).may_leave) }
    ensures may { OnOk result (IfSome (D.told disk.old).bytes MayBePlaced) }
    ensures told { KeepsTelling (D.told disk.old).bytes (D.told disk.new).bytes }
    ensures cause { IfErr result
        (λ fault. IsPlacingFault fault (D.told disk.old).bytes (D.told disk.old).faults
        (D.told disk.new).faults) }
    ensures unwritten { IfErr result
        (λ fault. OnRefusal fault
        (((D.told disk.new).bytes ≡ (D.told disk.old).bytes)
        × Within (D.told disk.new).may_leave (D.told disk.old).may_leave)) }
    ensures count { (D.told disk.old).faults ≤ (D.told disk.new).faults }
{
    let image = read_synced(alloc, disk)?;
    let part = settled_part(alloc, digest, graph)?;
    write_over(alloc, disk, image.as_slice(), &part)
}

// The part of a journal that begins where this graph is settled.
fn settled_part(alloc: Global, digest: &Digest, graph: &Graph) -> Result<NewPart, JournalFault>
    ensures part { IfOk result (λ part. part.kept ≡ placed_kept digest.now graph.now) }
    ensures few { IfOk result (λ part. 80 + 4 * length part.kept.starts ≤ blank_most) }
    ensures err { IfErr result IsMemory }
{
    let start = settled_start(alloc, graph)?;
    let prepared = prepare(alloc, graph, digest, &start, &[])?;
    Ok(prepared.part)
}

// How many operations of each item are settled.
fn settled_start(alloc: Global, graph: &Graph) -> Result<Vec<u32>, OutOfMemory>
    ensures { IfOk result (λ start. start.items ≡ settled_numbers graph.now) }
{
    let mut start = Vec::new(alloc);
    for item in 0..item_count(graph.plan().problem()) {
        start.push(graph.settled(item))?;
    }
    Ok(start)
}

// Writes the new journal over the image that was read.
fn write_over<D: Disk>(
    alloc: Global,
    disk: &mut D,
    image: &[u8],
    part: &NewPart,
) -> Result<(), JournalFault>
    requires read { Holds (λ all. image.now ≡ all) (D.told disk.old).bytes
        (D.told disk.old).may_leave }
    requires empty { part.now.kept.rows ≡ [] }
    requires few { 80 + 4 * length part.now.kept.starts ≤ blank_most }
    ensures any_moment { IfSome (D.told disk.old).bytes
        (λ all. LeavesOnly D.told disk.old disk.new (IsStoodOrPlaced part.now.kept all)) }
    ensures done { OnOk result
        (IsPlaced part.now.kept (D.told disk.new).bytes (D.told disk.new).may_leave) }
    ensures may { OnOk result (MayBePlaced image.now) }
    ensures told { KeepsTelling (D.told disk.old).bytes (D.told disk.new).bytes }
    ensures cause { IfErr result
        (λ fault. IsPlacingFault fault (D.told disk.old).bytes (D.told disk.old).faults
        (D.told disk.new).faults) }
    ensures unwritten { IfErr result (λ fault. OnRefusal fault (disk.new ≡ disk.old)) }
    ensures count { (D.told disk.old).faults ≤ (D.told disk.new).faults }
{
    if blank::is_blank(alloc, image)? {
        make(disk, is_cleared(image), part)?;
    } else {
        let found = find(alloc, image)?;
        renew(disk, &found, part)?;
    }
    Ok(())
}

// What is found of a journal, whatever it was made for.
#[tactic(auto, using(crate::proofs::Placings::side_neither))]
fn find(alloc: Global, image: &[u8]) -> Result<Found, JournalFault>
    requires { is_blank image.now ≡ false }
    ensures found { IfOk result (λ found. IsFound found image.now) }
    ensures small { IfOk result (λ found. end_of found < 2 ^ 62) }
    ensures side { IfOk result (λ found. found.other ≤ second_side) }
    ensures err { IfErr result (λ fault. IsRefused fault image.now) }
{
    let first = byte_in(image, 0);
    if first != OPEN_JOURNAL {
        return Err(JournalFault::NotJournal(first));
    }
    match live_side(image) {
        Some(side) => find_at(alloc, image, side),
        None => Err(JournalFault::NotJournal(first)),
    }
}

fn find_at(alloc: Global, image: &[u8], side: usize) -> Result<Found, JournalFault>
    requires journal { byte_at 0 image.now ≡ open_journal }
    requires side { reading.live_side image.now ≡ Some side }
    ensures found { IfOk result (λ found. IsFound found image.now) }
    ensures small { IfOk result (λ found. end_of found < 2 ^ 62) }
    ensures side { IfOk result (λ found. found.other ≤ second_side) }
    ensures err { IfErr result IsMemory }
{
    let slot = Slot::at(side, image);
    let (_, gate) = read_list(alloc, &slot, part_of(&slot, image))?;
    let found = found_at(image, side, &slot, gate);
    if found.start > LATEST_START {
        return Err(JournalFault::Memory);
    }
    Ok(found)
}
