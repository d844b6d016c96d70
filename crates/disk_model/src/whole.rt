ghost use Rattle.std.specs.Prelude.{◌≡◌, ◌<◌, ◌≤◌, [], length, IfErr, IfOk, IfSome, OnOk};
ghost use Rattle.disk_model.specs.Crashes.{IsDurable};
ghost use Rattle.disk_model.specs.Whole.{IsQuiet, IsReadFault, Reads};

use crate::disk::Disk;
use crate::read_fault::ReadFault;
use lists::Memory;
use std::alloc::Global;
use std::vec;
use wan_edge::Nums8;

// How many bytes one call reads at most.
const PIECE: usize = 65_536;

/// Syncs a disk and reads all of its bytes. Then they are what a crash leaves.
#[tactic(auto, using(crate::proofs::Quiet::fault_later))]
pub fn read_synced<D: Disk>(alloc: Global, disk: &mut D) -> Result<Nums8, ReadFault>
    ensures read { IfOk result (λ image. IfSome (D.told disk.old).bytes (λ all. image ≡ all)) }
    ensures durable { IfOk result
        (λ _. IsDurable (D.told disk.new).bytes (D.told disk.new).may_leave) }
    ensures quiet { IsQuiet D.told disk.old disk.new }
    ensures cause { IfErr result
        (λ fault. IsReadFault fault (D.told disk.old).faults (D.told disk.new).faults) }
    ensures count { (D.told disk.old).faults ≤ (D.told disk.new).faults }
{
    disk.sync()?;
    let image = read_whole(alloc, disk)?;
    Ok(image)
}

/// Reads all bytes of a disk, and writes none.
#[tactic(auto, using(crate::proofs::Quiet::fault_later))]
pub fn read_whole<D: Disk>(alloc: Global, disk: &mut D) -> Result<Nums8, ReadFault>
    ensures read { IfOk result (λ image. IfSome (D.told disk.old).bytes (λ all. image ≡ all)) }
    ensures quiet { IsQuiet D.told disk.old disk.new }
    ensures cause { IfErr result
        (λ fault. IsReadFault fault (D.told disk.old).faults (D.told disk.new).faults) }
    ensures count { (D.told disk.old).faults ≤ (D.told disk.new).faults }
{
    let mut buffer = buffer_of(alloc, PIECE)?;
    let mut image = Nums8::new(alloc);
    read_pieces(disk, &mut buffer, &mut image)?;
    Ok(image)
}

fn buffer_of(alloc: Global, size: usize) -> Result<Vec<u8>, Memory>
    ensures { IfOk result (λ buffer. length buffer.items ≡ size) }
{
    Ok(vec![in alloc; 0; size]?)
}

// Reads piece by piece, up to the first that is empty.
#[tactic(auto, using(crate::proofs::Quiet::fault_later))]
fn read_pieces<D: Disk>(disk: &mut D, buffer: &mut [u8], image: &mut Nums8) -> Result<(), ReadFault>
    requires some { 0 < length buffer.old }
    requires empty { image.old ≡ [] }
    ensures read { OnOk result (IfSome (D.told disk.old).bytes (λ all. image.new ≡ all)) }
    ensures quiet { IsQuiet D.told disk.old disk.new }
    ensures cause { IfErr result
        (λ fault. IsReadFault fault (D.told disk.old).faults (D.told disk.new).faults) }
    ensures count { (D.told disk.old).faults ≤ (D.told disk.new).faults }
{
    for _turn in 0..u64::MAX {
        let more = read_more(disk, buffer, image)?;
        if !more {
            return Ok(());
        }
    }
    Err(ReadFault::Memory)
}

// Reads the bytes that come next, if there are any, and says whether there were.
fn read_more<D: Disk>(disk: &mut D, buffer: &mut [u8], image: &mut Nums8) -> Result<bool, ReadFault>
    requires { 0 < length buffer.old }
    ensures read { IfOk result
        (λ more. IfSome (D.told disk.old).bytes (Reads more image.old image.new)) }
    ensures buffer { length buffer.new ≡ length buffer.old }
    ensures quiet { IsQuiet D.told disk.old disk.new }
    ensures cause { IfErr result
        (λ fault. IsReadFault fault (D.told disk.old).faults (D.told disk.new).faults) }
    ensures count { (D.told disk.old).faults ≤ (D.told disk.new).faults }
{
    let at = image.as_slice().len();
    let n = disk.read_at(at as u64, buffer)?;
    image.extend_from_slice(&buffer[..n])?;
    Ok(n > 0)
}
