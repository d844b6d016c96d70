ghost use Rattle.std.specs.Prelude.{◌≡◌, ◌<◌, ◌≤◌, [], length, IfOk, IfSome, OnOk};
ghost use Rattle.disk_model.specs.Crashes.{IsDurable};
ghost use Rattle.disk_model.specs.Whole.{Reads};
ghost use Rattle.disk_mirror.specs.Images.{IsLeftAlone};

use disk_model::Disk;
use std::alloc::Global;
use std::vec;
use wan_edge::Failed;

// How many bytes one call reads at most.
const PIECE: usize = 65_536;

#[tactic(auto, using(crate::proofs::Alone::alone))]
/// Syncs a disk and reads all of its bytes, where there are no more than `most`. Then they are what a
/// crash leaves. Of a disk that says that it is longer nothing is read.
pub(crate) fn read_image<D: Disk>(alloc: Global, disk: &mut D, most: u64) -> Result<Vec<u8>, Failed>
    ensures read { IfOk result
        (λ image. IfSome (D.told disk.new).bytes (λ all. image.items ≡ all)) }
    ensures durable { IfOk result
        (λ _. IsDurable (D.told disk.new).bytes (D.told disk.new).may_leave) }
    ensures within { IfOk result (λ image. length image.items ≤ most) }
    ensures alone { IsLeftAlone (D.told disk.old) (D.told disk.new) }
{
    let mut buffer = buffer_of(alloc, PIECE)?;
    let mut image = Vec::new(alloc);
    disk.sync()?;
    read_whole(disk, most, &mut buffer, &mut image)?;
    Ok(image)
}

fn buffer_of(alloc: Global, size: usize) -> Result<Vec<u8>, Failed>
    ensures { IfOk result (λ buffer. length buffer.items ≡ size) }
{
    match vec![in alloc; 0; size] {
        Ok(buffer) => Ok(buffer),
        Err(_) => Err(Failed),
    }
}

#[tactic(auto, using(crate::proofs::Alone::alone))]
// Asks for the length first.
fn read_whole<D: Disk>(
    disk: &mut D,
    most: u64,
    buffer: &mut [u8],
    image: &mut Vec<u8>,
) -> Result<(), Failed>
    requires some { 0 < length buffer.old }
    requires empty { image.old.items ≡ [] }
    ensures read { OnOk result (IfSome (D.told disk.new).bytes (λ all. image.new.items ≡ all)) }
    ensures within { OnOk result (length image.new.items ≤ most) }
    ensures alone { IsLeftAlone (D.told disk.old) (D.told disk.new) }
{
    if disk.len()? > most {
        return Err(Failed);
    }
    read_pieces(disk, most, buffer, image)
}

#[tactic(auto, using(crate::proofs::Alone::alone))]
// Reads piece by piece, up to the first that is empty.
fn read_pieces<D: Disk>(
    disk: &mut D,
    most: u64,
    buffer: &mut [u8],
    image: &mut Vec<u8>,
) -> Result<(), Failed>
    requires some { 0 < length buffer.old }
    requires empty { image.old.items ≡ [] }
    ensures read { OnOk result (IfSome (D.told disk.new).bytes (λ all. image.new.items ≡ all)) }
    ensures within { OnOk result (length image.new.items ≤ most) }
    ensures alone { IsLeftAlone (D.told disk.old) (D.told disk.new) }
{
    for _turn in 0..u64::MAX {
        let more = read_more(disk, buffer, image)?;
        if image.len() as u64 > most {
            return Err(Failed);
        }
        if !more {
            return Ok(());
        }
    }
    Err(Failed)
}

#[tactic(auto, using(crate::proofs::Alone::alone))]
// Reads the bytes that come next, if there are any, and says whether there were.
fn read_more<D: Disk>(disk: &mut D, buffer: &mut [u8], image: &mut Vec<u8>) -> Result<bool, Failed>
    requires { 0 < length buffer.old }
    ensures read { IfOk result
        (λ more. IfSome (D.told disk.new).bytes (Reads more image.old.items image.new.items)) }
    ensures buffer { length buffer.new ≡ length buffer.old }
    ensures alone { IsLeftAlone (D.told disk.old) (D.told disk.new) }
{
    let n = disk.read_at(image.len() as u64, buffer)?;
    if image.extend_from_slice(&buffer[..n]).is_err() {
        return Err(Failed);
    }
    Ok(n > 0)
}
