//! The bytes on the journal's disk.
ghost use Rattle.std.specs.Prelude.{◌≡◌, ◌≤◌, IfErr, IfOk, IfSome};
ghost use Rattle.disk_model.specs.Whole.{IsQuiet};
ghost use Rattle.intent_journal.specs.Whole.{Causes};

use disk_model::{Disk, read_whole};
use intent_journal::JournalFault;
use std::alloc::Global;
use wan_edge::Nums8;

/// Reads all bytes of a disk, and writes none; with the journal's faults.
#[tactic(auto, using(intent_journal::proofs::ReadFaults::causes_read))]
pub(crate) fn read_image<D: Disk>(alloc: Global, disk: &mut D) -> Result<Nums8, JournalFault>
    ensures read { IfOk result (λ image. IfSome (D.told disk.old).bytes (λ all. image ≡ all)) }
    ensures quiet { IsQuiet D.told disk.old disk.new }
    ensures cause { IfErr result
        (λ fault. Causes fault (D.told disk.old).faults (D.told disk.new).faults) }
    ensures count { (D.told disk.old).faults ≤ (D.told disk.new).faults }
{
    Ok(read_whole(alloc, disk)?)
}
