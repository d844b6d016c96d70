ghost use Rattle.std.specs.Prelude.{◌≡◌, ◌+◌, ◌<◌, ◌≤◌, ◌^◌, length, IfSome, OnErr, OnOk};
ghost use Rattle.disk_model.specs.Moments.{LeavesOnly};
ghost use Rattle.intent_journal.specs.Images.{journal_in};
ghost use Rattle.disk_model.specs.Crashes.{Holds};
ghost use Rattle.intent_journal.specs.Phases.{IsFound, IsOld, end_of};
ghost use Rattle.intent_journal.specs.Renewals.{IsClosed, IsCut, IsFilled};
ghost use Rattle.wan_edge.specs.Streams.{KeepsTelling, Rose};

use crate::found::Found;
use disk_model::{Disk, put};
use wan_edge::Failed;

/// Closes what was left open in a journal as it was found: the gate of the other slot, then that of a
/// batch that is cut. Then the image is filled with zeros up to the end of the live part. A crash at any
/// moment leaves what was kept.
pub(crate) fn close<D: Disk>(disk: &mut D, found: &Found) -> Result<(), Failed>
    requires found { Holds (IsFound found.now) (D.told disk.old).bytes (D.told disk.old).may_leave }
    requires small { end_of found.now < 2 ^ 62 }
    ensures any_moment { IfSome (D.told disk.old).bytes
        (λ image. LeavesOnly D.told disk.old disk.new (IsOld (journal_in image))) }
    ensures done { OnOk result
        (Holds (IsFilled found.now) (D.told disk.new).bytes (D.told disk.new).may_leave) }
    ensures told { KeepsTelling (D.told disk.old).bytes (D.told disk.new).bytes }
    ensures cause { OnErr result (Rose (D.told disk.old).faults (D.told disk.new).faults) }
    ensures count { (D.told disk.old).faults ≤ (D.told disk.new).faults }
{
    close_also(disk, found)?;
    close_cut(disk, found)?;
    fill_up(disk, found)
}

// Closes the other slot. A byte there that opens nothing stays, since a torn write over it could open it.
fn close_also<D: Disk>(disk: &mut D, found: &Found) -> Result<(), Failed>
    requires found { Holds (IsFound found.now) (D.told disk.old).bytes (D.told disk.old).may_leave }
    ensures any_moment { IfSome (D.told disk.old).bytes
        (λ image. LeavesOnly D.told disk.old disk.new (IsOld (journal_in image))) }
    ensures done { OnOk result
        (Holds (IsCut found.now) (D.told disk.new).bytes (D.told disk.new).may_leave) }
    ensures told { KeepsTelling (D.told disk.old).bytes (D.told disk.new).bytes }
    ensures cause { OnErr result (Rose (D.told disk.old).faults (D.told disk.new).faults) }
    ensures count { (D.told disk.old).faults ≤ (D.told disk.new).faults }
{
    if found.also {
        put(disk, found.other, &[0])?;
    }
    Ok(())
}

// Closes the gate of a batch that is cut.
fn close_cut<D: Disk>(disk: &mut D, found: &Found) -> Result<(), Failed>
    requires found { Holds (IsCut found.now) (D.told disk.old).bytes (D.told disk.old).may_leave }
    ensures any_moment { IfSome (D.told disk.old).bytes
        (λ image. LeavesOnly D.told disk.old disk.new (IsOld (journal_in image))) }
    ensures done { OnOk result
        (Holds (IsClosed found.now) (D.told disk.new).bytes (D.told disk.new).may_leave) }
    ensures told { KeepsTelling (D.told disk.old).bytes (D.told disk.new).bytes }
    ensures cause { OnErr result (Rose (D.told disk.old).faults (D.told disk.new).faults) }
    ensures count { (D.told disk.old).faults ≤ (D.told disk.new).faults }
{
    if found.cut {
        put(disk, found.gate, &[0])?;
    }
    Ok(())
}

// Fills a shorter image with zeros up to the end of the live part. The gap before the last byte is zeros
// by itself, so one byte is written, and never over one that stands.
fn fill_up<D: Disk>(disk: &mut D, found: &Found) -> Result<(), Failed>
    requires found { Holds (IsClosed found.now) (D.told disk.old).bytes
        (D.told disk.old).may_leave }
    requires small { end_of found.now < 2 ^ 62 }
    ensures any_moment { IfSome (D.told disk.old).bytes
        (λ image. LeavesOnly D.told disk.old disk.new (IsOld (journal_in image))) }
    ensures done { OnOk result
        (Holds (IsFilled found.now) (D.told disk.new).bytes (D.told disk.new).may_leave) }
    ensures told { KeepsTelling (D.told disk.old).bytes (D.told disk.new).bytes }
    ensures cause { OnErr result (Rose (D.told disk.old).faults (D.told disk.new).faults) }
    ensures count { (D.told disk.old).faults ≤ (D.told disk.new).faults }
{
    let end = found.end();
    if found.length < end {
        put(disk, end - 1, &[0])?;
    }
    Ok(())
}
