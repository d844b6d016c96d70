ghost use Rattle.std.specs.Prelude.{◌≤◌, length, OnErr, OnOk};
ghost use Rattle.wan_edge.specs.Streams.{KeepsTelling, Rose};
ghost use Rattle.disk_model.specs.Writes.{Torn, Writes};
ghost use Rattle.disk_model.specs.Crashes.{IsDurable, Stepped, Within};
ghost use Rattle.disk_model.specs.Moments.{GoesOn};

use crate::Disk;
use wan_edge::Failed;

/// One write and one sync: the bytes from `at` on are on the disk, or the call fails. A crash inside
/// leaves the write torn.
pub fn put<D: Disk>(disk: &mut D, at: u64, from: &[u8]) -> Result<(), Failed>
    ensures written { OnOk result
        (Writes at from.now (D.told disk.old).bytes (D.told disk.new).bytes) }
    ensures durable { OnOk result (IsDurable (D.told disk.new).bytes (D.told disk.new).may_leave) }
    ensures told { KeepsTelling (D.told disk.old).bytes (D.told disk.new).bytes }
    ensures crash { Within (D.told disk.new).may_leave
        (Stepped (Torn at (length from.now)) (D.told disk.old).may_leave) }
    ensures time { GoesOn (D.told disk.old) (D.told disk.new)
        (Stepped (Torn at (length from.now)) (D.told disk.old).may_leave) }
    ensures cause { OnErr result (Rose (D.told disk.old).faults (D.told disk.new).faults) }
    ensures count { (D.told disk.old).faults ≤ (D.told disk.new).faults }
{
    disk.write_at(at, from)?;
    disk.sync()
}
