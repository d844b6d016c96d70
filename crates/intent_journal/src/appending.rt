ghost use Rattle.std.specs.Prelude.{◌≡◌, ◌<◌, ◌≤◌, ◌^◌, ℕ, List, IfSome, OnErr, OnOk};
ghost use Rattle.disk_model.specs.Crashes.{IsDurable, Only};
ghost use Rattle.disk_model.specs.Moments.{LeavesOnly};
ghost use Rattle.intent_journal.specs.Images.{journal_in};
ghost use Rattle.intent_journal.specs.States.{Home, IsAtRest, IsBeforeOrAfter, IsBody, IsCommitted};
ghost use Rattle.wan_edge.specs.Streams.{KeepsTelling, Rose};

use disk_model::{Disk, put};
use wan_edge::Failed;

// A gate after which a batch stands.
const OPEN_BATCH: u8 = 0x47;

/// Puts a batch after a closed gate, with a closed gate after it, and then opens the gate. A crash at
/// any moment leaves what was kept, or that with the batch; after `Ok` the batch is there.
pub(crate) fn commit<D: Disk>(disk: &mut D, gate: u64, body: &[u8]) -> Result<(), Failed>
    requires { gate < 2 ^ 63 }
    ensures any_moment { IfSome (D.told disk.old).bytes
        (λ image. (home : Home) (batch : List (List ℕ))
        → IsAtRest home gate image
        → IsBody home gate batch body.now
        → Only image (D.told disk.old).may_leave
        → LeavesOnly D.told disk.old disk.new (IsBeforeOrAfter (journal_in image) batch)) }
    ensures done { OnOk result
        (IfSome (D.told disk.old).bytes
        (λ image. (home : Home) (batch : List (List ℕ))
        → IsAtRest home gate image
        → IsBody home gate batch body.now
        → IsCommitted home gate batch body.now image (D.told disk.new).bytes
        (D.told disk.new).may_leave)) }
    ensures durable { OnOk result (IsDurable (D.told disk.new).bytes (D.told disk.new).may_leave) }
    ensures told { KeepsTelling (D.told disk.old).bytes (D.told disk.new).bytes }
    ensures cause { OnErr result (Rose (D.told disk.old).faults (D.told disk.new).faults) }
    ensures count { (D.told disk.old).faults ≤ (D.told disk.new).faults }
{
    put(disk, gate + 1, body)?;
    put(disk, gate, &[OPEN_BATCH])
}
