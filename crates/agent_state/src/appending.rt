ghost use Rattle.std.specs.Prelude.{◌≡◌, ◌+◌, ◌<◌, ◌≤◌, ◌^◌, ◌∷◌, ◌++◌, [], ℕ, List, length, IfSome, OnErr, OnOk};
ghost use Rattle.agent_state.specs.Batches.{IsBody};
ghost use Rattle.agent_state.specs.States.{Home, IsAtRest, IsCommitted, IsEither};
ghost use Rattle.disk_model.specs.Crashes.{Only};
ghost use Rattle.disk_model.specs.Moments.{LeavesOnly};
ghost use Rattle.wan_edge.specs.Streams.{KeepsTelling, Rose};

use disk_model::{Disk, put};
use wan_edge::Failed;

// A gate after which a batch stands.
const OPEN_GATE: u8 = 0x47;

/// Puts a batch after a closed gate, with a closed gate after it, and then opens the gate. A crash at
/// any moment leaves the batches that there were, or these with the new one; after `Ok` it is there.
pub(crate) fn commit<D: Disk>(disk: &mut D, gate: u64, body: &[u8]) -> Result<(), Failed>
    requires { gate < 2 ^ 63 }
    ensures any_moment { IfSome (D.told disk.old).bytes
        (λ image. (home : Home) (kept : List (List ℕ)) (batch : List ℕ)
        → IsAtRest home gate kept image
        → IsBody batch body.now
        → Only image (D.told disk.old).may_leave
        → LeavesOnly D.told disk.old disk.new (IsEither kept (kept ++ batch ∷ []))) }
    ensures done { OnOk result
        (IfSome (D.told disk.old).bytes
        (λ image. (home : Home) (kept : List (List ℕ)) (batch : List ℕ)
        → IsAtRest home gate kept image
        → IsBody batch body.now
        → IsCommitted home (gate + length body.now) (kept ++ batch ∷ [])
        (D.told disk.new).bytes (D.told disk.new).may_leave)) }
    ensures told { KeepsTelling (D.told disk.old).bytes (D.told disk.new).bytes }
    ensures cause { OnErr result (Rose (D.told disk.old).faults (D.told disk.new).faults) }
    ensures count { (D.told disk.old).faults ≤ (D.told disk.new).faults }
{
    put(disk, gate + 1, body)?;
    put(disk, gate, &[OPEN_GATE])
}
