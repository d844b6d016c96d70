ghost use Rattle.std.specs.Prelude.{◌≡◌, ◌+◌, ◌*◌, ◌≤◌, [], length, IfOk, IfSome, OnErr, OnOk};
ghost use Rattle.disk_model.specs.Moments.{LeavesOnly};
ghost use Rattle.intent_journal.specs.Images.{blank_most};
ghost use Rattle.intent_journal.specs.Makings.{IsBlank, IsBlankOrTorn, IsClear, IsReady};
ghost use Rattle.disk_model.specs.Crashes.{Holds};
ghost use Rattle.intent_journal.specs.Phases.{IsBlankFound, IsBlankOrMade, IsRenewed};
ghost use Rattle.wan_edge.specs.Streams.{KeepsTelling, Rose};

use crate::layout::{FIRST_START, OPEN_JOURNAL, made_slots};
use crate::new_part::NewPart;
use crate::renewing::Rest;
use disk_model::{Disk, put};
use wan_edge::Failed;

/// Makes a journal of a blank image, of which `cleared` says whether its first byte is there and is 0.
/// While that byte is 0 the slots and the first part are written, and then it opens the journal. A crash
/// at any moment leaves a blank image or the new journal; or, where only the gate of a journal with the
/// empty list was torn, that journal.
pub(crate) fn make<D: Disk>(disk: &mut D, cleared: bool, part: &NewPart) -> Result<Rest, Failed>
    requires blank { Holds (IsBlankFound cleared) (D.told disk.old).bytes
        (D.told disk.old).may_leave }
    requires empty { part.now.kept.rows ≡ [] }
    requires few { 80 + 4 * length part.now.kept.starts ≤ blank_most }
    ensures any_moment { IfSome (D.told disk.old).bytes
        (λ image. LeavesOnly D.told disk.old disk.new (IsBlankOrMade part.now.kept image)) }
    ensures done { IfOk result
        (λ rest. IsRenewed rest.gate rest.end part.now (D.told disk.new).bytes
        (D.told disk.new).may_leave) }
    ensures told { KeepsTelling (D.told disk.old).bytes (D.told disk.new).bytes }
    ensures cause { OnErr result (Rose (D.told disk.old).faults (D.told disk.new).faults) }
    ensures count { (D.told disk.old).faults ≤ (D.told disk.new).faults }
{
    clear_gate(disk, cleared)?;
    lay_first(disk, part)?;
    put(disk, 0, &[OPEN_JOURNAL])?;
    Ok(Rest {
        gate: FIRST_START + part.bytes().len() as u64 - 1,
        end: FIRST_START + part.size(),
    })
}

// Writes the first byte as 0, where it is missing or isn't.
fn clear_gate<D: Disk>(disk: &mut D, cleared: bool) -> Result<(), Failed>
    requires blank { Holds (IsBlankFound cleared) (D.told disk.old).bytes
        (D.told disk.old).may_leave }
    ensures any_moment { IfSome (D.told disk.old).bytes
        (λ image. LeavesOnly D.told disk.old disk.new (IsBlankOrTorn image)) }
    ensures done { OnOk result (Holds IsClear (D.told disk.new).bytes (D.told disk.new).may_leave) }
    ensures told { KeepsTelling (D.told disk.old).bytes (D.told disk.new).bytes }
    ensures cause { OnErr result (Rose (D.told disk.old).faults (D.told disk.new).faults) }
    ensures count { (D.told disk.old).faults ≤ (D.told disk.new).faults }
{
    if !cleared {
        put(disk, 0, &[0])?;
    }
    Ok(())
}

// Writes the slots and the first part after the first byte.
fn lay_first<D: Disk>(disk: &mut D, part: &NewPart) -> Result<(), Failed>
    requires clear { Holds IsClear (D.told disk.old).bytes (D.told disk.old).may_leave }
    requires empty { part.now.kept.rows ≡ [] }
    requires few { 80 + 4 * length part.now.kept.starts ≤ blank_most }
    ensures any_moment { IfSome (D.told disk.old).bytes
        (λ image. LeavesOnly D.told disk.old disk.new IsBlank) }
    ensures done { OnOk result
        (Holds (IsReady part.now) (D.told disk.new).bytes (D.told disk.new).may_leave) }
    ensures told { KeepsTelling (D.told disk.old).bytes (D.told disk.new).bytes }
    ensures cause { OnErr result (Rose (D.told disk.old).faults (D.told disk.new).faults) }
    ensures count { (D.told disk.old).faults ≤ (D.told disk.new).faults }
{
    disk.write_at(1, &made_slots(part.size()))?;
    put(disk, FIRST_START, part.bytes())
}
