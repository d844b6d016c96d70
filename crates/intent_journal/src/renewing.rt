ghost use Rattle.std.specs.Prelude.{◌≡◌, ◌+◌, ◌<◌, ◌≤◌, ◌^◌, ◌++◌, length, IfOk, IfSome, OnErr, OnOk};
ghost use Rattle.disk_model.specs.Moments.{LeavesOnly};
ghost use Rattle.intent_journal.specs.Images.{journal_in, second_side};
ghost use Rattle.disk_model.specs.Crashes.{Holds};
ghost use Rattle.intent_journal.specs.Phases.{IsFound, IsOld, IsOldOrNew, IsRenewed, end_of};
ghost use Rattle.intent_journal.specs.Renewals.{IsFilled, IsLaid, IsMoved, IsNamed, IsOpened, new_home, new_start};
ghost use Rattle.wan_edge.specs.Streams.{KeepsTelling, Rose};

use crate::closing::close;
use crate::found::Found;
use crate::layout::{FIRST_START, OPEN_SLOT, name_bytes};
use crate::new_part::NewPart;
use disk_model::{Disk, put};
use wan_edge::Failed;

/// Where a journal is at rest: the closed gate after its list, and the end of its part.
#[derive(Clone, Copy, Debug, PartialEq, Eq)]
pub(crate) struct Rest {
    pub gate: u64,
    pub end: u64,
}

/// Writes a journal anew, as it was found: what was left open is closed, a new part is laid beside the
/// live one, and its slot is opened before the old one is closed. A crash at any moment leaves what was
/// kept or what the new part keeps; after `Ok` the count of the open part has the whole list.
pub(crate) fn renew<D: Disk>(disk: &mut D, found: &Found, part: &NewPart) -> Result<Rest, Failed>
    requires found { Holds (IsFound found.now) (D.told disk.old).bytes (D.told disk.old).may_leave }
    requires small { end_of found.now < 2 ^ 62 }
    requires side { found.now.other ≤ second_side }
    ensures any_moment { IfSome (D.told disk.old).bytes
        (λ image. LeavesOnly D.told disk.old disk.new
        (IsOldOrNew (journal_in image) part.now.kept)) }
    ensures done { IfOk result
        (λ rest. IsRenewed rest.gate rest.end part.now (D.told disk.new).bytes
        (D.told disk.new).may_leave) }
    ensures told { KeepsTelling (D.told disk.old).bytes (D.told disk.new).bytes }
    ensures cause { OnErr result (Rose (D.told disk.old).faults (D.told disk.new).faults) }
    ensures count { (D.told disk.old).faults ≤ (D.told disk.new).faults }
{
    close(disk, found)?;
    move_list(disk, found, part)?;
    let start = place_of(found, part);
    Ok(Rest {
        gate: start + part.bytes().len() as u64 - 1,
        end: start + part.size(),
    })
}

// Lays the new part, lets the other slot name it, and changes over.
fn move_list<D: Disk>(disk: &mut D, found: &Found, part: &NewPart) -> Result<(), Failed>
    requires filled { Holds (IsFilled found.now) (D.told disk.old).bytes
        (D.told disk.old).may_leave }
    requires small { end_of found.now < 2 ^ 62 }
    requires side { found.now.other ≤ second_side }
    ensures any_moment { IfSome (D.told disk.old).bytes
        (λ image. LeavesOnly D.told disk.old disk.new
        (IsOldOrNew (journal_in image) part.now.kept)) }
    ensures done { OnOk result
        (Holds (IsMoved (new_home found.now part.now) part.now) (D.told disk.new).bytes
        (D.told disk.new).may_leave) }
    ensures told { KeepsTelling (D.told disk.old).bytes (D.told disk.new).bytes }
    ensures cause { OnErr result (Rose (D.told disk.old).faults (D.told disk.new).faults) }
    ensures count { (D.told disk.old).faults ≤ (D.told disk.new).faults }
{
    lay_part(disk, found, part)?;
    name_part(disk, found, part)?;
    switch_parts(disk, found, part)
}

// Writes the new part where it doesn't touch the live one.
fn lay_part<D: Disk>(disk: &mut D, found: &Found, part: &NewPart) -> Result<(), Failed>
    requires filled { Holds (IsFilled found.now) (D.told disk.old).bytes
        (D.told disk.old).may_leave }
    requires small { end_of found.now < 2 ^ 62 }
    ensures any_moment { IfSome (D.told disk.old).bytes
        (λ image. LeavesOnly D.told disk.old disk.new (IsOld (journal_in image))) }
    ensures done { OnOk result
        (Holds (IsLaid found.now part.now) (D.told disk.new).bytes (D.told disk.new).may_leave) }
    ensures told { KeepsTelling (D.told disk.old).bytes (D.told disk.new).bytes }
    ensures cause { OnErr result (Rose (D.told disk.old).faults (D.told disk.new).faults) }
    ensures count { (D.told disk.old).faults ≤ (D.told disk.new).faults }
{
    put(disk, place_of(found, part), part.bytes())
}

// Writes the place and the size of the new part into the other slot, whose gate stays as it is.
fn name_part<D: Disk>(disk: &mut D, found: &Found, part: &NewPart) -> Result<(), Failed>
    requires laid { Holds (IsLaid found.now part.now) (D.told disk.old).bytes
        (D.told disk.old).may_leave }
    requires small { end_of found.now < 2 ^ 62 }
    requires side { found.now.other ≤ second_side }
    ensures any_moment { IfSome (D.told disk.old).bytes
        (λ image. LeavesOnly D.told disk.old disk.new (IsOld (journal_in image))) }
    ensures done { OnOk result
        (Holds (IsNamed found.now part.now) (D.told disk.new).bytes (D.told disk.new).may_leave) }
    ensures told { KeepsTelling (D.told disk.old).bytes (D.told disk.new).bytes }
    ensures cause { OnErr result (Rose (D.told disk.old).faults (D.told disk.new).faults) }
    ensures count { (D.told disk.old).faults ≤ (D.told disk.new).faults }
{
    let name = name_bytes(place_of(found, part), part.size());
    put(disk, found.other + 1, &name)
}

// Opens the new part's slot, and then closes the old one.
fn switch_parts<D: Disk>(disk: &mut D, found: &Found, part: &NewPart) -> Result<(), Failed>
    requires named { Holds (IsNamed found.now part.now) (D.told disk.old).bytes
        (D.told disk.old).may_leave }
    ensures any_moment { IfSome (D.told disk.old).bytes
        (λ image. LeavesOnly D.told disk.old disk.new
        (IsOldOrNew (journal_in image) part.now.kept)) }
    ensures done { OnOk result
        (Holds (IsMoved (new_home found.now part.now) part.now) (D.told disk.new).bytes
        (D.told disk.new).may_leave) }
    ensures told { KeepsTelling (D.told disk.old).bytes (D.told disk.new).bytes }
    ensures cause { OnErr result (Rose (D.told disk.old).faults (D.told disk.new).faults) }
    ensures count { (D.told disk.old).faults ≤ (D.told disk.new).faults }
{
    put(disk, found.other, &[OPEN_SLOT])?;
    put(disk, found.this, &[0])
}

// In front of the live part where there is room for it, else after.
fn place_of(found: &Found, part: &NewPart) -> u64
    requires { end_of found.now < 2 ^ 62 }
    ensures { result ≡ new_start found.now part.now.size }
{
    if FIRST_START + part.size() <= found.start {
        FIRST_START
    } else {
        found.end()
    }
}
