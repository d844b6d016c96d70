ghost use Rattle.std.specs.Prelude.{◌≡◌, ◌+◌, ◌<◌, ◌≤◌, ◌^◌, ◌∷◌, [], ℕ, List, length, IfSome, OnErr, OnOk};
ghost use Rattle.disk_model.specs.Crashes.{Holds};
ghost use Rattle.agent_state.specs.Images.{number_place};
ghost use Rattle.disk_model.specs.Numbers.{bytes_4};
ghost use Rattle.agent_state.specs.Renewals as renewals;
ghost use Rattle.agent_state.specs.Renewals.{IsLaid, IsNamed, new_gate, new_home, other_of};
ghost use Rattle.agent_state.specs.States.{IsAtRest, IsEither};
ghost use Rattle.agent_state.specs.Stored.{IsAside, home_of, part_bytes};
ghost use Rattle.disk_model.specs.Moments.{LeavesOnly};
ghost use Rattle.wan_edge.specs.Streams.{KeepsTelling, Rose};

use crate::place::Place;
use disk_model::{Disk, put};
use wan_edge::Failed;

/// Writes a file anew that is at rest at this place: a part with one batch stands aside of the live one
/// before the number that doesn't count names it, and that before it counts. A crash at any moment leaves
/// the batches that there were, or the new one alone; after `Ok` it leaves the new one.
pub(crate) fn renew<D: Disk>(
    disk: &mut D,
    place: Place,
    to: u64,
    bytes: &[u8],
) -> Result<(), Failed>
    requires aside { IsAside place to (length bytes.now) }
    requires small { to < 2 ^ 32 }
    ensures any_moment { (kept : List (List ℕ)) (batch : List ℕ)
        → Holds (IsAtRest (home_of place) place.gate kept) (D.told disk.old).bytes
        (D.told disk.old).may_leave
        → length batch < 2 ^ 32
        → bytes.now ≡ part_bytes batch
        → IfSome (D.told disk.old).bytes
        (λ _. LeavesOnly D.told disk.old disk.new (IsEither kept (batch ∷ []))) }
    ensures done { OnOk result
        ((kept : List (List ℕ)) (batch : List ℕ)
        → Holds (IsAtRest (home_of place) place.gate kept) (D.told disk.old).bytes
        (D.told disk.old).may_leave
        → length batch < 2 ^ 32
        → bytes.now ≡ part_bytes batch
        → Holds (IsAtRest (new_home (home_of place) to) (new_gate to batch) (batch ∷ []))
        (D.told disk.new).bytes (D.told disk.new).may_leave) }
    ensures told { KeepsTelling (D.told disk.old).bytes (D.told disk.new).bytes }
    ensures cause { OnErr result (Rose (D.told disk.old).faults (D.told disk.new).faults) }
    ensures count { (D.told disk.old).faults ≤ (D.told disk.new).faults }
{
    lay(disk, place, to, bytes)?;
    name(disk, place, to)?;
    switch(disk, place)?;
    Ok(())
}

// Writes the new part aside of the live one.
fn lay<D: Disk>(disk: &mut D, place: Place, to: u64, bytes: &[u8]) -> Result<(), Failed>
    requires { IsAside place to (length bytes.now) }
    ensures any_moment { (kept : List (List ℕ)) (batch : List ℕ)
        → Holds (IsAtRest (home_of place) place.gate kept) (D.told disk.old).bytes
        (D.told disk.old).may_leave
        → IfSome (D.told disk.old).bytes
        (λ _. LeavesOnly D.told disk.old disk.new (IsEither kept (batch ∷ []))) }
    ensures done { OnOk result
        ((kept : List (List ℕ)) (batch : List ℕ)
        → Holds (IsAtRest (home_of place) place.gate kept) (D.told disk.old).bytes
        (D.told disk.old).may_leave
        → length batch < 2 ^ 32
        → bytes.now ≡ part_bytes batch
        → Holds (IsLaid (home_of place) place.gate kept to batch) (D.told disk.new).bytes
        (D.told disk.new).may_leave) }
    ensures told { KeepsTelling (D.told disk.old).bytes (D.told disk.new).bytes }
    ensures cause { OnErr result (Rose (D.told disk.old).faults (D.told disk.new).faults) }
    ensures count { (D.told disk.old).faults ≤ (D.told disk.new).faults }
{
    put(disk, to, bytes)?;
    Ok(())
}

// Lets the number that doesn't count name the new part.
fn name<D: Disk>(disk: &mut D, place: Place, to: u64) -> Result<(), Failed>
    requires { to < 2 ^ 32 }
    ensures any_moment { (kept : List (List ℕ)) (batch : List ℕ)
        → Holds (IsLaid (home_of place) place.gate kept to batch) (D.told disk.old).bytes
        (D.told disk.old).may_leave
        → IfSome (D.told disk.old).bytes
        (λ _. LeavesOnly D.told disk.old disk.new (IsEither kept (batch ∷ []))) }
    ensures done { OnOk result
        ((kept : List (List ℕ)) (batch : List ℕ)
        → Holds (IsLaid (home_of place) place.gate kept to batch) (D.told disk.old).bytes
        (D.told disk.old).may_leave
        → Holds (IsNamed (home_of place) place.gate kept to batch) (D.told disk.new).bytes
        (D.told disk.new).may_leave) }
    ensures told { KeepsTelling (D.told disk.old).bytes (D.told disk.new).bytes }
    ensures cause { OnErr result (Rose (D.told disk.old).faults (D.told disk.new).faults) }
    ensures count { (D.told disk.old).faults ≤ (D.told disk.new).faults }
{
    let at = idle_place(place.second);
    let number = number_bytes(to as u32);
    put(disk, at, &number)?;
    Ok(())
}

// Lets that number count.
fn switch<D: Disk>(disk: &mut D, place: Place) -> Result<(), Failed>
    ensures any_moment { (kept : List (List ℕ)) (to : ℕ) (batch : List ℕ)
        → Holds (IsNamed (home_of place) place.gate kept to batch) (D.told disk.old).bytes
        (D.told disk.old).may_leave
        → IfSome (D.told disk.old).bytes
        (λ _. LeavesOnly D.told disk.old disk.new (IsEither kept (batch ∷ []))) }
    ensures done { OnOk result
        ((kept : List (List ℕ)) (to : ℕ) (batch : List ℕ)
        → Holds (IsNamed (home_of place) place.gate kept to batch) (D.told disk.old).bytes
        (D.told disk.old).may_leave
        → Holds (IsAtRest (new_home (home_of place) to) (new_gate to batch) (batch ∷ []))
        (D.told disk.new).bytes (D.told disk.new).may_leave) }
    ensures told { KeepsTelling (D.told disk.old).bytes (D.told disk.new).bytes }
    ensures cause { OnErr result (Rose (D.told disk.old).faults (D.told disk.new).faults) }
    ensures count { (D.told disk.old).faults ≤ (D.told disk.new).faults }
{
    let side = side_byte(place.second);
    put(disk, 1, &[side])?;
    Ok(())
}

// Where the number stands that doesn't count.
fn idle_place(second: bool) -> u64
    ensures { result ≡ number_place (other_of second) }
{
    if second { 2 } else { 6 }
}

// The byte by which it counts.
fn side_byte(second: bool) -> u8
    ensures { result ≡ renewals.side_byte second }
{
    if second { 0 } else { 1 }
}

#[tactic(auto, unfolding(disk_model::specs::Numbers::bytes_4))]
fn number_bytes(number: u32) -> [u8; 4]
    ensures { result ≡ bytes_4 number }
{
    number.to_be_bytes()
}
