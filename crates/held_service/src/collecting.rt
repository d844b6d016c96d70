//! What the switches of a rollout hold, as a row.
ghost use Rattle.std.specs.Prelude.{◌≡◌, ℕ, ◌≤◌, length, IfErr, IfOk, IsErrOf, OnOk};
ghost use Rattle.rollout_rules.specs.Items.{item_count};
ghost use Rattle.switch_ports.specs.Berths.{ports_of};
ghost use Rattle.wan_edge.specs.Streams.{Rose};
ghost use Rattle.wan_edge.specs.Fleets.{GuestsStay};
ghost use Rattle.held_service.specs.Noting.{no_notes};
ghost use Rattle.held_service.specs.Questions.{asked_homes};
ghost use Rattle.held_service.specs.Visits.{Fails, TellsAll};

use crate::NotTold;
use crate::homes::asked_homes;
use crate::service::no_notes;
use crate::visiting::ask_each;
use dependency_graph::Index;
use rollout_rules::Held;
use std::alloc::Global;
use wan_edge::Fleet;
use wan_model::CheckedPlan;

/// Asks the home of each item that has an operation what it holds of it, as [`held_text`](crate::held_text) does,
/// but by questions of this migration. Gives the pair that each was told, by the items' numbers; none of an item
/// without operations.
///
/// # Errors
///
/// As those of [`held_text`](crate::held_text).
pub fn held_pairs<F: Fleet>(
    alloc: Global,
    plan: &CheckedPlan,
    migration: u32,
    rounds: u32,
    fleet: &mut F,
) -> Result<Vec<Option<Held>>, NotTold>
    ensures ok { IfOk result
        (λ pairs. TellsAll F.Port.told plan.now.problem plan.now.plan migration rounds
        (ports_of (F.told fleet.old)) (ports_of (F.told fleet.new)) pairs.items) }
    ensures rows { IfOk result (λ pairs. length pairs.items ≡ item_count plan.now.problem) }
    ensures err { IfErr result
        (λ why. Fails F.Port.told plan.now.problem plan.now.plan migration rounds why
        (ports_of (F.told fleet.old)) (ports_of (F.told fleet.new))) }
    ensures guests { GuestsStay (F.told fleet.old) (F.told fleet.new) }
    ensures cause { (w : ℕ)
        → IsErrOf result (NotTold.NoPort w)
        → Rose (F.told fleet.old).faults (F.told fleet.new).faults }
    ensures count { (F.told fleet.old).faults ≤ (F.told fleet.new).faults }
{
    let index = Index::new(alloc, plan)?;
    let homes = asked_homes(alloc, plan, &index)?;
    collect(
        alloc,
        plan,
        &index,
        homes.as_slice(),
        migration,
        rounds,
        fleet,
    )
}

// The same, where it is known who is asked about each item.
fn collect<F: Fleet>(
    alloc: Global,
    plan: &CheckedPlan,
    index: &Index,
    homes: &[Option<u32>],
    migration: u32,
    rounds: u32,
    fleet: &mut F,
) -> Result<Vec<Option<Held>>, NotTold>
    requires index { index.now ≡ plan.now }
    requires homes { homes.now ≡ asked_homes plan.now.problem plan.now.plan }
    ensures ok { IfOk result
        (λ pairs. TellsAll F.Port.told plan.now.problem plan.now.plan migration rounds
        (ports_of (F.told fleet.old)) (ports_of (F.told fleet.new)) pairs.items) }
    ensures rows { IfOk result (λ pairs. length pairs.items ≡ item_count plan.now.problem) }
    ensures err { IfErr result
        (λ why. Fails F.Port.told plan.now.problem plan.now.plan migration rounds why
        (ports_of (F.told fleet.old)) (ports_of (F.told fleet.new))) }
    ensures guests { GuestsStay (F.told fleet.old) (F.told fleet.new) }
    ensures cause { (w : ℕ)
        → IsErrOf result (NotTold.NoPort w)
        → Rose (F.told fleet.old).faults (F.told fleet.new).faults }
    ensures count { (F.told fleet.old).faults ≤ (F.told fleet.new).faults }
{
    let mut row = no_notes(alloc, index.item_count())?;
    note_all(
        alloc, plan, index, homes, migration, rounds, fleet, &mut row,
    )?;
    Ok(row)
}

// Notes what each is told of in this row, in which nothing is noted yet.
fn note_all<F: Fleet>(
    alloc: Global,
    plan: &CheckedPlan,
    index: &Index,
    homes: &[Option<u32>],
    migration: u32,
    rounds: u32,
    fleet: &mut F,
    notes: &mut [Option<Held>],
) -> Result<(), NotTold>
    requires index { index.now ≡ plan.now }
    requires homes { homes.now ≡ asked_homes plan.now.problem plan.now.plan }
    requires none { notes.old ≡ no_notes (item_count plan.now.problem) }
    ensures ok { OnOk result
        (TellsAll F.Port.told plan.now.problem plan.now.plan migration rounds
        (ports_of (F.told fleet.old)) (ports_of (F.told fleet.new)) notes.new) }
    ensures rows { OnOk result (length notes.new ≡ item_count plan.now.problem) }
    ensures err { IfErr result
        (λ why. Fails F.Port.told plan.now.problem plan.now.plan migration rounds why
        (ports_of (F.told fleet.old)) (ports_of (F.told fleet.new))) }
    ensures guests { GuestsStay (F.told fleet.old) (F.told fleet.new) }
    ensures cause { (w : ℕ)
        → IsErrOf result (NotTold.NoPort w)
        → Rose (F.told fleet.old).faults (F.told fleet.new).faults }
    ensures count { (F.told fleet.old).faults ≤ (F.told fleet.new).faults }
{
    let count = index.item_count();
    match ask_each(
        alloc,
        fleet,
        plan.problem(),
        homes,
        count,
        migration,
        rounds,
        notes,
    ) {
        Ok(()) => Ok(()),
        Err(why) => Err(why),
    }
}
