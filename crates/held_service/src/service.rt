//! What the switches of a rollout hold, from the first question to the text.
ghost use Rattle.std.specs.Prelude.{◌≡◌, ℕ, ◌≤◌, length, IfErr, IfOk, IsErrOf};
ghost use Rattle.rollout_rules.specs.Items.{item_count};
ghost use Rattle.switch_ports.specs.Berths.{ports_of};
ghost use Rattle.wan_edge.specs.Streams.{Rose};
ghost use Rattle.wan_edge.specs.Fleets.{GuestsStay};
ghost use Rattle.held_service.specs.HeldText.{AsksAll, held_text};
ghost use Rattle.held_service.specs.Noting.{no_notes};
ghost use Rattle.held_service.specs.Questions.{asked_homes};

use crate::NotTold;
use crate::held_lines::text_of;
use crate::homes::asked_homes;
use crate::visiting::ask_each;
use dependency_graph::Index;
use lists::{Memory, Text};
use rollout_rules::Held;
use std::alloc::Global;
use wan_edge::Fleet;
use wan_model::CheckedPlan;

/// Asks the home of each item that has an operation what it holds of it, in so many rounds at the most, and
/// gives what all of them told as a text: a line an item, by number, and a last one with how many items there
/// are and the greatest migration that is held of one. The questions name migration 0. The switches are asked one
/// after the other, each by the name that the problem has for it, and what a switch holds stays as it was.
///
/// # Errors
///
/// `NoPort` with a switch for which the fleet has none, `Port` where one fails, `Spent` with an item that wasn't
/// told in so many rounds, `NotAsked` and `NoAnswer` where a switch tells what can't be, and `Memory`. Nothing
/// is told then, and no further switch is asked.
pub fn held_text<F: Fleet>(
    alloc: Global,
    plan: &CheckedPlan,
    rounds: u32,
    fleet: &mut F,
) -> Result<Text, NotTold>
    ensures asks { AsksAll result F.Port.told plan.now.problem plan.now.plan rounds
        (ports_of (F.told fleet.old)) (ports_of (F.told fleet.new)) }
    ensures guests { GuestsStay (F.told fleet.old) (F.told fleet.new) }
    ensures cause { (w : ℕ)
        → IsErrOf result (NotTold.NoPort w)
        → Rose (F.told fleet.old).faults (F.told fleet.new).faults }
    ensures count { (F.told fleet.old).faults ≤ (F.told fleet.new).faults }
{
    let index = Index::new(alloc, plan)?;
    let homes = asked_homes(alloc, plan, &index)?;
    ask_and_tell(alloc, plan, &index, homes.as_slice(), rounds, fleet)
}

// Asks the switches that are to be asked about each item, and tells what they told.
fn ask_and_tell<F: Fleet>(
    alloc: Global,
    plan: &CheckedPlan,
    index: &Index,
    homes: &[Option<u32>],
    rounds: u32,
    fleet: &mut F,
) -> Result<Text, NotTold>
    requires index { index.now ≡ plan.now }
    requires homes { homes.now ≡ asked_homes plan.now.problem plan.now.plan }
    ensures asks { AsksAll result F.Port.told plan.now.problem plan.now.plan rounds
        (ports_of (F.told fleet.old)) (ports_of (F.told fleet.new)) }
    ensures guests { GuestsStay (F.told fleet.old) (F.told fleet.new) }
    ensures cause { (w : ℕ)
        → IsErrOf result (NotTold.NoPort w)
        → Rose (F.told fleet.old).faults (F.told fleet.new).faults }
    ensures count { (F.told fleet.old).faults ≤ (F.told fleet.new).faults }
{
    let mut row = no_notes(alloc, index.item_count())?;
    ask_noting(alloc, plan, index, homes, rounds, fleet, row.as_mut_slice())
}

/// A row in which nothing is noted of any of so many items.
pub(crate) fn no_notes(alloc: Global, count: u32) -> Result<Vec<Option<Held>>, Memory>
    ensures { IfOk result (λ notes. notes.items ≡ no_notes count) }
{
    let notes = vec![in alloc; None; count as usize]?;
    Ok(notes)
}

// The same, where what they tell is noted in this row.
fn ask_noting<F: Fleet>(
    alloc: Global,
    plan: &CheckedPlan,
    index: &Index,
    homes: &[Option<u32>],
    rounds: u32,
    fleet: &mut F,
    notes: &mut [Option<Held>],
) -> Result<Text, NotTold>
    requires index { index.now ≡ plan.now }
    requires homes { homes.now ≡ asked_homes plan.now.problem plan.now.plan }
    requires none { notes.old ≡ no_notes (item_count plan.now.problem) }
    ensures asks { AsksAll result F.Port.told plan.now.problem plan.now.plan rounds
        (ports_of (F.told fleet.old)) (ports_of (F.told fleet.new)) }
    ensures guests { GuestsStay (F.told fleet.old) (F.told fleet.new) }
    ensures cause { (w : ℕ)
        → IsErrOf result (NotTold.NoPort w)
        → Rose (F.told fleet.old).faults (F.told fleet.new).faults }
    ensures count { (F.told fleet.old).faults ≤ (F.told fleet.new).faults }
{
    let count = index.item_count();
    match ask_each(alloc, fleet, plan.problem(), homes, count, 0, rounds, notes) {
        Ok(()) => told_text(alloc, plan, index, homes, notes),
        Err(why) => Err(why),
    }
}

// The text of what is noted.
fn told_text(
    alloc: Global,
    plan: &CheckedPlan,
    index: &Index,
    homes: &[Option<u32>],
    notes: &[Option<Held>],
) -> Result<Text, NotTold>
    requires index { index.now ≡ plan.now }
    requires homes { homes.now ≡ asked_homes plan.now.problem plan.now.plan }
    requires rows { length notes.now ≡ item_count plan.now.problem }
    ensures ok { IfOk result
        (λ text. text ≡ held_text plan.now.problem plan.now.plan notes.now) }
    ensures err { IfErr result (λ why. why ≡ NotTold.Memory) }
{
    let text = text_of(alloc, plan, index, homes, notes)?;
    Ok(text)
}
