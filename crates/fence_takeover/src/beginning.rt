ghost use Rattle.std.specs.Prelude.{◌≡◌, ℕ, ◌≤◌, length, IfOk, IsErrOf, IsTrue};
ghost use Rattle.rollout_rules.specs.History.{started};
ghost use Rattle.rollout_rules.specs.Items.{item_count};
ghost use Rattle.rollout_rules.specs.Legal.{is_sound};
ghost use Rattle.rollout_rules.specs.Wan.{Rollout};
ghost use Rattle.rollout_report.specs.Journals.{digest_for};
ghost use Rattle.switch_ports.specs.Berths.{ports_of};
ghost use Rattle.wan_edge.specs.Streams.{Rose};
ghost use Rattle.wan_edge.specs.Fleets.{GuestsStay};
ghost use Rattle.fence_takeover.specs.declared.end.FenceEnd.TheVariants as fenced;
ghost use Rattle.fence_takeover.specs.declared.begun.NotBegun.TheVariants as why;
ghost use Rattle.fence_takeover.specs.Beginnings.{AnswerOf, Begins, BeginsAt, OpensAt, PlacesAt};

use crate::{Begun, NotBegun, fence};
use dependency_graph::sound;
use disk_mirror::Openable;
use disk_model::Disk;
use fenced_ports::OneTerm;
use intent_journal::JournalFault;
use lists::{Ids, Memory};
use rollback_service::{Placed, place_known, with_start};
use rollout_report::{KnownPlan, known_plan};
use std::alloc::Global;
use wan_edge::Fleet;
use wan_model::CheckedPlan;

/// Asks the switches of a rollout what they hold, in so many rounds at the most, opens the disk, with room for so
/// many bytes, and puts a journal in the place of the one there: it knows the rollout as this migration, begins at
/// what the switches told of it, and has no entry. The disk is opened only after the last answer, and only where one
/// may begin there: a crash at any moment leaves what stood or the new journal.
///
/// The fleet is one for a controller of one term, since over plain ports nobody would be fenced off.
///
/// # Premises
///
/// The migration began with start 0 of every item; the term is above that of each controller before; and no agent was
/// started anew without what it held. No call can test them. The way back of a rollback is no such migration: its
/// items hold numbers of the one before, and what begins here would begin at contents that no switch holds.
///
/// # Errors
///
/// `Fence` where not all switches told, or what one holds can't be taken over; `Start` with what the start breaks
/// first; `Journal` where the disk couldn't be opened, or the journal wasn't placed.
pub fn begin_takeover<F: Fleet + OneTerm, D: Openable>(
    alloc: Global,
    fleet: &mut F,
    plan: CheckedPlan,
    migration: u32,
    rounds: u32,
    room: u64,
    disk: D,
) -> Begun<D>
    ensures begins { Begins result.answer F.Port.told D.told plan migration rounds room
        (ports_of (F.told fleet.old)) (ports_of (F.told fleet.new)) disk result.disk }
    ensures guests { GuestsStay (F.told fleet.old) (F.told fleet.new) }
    ensures cause { (r : Rollout) (w : ℕ)
        → IsErrOf result.answer (why.Fence r (fenced.NoPort w))
        → Rose (F.told fleet.old).faults (F.told fleet.new).faults }
    ensures count { (F.told fleet.old).faults ≤ (F.told fleet.new).faults }
{
    match fence(alloc, fleet, &plan, migration, rounds) {
        Ok(start) => begin_at(alloc, plan, migration, start, room, disk),
        Err(end) => Begun {
            disk,
            answer: Err(NotBegun::Fence(plan, end)),
        },
    }
}

// The same from a start on.
fn begin_at<D: Openable>(
    alloc: Global,
    plan: CheckedPlan,
    migration: u32,
    start: Ids,
    room: u64,
    disk: D,
) -> Begun<D>
    requires { length start ≡ item_count plan.problem }
    ensures { BeginsAt result.answer D.told plan migration start room disk result.disk }
{
    match sound(alloc, &plan, start.as_slice()) {
        Ok(()) => open_at(alloc, plan, migration, start, room, disk),
        Err(fault) => {
            drop(start);
            Begun {
                disk,
                answer: Err(NotBegun::Start(plan, fault)),
            }
        }
    }
}

// The same from a start at which one may begin: opens the disk, and places the journal.
fn open_at<D: Openable>(
    alloc: Global,
    plan: CheckedPlan,
    migration: u32,
    start: Ids,
    room: u64,
    mut disk: D,
) -> Begun<D>
    requires numbers { length start ≡ item_count plan.problem }
    requires sound { IsTrue (is_sound plan.problem plan.plan start) }
    ensures { OpensAt result.answer D.told plan migration start room disk result.disk }
{
    match disk.open(room) {
        Ok(()) => place_at(alloc, plan, migration, start, disk),
        Err(_) => {
            drop(plan);
            drop(start);
            Begun {
                disk,
                answer: Err(NotBegun::Journal(JournalFault::Disk)),
            }
        }
    }
}

// Places the journal of a rollout from a start at which one may begin.
fn place_at<D: Disk>(
    alloc: Global,
    plan: CheckedPlan,
    migration: u32,
    start: Ids,
    disk: D,
) -> Begun<D>
    requires numbers { length start ≡ item_count plan.problem }
    requires sound { IsTrue (is_sound plan.problem plan.plan start) }
    ensures { PlacesAt result.answer D.told plan migration start disk result.disk }
{
    match known_at(alloc, plan, migration, start.as_slice()) {
        Ok(known) => begun_of(place_known(alloc, known, disk), start),
        Err(_) => {
            drop(start);
            Begun {
                disk,
                answer: Err(NotBegun::Journal(JournalFault::Memory)),
            }
        }
    }
}

// The rollout from a start, with what its journal is known by.
fn known_at(
    alloc: Global,
    plan: CheckedPlan,
    migration: u32,
    start: &[u32],
) -> Result<KnownPlan, Memory>
    requires numbers { length start.now ≡ item_count plan.problem }
    requires sound { IsTrue (is_sound plan.problem plan.plan start.now) }
    ensures rollout { IfOk result (λ known. known.graph.rollout ≡ plan) }
    ensures history { IfOk result (λ known. known.graph.history ≡ started start.now) }
    ensures digest { IfOk result (λ known. known.digest ≡ digest_for plan migration) }
{
    let known = known_plan(alloc, plan, migration)?;
    Ok(with_start(known, start))
}

// What placing came to, with the start.
fn begun_of<D>(placed: Placed<D>, start: Ids) -> Begun<D>
    ensures disk { result.disk ≡ placed.disk }
    ensures answer { AnswerOf placed.answer start result.answer }
{
    let Placed { disk, answer } = placed;
    match answer {
        Ok(plan) => Begun {
            disk,
            answer: Ok((plan, start)),
        },
        Err(cause) => {
            drop(start);
            Begun {
                disk,
                answer: Err(NotBegun::Journal(cause)),
            }
        }
    }
}
