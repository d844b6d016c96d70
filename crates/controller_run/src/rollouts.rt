//! A rollout from its disk to its ports.
ghost use Rattle.std.specs.Prelude.{◌≡◌, ◌≤◌, ℕ, IfErr, IfOk, IfSome};
ghost use Rattle.intent_journal.specs.Openings.{IsLeft};
ghost use Rattle.order_policy.specs.Answers.{rank_by};
ghost use Rattle.wan_edge.specs.Streams.{Rose};
ghost use Rattle.wan_edge.specs.Fleets.{GuestsStay};
ghost use Rattle.rollout_book.specs.Lists.{IsKeptList};
ghost use Rattle.shared_book.specs.Opened.{IsOpened, opening_of};
ghost use Rattle.switch_ports.specs.Berths.{ports_of};
ghost use Rattle.rollout_report.specs.Journals.{digest_for};
ghost use Rattle.controller_run.specs.RolloutEnds.{HasRolled, HasRun, outcome_behind};

use crate::opening::open_book;
use crate::outcome::RunOutcome;
use crate::{Limits, RunEnd, run};
use disk_model::Disk;
use intent_journal::Unopened;
use order_policy::Policy;
use rollout_book::Book;
use std::alloc::Global;
use std::sync::Wait;
use std::thread::Threads;
use wan_edge::Fleet;
use wan_model::CheckedPlan;

/// What a rollout comes to whose journal was opened: the disk, and how it went.
#[derive(Drop)]
pub struct RolloutResult<D> {
    pub disk: D,
    pub outcome: RunOutcome,
}

/// Runs the rollout of a plan: its journal is opened on the disk, or made where there is none yet; what its
/// list has is taken over; and all that is left is rolled out over the fleet's ports. The disk comes back
/// with every answer. A journal that is refused is left as it was, and then no port is opened.
pub fn run_rollout<R: Wait + Threads + Sync, D: Disk + Drop + Send, F: Fleet>(
    rt: &R,
    alloc: Global,
    plan: CheckedPlan,
    policy: &Policy,
    limits: Limits,
    disk: D,
    fleet: &mut F,
) -> Result<RolloutResult<D>, Unopened<D>>
where
    F::Port: Drop + Send,
    ensures rolled { IfOk result
        (λ rolled. HasRolled D.told F.Port.told plan (digest_for plan limits.migration)
        (rank_by policy.now.answers) limits.rounds disk (ports_of (F.told fleet.old))
        (ports_of (F.told fleet.new)) rolled.disk rolled.outcome) }
    ensures unopened { IfErr result
        (λ unopened. IsLeft D.told plan (digest_for plan limits.migration) disk unopened.cause
        unopened.disk) }
    ensures untouched { IfErr result (λ _. fleet.new ≡ fleet.old) }
    ensures guests { GuestsStay (F.told fleet.old) (F.told fleet.new) }
    ensures no_port { IfOk result
        (λ rolled. (switch : ℕ)
        → rolled.outcome.end ≡ RunEnd.NoPort switch
        → Rose (F.told fleet.old).faults (F.told fleet.new).faults) }
    ensures count { (F.told fleet.old).faults ≤ (F.told fleet.new).faults }
{
    match open_book(alloc, plan, limits.migration, policy, disk) {
        Ok(book) => Ok(run_book(rt, alloc, book, fleet, limits)),
        Err(unopened) => Err(unopened),
    }
}

/// Runs the rollout of a book that was opened, and takes the book apart.
pub fn run_book<R: Wait + Threads + Sync, D: Disk + Drop + Send, F: Fleet>(
    rt: &R,
    alloc: Global,
    book: Book<'_, D>,
    fleet: &mut F,
    limits: Limits,
) -> RolloutResult<D>
where
    F::Port: Drop + Send,
    requires opened { IsOpened (opening_of book.chronicle (rank_by book.policy.now.answers))
        book.chronicle }
    requires has { IfSome (D.told book.chronicle.disk).bytes
        (IsKeptList book.chronicle.history.start book.chronicle.entries
        (D.told book.chronicle.disk).may_leave) }
    ensures run { HasRun D.told F.Port.told (rank_by book.entry.policy.now.answers) limits.migration
        limits.rounds book.entry.chronicle (ports_of (F.told fleet.old))
        (ports_of (F.told fleet.new)) result.disk result.outcome }
    ensures guests { GuestsStay (F.told fleet.old) (F.told fleet.new) }
    ensures no_port { (switch : ℕ)
        → result.outcome.end ≡ RunEnd.NoPort switch
        → Rose (F.told fleet.old).faults (F.told fleet.new).faults }
    ensures count { (F.told fleet.old).faults ≤ (F.told fleet.new).faults }
{
    let (book, end) = run(rt, alloc, book, fleet, limits);
    outcome_of(book, end)
}

// What a run comes to that ended so and left this book.
fn outcome_of<D: Disk>(book: Book<'_, D>, end: RunEnd) -> RolloutResult<D>
    ensures disk { result.disk ≡ book.entry.chronicle.disk }
    ensures outcome { result.outcome ≡ outcome_behind book.entry.chronicle end }
{
    let found = book.found();
    let (graph, disk) = book.into_parts();
    RolloutResult {
        disk,
        outcome: RunOutcome::of(graph, found, end),
    }
}
