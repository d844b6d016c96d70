//! A rollout is drained: nothing begins, and what is in flight is awaited.
ghost use Rattle.std.specs.Prelude.{◌≡◌, ◌≤◌, ℕ, IfErr, IfOk};
ghost use Rattle.intent_journal.specs.Openings.{IsLeft};
ghost use Rattle.wan_edge.specs.Streams.{Rose};
ghost use Rattle.wan_edge.specs.Fleets.{GuestsStay};
ghost use Rattle.rollout_book.specs.JournaledRounds.{IsNewBook};
ghost use Rattle.switch_ports.specs.Berths.{ports_of};
ghost use Rattle.rollout_report.specs.Journals.{digest_for};
ghost use Rattle.rollback_plan.specs.Levels as levels;
ghost use Rattle.rollback_service.specs.Drainings.{HasDrained, HasRunFrom};

use crate::opening::open_rounds;
use crate::unrun::unrun;
use controller_run::{Limits, RolloutResult, RunEnd, run_book};
use disk_model::Disk;
use intent_journal::Unopened;
use order_policy::Policy;
use rollback_plan::levelling_rank;
use rollout_book::{Book, JournaledRounds};
use std::alloc::Global;
use std::sync::Wait;
use std::thread::Threads;
use wan_edge::Fleet;
use wan_model::{CheckedPlan, OpView};

/// Drains the rollout of a plan. Its journal is opened on the disk, or made where there is none yet, and the
/// rollout is run over the fleet's ports with every operation held back, for levelling at stage 0 begins
/// nothing: what is in flight is offered again until it is answered. The disk comes back with every answer, and
/// where the run is finished, or held, nothing is in flight. A journal that is refused is left as it was, and
/// then no port is opened.
pub fn run_draining<R: Wait + Threads + Sync, D: Disk + Drop + Send, F: Fleet>(
    rt: &R,
    alloc: Global,
    plan: CheckedPlan,
    limits: Limits,
    disk: D,
    fleet: &mut F,
) -> Result<RolloutResult<D>, Unopened<D>>
where
    F::Port: Drop + Send,
    ensures drained { IfOk result
        (λ drained. HasDrained D.told F.Port.told plan (digest_for plan limits.migration)
        limits.rounds disk (ports_of (F.told fleet.old)) (ports_of (F.told fleet.new)) drained.disk
        drained.outcome) }
    ensures unopened { IfErr result
        (λ unopened. IsLeft D.told plan (digest_for plan limits.migration) disk unopened.cause
        unopened.disk) }
    ensures untouched { IfErr result (λ _. fleet.new ≡ fleet.old) }
    ensures guests { GuestsStay (F.told fleet.old) (F.told fleet.new) }
    ensures no_port { IfOk result
        (λ drained. (switch : ℕ)
        → drained.outcome.end ≡ RunEnd.NoPort switch
        → Rose (F.told fleet.old).faults (F.told fleet.new).faults) }
    ensures count { (F.told fleet.old).faults ≤ (F.told fleet.new).faults }
{
    match open_rounds(alloc, plan, limits.migration, disk) {
        Ok(chronicle) => Ok(run_from(rt, alloc, chronicle, 0, fleet, limits)),
        Err(unopened) => Err(unopened),
    }
}

// Runs the rollout of journaled rounds that were opened, under a policy that is made here and lent: longer chains
// first, and nothing of what stands at this stage or past it. Without memory for it nothing is begun.
fn run_from<R: Wait + Threads + Sync, D: Disk + Drop + Send, F: Fleet>(
    rt: &R,
    alloc: Global,
    chronicle: JournaledRounds<D>,
    stage: u32,
    fleet: &mut F,
    limits: Limits,
) -> RolloutResult<D>
where
    F::Port: Drop + Send,
    requires { IsNewBook D.told chronicle }
    ensures run { HasRunFrom D.told F.Port.told stage limits.migration limits.rounds chronicle
        (ports_of (F.told fleet.old)) (ports_of (F.told fleet.new)) result.disk result.outcome }
    ensures guests { GuestsStay (F.told fleet.old) (F.told fleet.new) }
    ensures no_port { (switch : ℕ)
        → result.outcome.end ≡ RunEnd.NoPort switch
        → Rose (F.told fleet.old).faults (F.told fleet.new).faults }
    ensures count { (F.told fleet.old).faults ≤ (F.told fleet.new).faults }
{
    match Box::new(
        alloc,
        move |view: OpView| -> u64
            ensures { result ≡ levels.levelling stage view }
        { levelling_rank(stage, view) },
    ) {
        Ok(closure) => {
            let ask: Box<dyn Fn(OpView) -> u64 + Send + Sync> = closure;
            let policy = Policy::holding(ask);
            let book = Book {
                chronicle,
                policy: &policy,
            };
            run_book(rt, alloc, book, fleet, limits)
        }
        Err(_) => unrun(chronicle),
    }
}
