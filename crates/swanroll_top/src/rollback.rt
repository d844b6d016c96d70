//! The command `rollback`: a rollout is levelled, at the stage to which it has come or no further than it has to
//! be, and a journal of its way back takes the place of its own.

ghost use Rattle.std.specs.Prelude.{◌≡◌, ◌≢◌, ◌+◌, ◌<◌, ◌^◌, Ok};
ghost use Rattle.rollout_rules.specs.Wan.{Rollout};
ghost use Rattle.wan_edge.specs.Streams.{Rose};
ghost use Rattle.wan_edge.specs.Fleets.{GuestsStay};
ghost use Rattle.rollback_service.specs.Levellings.{IsStartBack, MayStart};
ghost use Rattle.rollback_plan.specs.Turning as turning;
ghost use Rattle.text_commands.specs.Answers.{rollout_in};
ghost use Rattle.swanroll_top.specs.Rollbacks.{Closes, OpensAndRollsBack, Reverts, RevertsIn, RollsBack, TakesBack, back_text};
ghost use Rattle.swanroll_top.specs.Rollouts.{EndsRollout, FollowsRolled, RunsRollout, fleet_of};
ghost use Rattle.text_commands.specs.Runs.{Follows, IsInput};

use crate::rollout_ending::ending_of_rollout;
use crate::run::CommandResult;
use controller_run::Limits;
use dependency_graph::checked_plan_is_valid;
use disk_mirror::Openable;
use disk_model::Disk;
use intent_journal::Unopened;
use lists::Ids;
use retarget_service::journal_room;
use rollback_service::{BackFrom, LevelAnswer, Levelled, Placed, place_back, run_levelling};
use std::alloc::Global;
use std::sync::Wait;
use std::thread::Threads;
use text_commands::{CommandEnd, document_of, read_input, rollout_of, write_text};
use wan_edge::{Fleet, Nums8, Sink, Source};
use wan_model::CheckedPlan;

/// Reads all of the source, levels the rollout of its document within these limits, from what the journal on
/// the disk has and as far as it is asked, and takes it back: a journal of the way back is placed, and then its
/// document is written.
pub fn roll_back<R: Wait + Threads + Sync, S: Source, K: Sink, D: Openable + Drop + Send, F: Fleet>(
    rt: &R,
    alloc: Global,
    limits: Limits,
    origin: BackFrom,
    source: &mut S,
    sink: &mut K,
    disk: D,
    fleet: &mut F,
) -> CommandResult<D>
where
    F::Port: Drop + Send,
    requires migration { limits.migration + 1 < 2 ^ 32 }
    ensures runs { RunsRollout (S.told source.old) (S.told source.new) result.ending
        (K.told sink.old).written (K.told sink.new).written }
    ensures rolls { Reverts D.told F.Port.told (IsInput (S.told source.old) (S.told source.new))
        origin limits disk result.disk (fleet_of (F.told fleet.old)) (fleet_of (F.told fleet.new))
        result.ending (K.told sink.old).written (K.told sink.new).written }
    ensures guests { GuestsStay (F.told fleet.old) (F.told fleet.new) }
    ensures read_fault { result.ending ≡ CommandEnd.ReadFault
        → Rose (S.told source.old).faults (S.told source.new).faults }
    ensures write_fault { result.ending ≡ CommandEnd.WriteFault
        → Rose (K.told sink.old).faults (K.told sink.new).faults }
    ensures disk_fault { result.ending ≡ CommandEnd.DiskFault
        → Rose (D.told disk).faults (D.told result.disk).faults }
    ensures others { (result.ending ≢ CommandEnd.Usage) × (result.ending ≢ CommandEnd.GuestFault) }
{
    match read_input(alloc, source) {
        Ok(input) => roll_back_input(rt, alloc, limits, origin, input, sink, disk, fleet),
        Err(ending) => CommandResult { ending, disk },
    }
}

fn roll_back_input<R: Wait + Threads + Sync, K: Sink, D: Openable + Drop + Send, F: Fleet>(
    rt: &R,
    alloc: Global,
    limits: Limits,
    origin: BackFrom,
    input: Nums8,
    sink: &mut K,
    disk: D,
    fleet: &mut F,
) -> CommandResult<D>
where
    F::Port: Drop + Send,
    requires { limits.migration + 1 < 2 ^ 32 }
    ensures follows { FollowsRolled (rollout_in input) result.ending (K.told sink.old).written
        (K.told sink.new).written }
    ensures rolls { RevertsIn D.told F.Port.told (rollout_in input) origin limits disk result.disk
        (fleet_of (F.told fleet.old)) (fleet_of (F.told fleet.new)) result.ending
        (K.told sink.old).written (K.told sink.new).written }
    ensures guests { GuestsStay (F.told fleet.old) (F.told fleet.new) }
    ensures write_fault { result.ending ≡ CommandEnd.WriteFault
        → Rose (K.told sink.old).faults (K.told sink.new).faults }
    ensures disk_fault { result.ending ≡ CommandEnd.DiskFault
        → Rose (D.told disk).faults (D.told result.disk).faults }
{
    match rollout_of(alloc, input) {
        Ok(plan) => roll_back_plan(rt, alloc, limits, origin, plan, sink, disk, fleet),
        Err(ending) => CommandResult { ending, disk },
    }
}

/// Opens the disk, and rolls back from what it tells then.
fn roll_back_plan<R: Wait + Threads + Sync, K: Sink, D: Openable + Drop + Send, F: Fleet>(
    rt: &R,
    alloc: Global,
    limits: Limits,
    origin: BackFrom,
    plan: CheckedPlan,
    sink: &mut K,
    mut disk: D,
    fleet: &mut F,
) -> CommandResult<D>
where
    F::Port: Drop + Send,
    requires { limits.migration + 1 < 2 ^ 32 }
    ensures rolls { OpensAndRollsBack D.told F.Port.told plan origin limits disk result.disk
        (fleet_of (F.told fleet.old)) (fleet_of (F.told fleet.new)) result.ending
        (K.told sink.old).written (K.told sink.new).written }
    ensures ends { EndsRollout result.ending (K.told sink.old).written (K.told sink.new).written }
    ensures guests { GuestsStay (F.told fleet.old) (F.told fleet.new) }
    ensures write_fault { result.ending ≡ CommandEnd.WriteFault
        → Rose (K.told sink.old).faults (K.told sink.new).faults }
    ensures disk_fault { result.ending ≡ CommandEnd.DiskFault
        → Rose (D.told disk).faults (D.told result.disk).faults }
{
    match disk.open(journal_room(&plan)) {
        Ok(()) => roll_back_opened(rt, alloc, limits, origin, plan, sink, disk, fleet),
        Err(_) => {
            drop(plan);
            CommandResult {
                ending: CommandEnd::DiskFault,
                disk,
            }
        }
    }
}

fn roll_back_opened<R: Wait + Threads + Sync, K: Sink, D: Disk + Drop + Send, F: Fleet>(
    rt: &R,
    alloc: Global,
    limits: Limits,
    origin: BackFrom,
    plan: CheckedPlan,
    sink: &mut K,
    disk: D,
    fleet: &mut F,
) -> CommandResult<D>
where
    F::Port: Drop + Send,
    requires { limits.migration + 1 < 2 ^ 32 }
    ensures rolls { RollsBack D.told F.Port.told plan origin limits disk result.disk
        (fleet_of (F.told fleet.old)) (fleet_of (F.told fleet.new)) result.ending
        (K.told sink.old).written (K.told sink.new).written }
    ensures ends { EndsRollout result.ending (K.told sink.old).written (K.told sink.new).written }
    ensures guests { GuestsStay (F.told fleet.old) (F.told fleet.new) }
    ensures write_fault { result.ending ≡ CommandEnd.WriteFault
        → Rose (K.told sink.old).faults (K.told sink.new).faults }
    ensures disk_fault { result.ending ≡ CommandEnd.DiskFault
        → Rose (D.told disk).faults (D.told result.disk).faults }
{
    checked_plan_is_valid(&plan);
    match run_levelling(rt, alloc, plan, origin, limits, disk, fleet) {
        Ok(levelled) => {
            let Levelled { disk, answer } = levelled;
            close(alloc, limits.migration, answer, sink, disk)
        }
        Err(unopened) => {
            let Unopened { disk, cause } = unopened;
            CommandResult {
                ending: CommandEnd::from(cause),
                disk,
            }
        }
    }
}

/// Takes a rollout back that is level, or says how the run ends without that.
fn close<K: Sink, D: Disk>(
    alloc: Global,
    migration: u32,
    answer: LevelAnswer,
    sink: &mut K,
    disk: D,
) -> CommandResult<D>
    requires start { MayStart answer }
    requires migration { migration + 1 < 2 ^ 32 }
    ensures closes { Closes D.told migration answer disk result.disk result.ending
        (K.told sink.old).written (K.told sink.new).written }
    ensures ends { EndsRollout result.ending (K.told sink.old).written (K.told sink.new).written }
    ensures write_fault { result.ending ≡ CommandEnd.WriteFault
        → Rose (K.told sink.old).faults (K.told sink.new).faults }
{
    match answer {
        LevelAnswer::Level(plan, start) => take_back(alloc, migration, plan, start, sink, disk),
        LevelAnswer::Unlevel(outcome) => CommandResult {
            ending: ending_of_rollout(outcome),
            disk,
        },
    }
}

/// Places a journal of the way back from a start, and then writes the document of the way back.
fn take_back<K: Sink, D: Disk>(
    alloc: Global,
    migration: u32,
    plan: CheckedPlan,
    start: Ids,
    sink: &mut K,
    disk: D,
) -> CommandResult<D>
    requires start { IsStartBack plan start }
    requires migration { migration + 1 < 2 ^ 32 }
    ensures takes { TakesBack D.told plan migration start disk result.disk result.ending
        (K.told sink.old).written (K.told sink.new).written }
    ensures ends { EndsRollout result.ending (K.told sink.old).written (K.told sink.new).written }
    ensures write_fault { result.ending ≡ CommandEnd.WriteFault
        → Rose (K.told sink.old).faults (K.told sink.new).faults }
{
    let Placed { disk, answer } = place_back(alloc, plan, migration, start, disk);
    match answer {
        Ok(there) => CommandResult {
            ending: write_back(alloc, there, sink),
            disk,
        },
        Err(cause) => CommandResult {
            ending: CommandEnd::from(cause),
            disk,
        },
    }
}

/// Writes the document of a rollout back, and a line feed.
fn write_back<K: Sink>(alloc: Global, there: CheckedPlan, sink: &mut K) -> CommandEnd
    ensures follows { (r : Rollout)
        → there ≡ turning.back r
        → Follows (Ok (back_text r)) result (K.told sink.old).written (K.told sink.new).written }
    ensures ends { EndsRollout result (K.told sink.old).written (K.told sink.new).written }
    ensures write_fault { result ≡ CommandEnd.WriteFault
        → Rose (K.told sink.old).faults (K.told sink.new).faults }
{
    match document_of(alloc, &there) {
        Ok(document) => {
            drop(there);
            write_text(sink, document.as_str())
        }
        Err(_) => {
            drop(there);
            CommandEnd::OutOfMemory
        }
    }
}
