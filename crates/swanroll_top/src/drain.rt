//! The command `drain`: what a rollout has in flight is awaited, and nothing begins.

ghost use Rattle.std.specs.Prelude.{◌≡◌, ◌≢◌, ◌-◌, IfOk};
ghost use Rattle.wan_edge.specs.Streams.{Rose};
ghost use Rattle.wan_edge.specs.Fleets.{GuestsStay};
ghost use Rattle.swanroll_top.specs.Drains.{Drains, DrainsIn, DrainsOut, OpensAndDrains, drained_line, drained_or_ending, line_with_left};
ghost use Rattle.text_commands.specs.Answers.{rollout_in};
ghost use Rattle.swanroll_top.specs.Rollouts.{EndsRollout, FollowsRolled, IsDiskFault, RunsRollout, fleet_of};
ghost use Rattle.text_commands.specs.Runs.{Follows, Gives, IsInput};

use crate::rollout_ending::ending_of_rollout;
use crate::run::CommandResult;
use controller_run::{Limits, RolloutResult, RunEnd, RunOutcome};
use dependency_graph::checked_plan_is_valid;
use disk_mirror::Openable;
use disk_model::Disk;
use intent_journal::Unopened;
use lists::{Memory, Text};
use retarget_service::journal_room;
use rollback_service::run_draining;
use std::alloc::Global;
use std::sync::Wait;
use std::thread::Threads;
use text_commands::{CommandEnd, read_input, rollout_of, write_text};
use wan_edge::{Fleet, Nums8, Sink, Source};
use wan_model::CheckedPlan;

/// Reads all of the source, and drains the rollout of its document within these limits, from what the journal
/// on the disk has. A line says how many operations there are, and how many of them are settled.
pub fn drain_out<R: Wait + Threads + Sync, S: Source, K: Sink, D: Openable + Drop + Send, F: Fleet>(
    rt: &R,
    alloc: Global,
    limits: Limits,
    source: &mut S,
    sink: &mut K,
    disk: D,
    fleet: &mut F,
) -> CommandResult<D>
where
    F::Port: Drop + Send,
    ensures runs { RunsRollout (S.told source.old) (S.told source.new) result.ending
        (K.told sink.old).written (K.told sink.new).written }
    ensures rolls { Drains D.told F.Port.told (IsInput (S.told source.old) (S.told source.new))
        limits disk result.disk (fleet_of (F.told fleet.old)) (fleet_of (F.told fleet.new))
        result.ending (K.told sink.old).written (K.told sink.new).written }
    ensures guests { GuestsStay (F.told fleet.old) (F.told fleet.new) }
    ensures read_fault { result.ending ≡ CommandEnd.ReadFault
        → Rose (S.told source.old).faults (S.told source.new).faults }
    ensures write_fault { result.ending ≡ CommandEnd.WriteFault
        → Rose (K.told sink.old).faults (K.told sink.new).faults }
    ensures disk_fault { result.ending ≡ CommandEnd.DiskFault
        → Rose (D.told disk).faults (D.told result.disk).faults }
    ensures others { (result.ending ≢ CommandEnd.Usage) × (result.ending ≢ CommandEnd.GuestFault) }
{
    match read_input(alloc, source) {
        Ok(input) => drain_input(rt, alloc, limits, input, sink, disk, fleet),
        Err(ending) => CommandResult { ending, disk },
    }
}

fn drain_input<R: Wait + Threads + Sync, K: Sink, D: Openable + Drop + Send, F: Fleet>(
    rt: &R,
    alloc: Global,
    limits: Limits,
    input: Nums8,
    sink: &mut K,
    disk: D,
    fleet: &mut F,
) -> CommandResult<D>
where
    F::Port: Drop + Send,
    ensures follows { FollowsRolled (rollout_in input) result.ending (K.told sink.old).written
        (K.told sink.new).written }
    ensures rolls { DrainsIn D.told F.Port.told (rollout_in input) limits disk result.disk
        (fleet_of (F.told fleet.old)) (fleet_of (F.told fleet.new)) result.ending
        (K.told sink.old).written (K.told sink.new).written }
    ensures guests { GuestsStay (F.told fleet.old) (F.told fleet.new) }
    ensures write_fault { result.ending ≡ CommandEnd.WriteFault
        → Rose (K.told sink.old).faults (K.told sink.new).faults }
    ensures disk_fault { result.ending ≡ CommandEnd.DiskFault
        → Rose (D.told disk).faults (D.told result.disk).faults }
{
    match rollout_of(alloc, input) {
        Ok(plan) => drain_plan(rt, alloc, limits, plan, sink, disk, fleet),
        Err(ending) => CommandResult { ending, disk },
    }
}

/// Opens the disk, and drains from what it tells then.
fn drain_plan<R: Wait + Threads + Sync, K: Sink, D: Openable + Drop + Send, F: Fleet>(
    rt: &R,
    alloc: Global,
    limits: Limits,
    plan: CheckedPlan,
    sink: &mut K,
    mut disk: D,
    fleet: &mut F,
) -> CommandResult<D>
where
    F::Port: Drop + Send,
    ensures rolls { OpensAndDrains D.told F.Port.told plan limits disk result.disk
        (fleet_of (F.told fleet.old)) (fleet_of (F.told fleet.new)) result.ending
        (K.told sink.old).written (K.told sink.new).written }
    ensures ends { EndsRollout result.ending (K.told sink.old).written (K.told sink.new).written }
    ensures guests { GuestsStay (F.told fleet.old) (F.told fleet.new) }
    ensures write_fault { result.ending ≡ CommandEnd.WriteFault
        → Rose (K.told sink.old).faults (K.told sink.new).faults }
    ensures disk_fault { result.ending ≡ CommandEnd.DiskFault
        → Rose (D.told disk).faults (D.told result.disk).faults }
{
    match disk.open(journal_room(&plan)) {
        Ok(()) => drain_opened(rt, alloc, limits, plan, sink, disk, fleet),
        Err(_) => {
            drop(plan);
            CommandResult {
                ending: CommandEnd::DiskFault,
                disk,
            }
        }
    }
}

fn drain_opened<R: Wait + Threads + Sync, K: Sink, D: Disk + Drop + Send, F: Fleet>(
    rt: &R,
    alloc: Global,
    limits: Limits,
    plan: CheckedPlan,
    sink: &mut K,
    disk: D,
    fleet: &mut F,
) -> CommandResult<D>
where
    F::Port: Drop + Send,
    ensures rolls { DrainsOut D.told F.Port.told plan limits disk result.disk
        (fleet_of (F.told fleet.old)) (fleet_of (F.told fleet.new)) result.ending
        (K.told sink.old).written (K.told sink.new).written }
    ensures ends { EndsRollout result.ending (K.told sink.old).written (K.told sink.new).written }
    ensures guests { GuestsStay (F.told fleet.old) (F.told fleet.new) }
    ensures write_fault { result.ending ≡ CommandEnd.WriteFault
        → Rose (K.told sink.old).faults (K.told sink.new).faults }
    ensures disk_fault { result.ending ≡ CommandEnd.DiskFault
        → Rose (D.told disk).faults (D.told result.disk).faults }
{
    checked_plan_is_valid(&plan);
    match run_draining(rt, alloc, plan, limits, disk, fleet) {
        Ok(drained) => {
            let RolloutResult { disk, outcome } = drained;
            CommandResult {
                ending: write_drained(alloc, outcome, sink),
                disk,
            }
        }
        Err(unopened) => {
            let Unopened { disk, cause } = unopened;
            CommandResult {
                ending: CommandEnd::from(cause),
                disk,
            }
        }
    }
}

/// Writes the line of a rollout that is drained, or says how the run ends without one.
fn write_drained<K: Sink>(alloc: Global, outcome: RunOutcome, sink: &mut K) -> CommandEnd
    ensures follows { Follows (drained_or_ending outcome) result (K.told sink.old).written
        (K.told sink.new).written }
    ensures ends { EndsRollout result (K.told sink.old).written (K.told sink.new).written }
    ensures disk { result ≡ CommandEnd.DiskFault → IsDiskFault outcome.end }
    ensures write_fault { result ≡ CommandEnd.WriteFault
        → Rose (K.told sink.old).faults (K.told sink.new).faults }
{
    match line_of(alloc, outcome) {
        Ok(line) => write_text(sink, line.as_str()),
        Err(ending) => ending,
    }
}

fn line_of(alloc: Global, outcome: RunOutcome) -> Result<Text, CommandEnd>
    ensures { Gives result (drained_or_ending outcome) }
{
    match outcome.end {
        RunEnd::Finished => Ok(line_with_left(alloc, outcome.operations, 0)?),
        RunEnd::Held => Ok(line_with_left(alloc, outcome.operations, outcome.left)?),
        _ => Err(ending_of_rollout(outcome)),
    }
}

/// The line of a rollout of so many operations, of which so many are left.
fn line_with_left(alloc: Global, operations: u32, left: u64) -> Result<Text, Memory>
    ensures { IfOk result (λ text. text ≡ line_with_left operations left) }
{
    drained_line(alloc, operations, less(operations, left))
}

fn less(operations: u32, left: u64) -> u64
    ensures { result ≡ operations - left }
{
    u64::from(operations).saturating_sub(left)
}

fn drained_line(alloc: Global, operations: u32, settled: u64) -> Result<Text, Memory>
    ensures { IfOk result (λ text. text ≡ drained_line operations settled) }
{
    let line = format!(in alloc; "drained: operations {operations}, settled {settled}\n")?;
    Ok(Text::from(line))
}
