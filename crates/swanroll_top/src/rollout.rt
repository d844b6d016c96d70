//! The command `run`: a rollout from the journal on the disk to the ports of a fleet.

ghost use Rattle.std.specs.Prelude.{◌≡◌, ◌≢◌, ◌++◌, IfOk};
ghost use Rattle.order_policy.specs.Answers.{rank_by};
ghost use Rattle.wan_edge.specs.Streams.{Rose};
ghost use Rattle.wan_edge.specs.Fleets.{GuestsStay};
ghost use Rattle.text_commands.specs.Answers.{rollout_in};
ghost use Rattle.swanroll_top.specs.Rollouts.{EndsRollout, FollowsRolled, IsDiskFault, OpensAndRolls, Rolls, RollsIn, RollsOut, RunsRollout, finished_line, fleet_of, line_or_ending};
ghost use Rattle.text_commands.specs.Runs.{Follows, Gives, IsInput};

use crate::rollout_ending::ending_of_rollout;
use crate::run::CommandResult;
use controller_run::{Limits, RolloutResult, RunEnd, RunOutcome, run_rollout};
use dependency_graph::checked_plan_is_valid;
use disk_mirror::Openable;
use disk_model::Disk;
use intent_journal::Unopened;
use lists::{Memory, Text};
use order_policy::Policy;
use retarget_service::journal_room;
use std::alloc::Global;
use std::sync::Wait;
use std::thread::Threads;
use text_commands::{CommandEnd, read_input, rollout_of, write_text};
use wan_edge::{Fleet, Nums8, Sink, Source};
use wan_model::CheckedPlan;

/// Reads all of the source, and runs the rollout of its document within these limits under a policy, from
/// what the journal on the disk has. A line says how many operations there are.
pub fn roll_out<R: Wait + Threads + Sync, S: Source, K: Sink, D: Openable + Drop + Send, F: Fleet>(
    rt: &R,
    alloc: Global,
    limits: Limits,
    policy: &Policy,
    source: &mut S,
    sink: &mut K,
    disk: D,
    fleet: &mut F,
) -> CommandResult<D>
where
    F::Port: Drop + Send,
    ensures runs { RunsRollout (S.told source.old) (S.told source.new) result.ending
        (K.told sink.old).written (K.told sink.new).written }
    ensures rolls { Rolls D.told F.Port.told (IsInput (S.told source.old) (S.told source.new))
        limits (rank_by policy.now.answers) disk result.disk (fleet_of (F.told fleet.old))
        (fleet_of (F.told fleet.new)) result.ending (K.told sink.old).written
        (K.told sink.new).written }
    ensures guests { GuestsStay (F.told fleet.old) (F.told fleet.new) }
    ensures read_fault { result.ending ≡ CommandEnd.ReadFault
        → Rose (S.told source.old).faults (S.told source.new).faults }
    ensures write_fault { result.ending ≡ CommandEnd.WriteFault
        → Rose (K.told sink.old).faults (K.told sink.new).faults }
    ensures disk_fault { result.ending ≡ CommandEnd.DiskFault
        → Rose (D.told disk).faults (D.told result.disk).faults }
    ensures others { (result.ending ≢ CommandEnd.Usage) × (result.ending ≢ CommandEnd.GuestFault) }
{
    match read_input(alloc, source) {
        Ok(input) => roll_out_input(rt, alloc, limits, policy, input, sink, disk, fleet),
        Err(ending) => CommandResult { ending, disk },
    }
}

fn roll_out_input<R: Wait + Threads + Sync, K: Sink, D: Openable + Drop + Send, F: Fleet>(
    rt: &R,
    alloc: Global,
    limits: Limits,
    policy: &Policy,
    input: Nums8,
    sink: &mut K,
    disk: D,
    fleet: &mut F,
) -> CommandResult<D>
where
    F::Port: Drop + Send,
    ensures follows { FollowsRolled (rollout_in input) result.ending (K.told sink.old).written
        (K.told sink.new).written }
    ensures rolls { RollsIn D.told F.Port.told (rollout_in input) limits
        (rank_by policy.now.answers) disk result.disk (fleet_of (F.told fleet.old))
        (fleet_of (F.told fleet.new)) result.ending (K.told sink.old).written
        (K.told sink.new).written }
    ensures guests { GuestsStay (F.told fleet.old) (F.told fleet.new) }
    ensures write_fault { result.ending ≡ CommandEnd.WriteFault
        → Rose (K.told sink.old).faults (K.told sink.new).faults }
    ensures disk_fault { result.ending ≡ CommandEnd.DiskFault
        → Rose (D.told disk).faults (D.told result.disk).faults }
{
    match rollout_of(alloc, input) {
        Ok(plan) => roll_out_plan(rt, alloc, limits, policy, plan, sink, disk, fleet),
        Err(ending) => CommandResult { ending, disk },
    }
}

/// Opens the disk, and runs the rollout from what it tells then.
fn roll_out_plan<R: Wait + Threads + Sync, K: Sink, D: Openable + Drop + Send, F: Fleet>(
    rt: &R,
    alloc: Global,
    limits: Limits,
    policy: &Policy,
    plan: CheckedPlan,
    sink: &mut K,
    mut disk: D,
    fleet: &mut F,
) -> CommandResult<D>
where
    F::Port: Drop + Send,
    ensures rolls { OpensAndRolls D.told F.Port.told plan limits (rank_by policy.now.answers) disk
        result.disk (fleet_of (F.told fleet.old)) (fleet_of (F.told fleet.new)) result.ending
        (K.told sink.old).written (K.told sink.new).written }
    ensures ends { EndsRollout result.ending (K.told sink.old).written (K.told sink.new).written }
    ensures guests { GuestsStay (F.told fleet.old) (F.told fleet.new) }
    ensures write_fault { result.ending ≡ CommandEnd.WriteFault
        → Rose (K.told sink.old).faults (K.told sink.new).faults }
    ensures disk_fault { result.ending ≡ CommandEnd.DiskFault
        → Rose (D.told disk).faults (D.told result.disk).faults }
{
    match disk.open(journal_room(&plan)) {
        Ok(()) => roll_out_opened(rt, alloc, limits, policy, plan, sink, disk, fleet),
        Err(_) => {
            drop(plan);
            CommandResult {
                ending: CommandEnd::DiskFault,
                disk,
            }
        }
    }
}

fn roll_out_opened<R: Wait + Threads + Sync, K: Sink, D: Disk + Drop + Send, F: Fleet>(
    rt: &R,
    alloc: Global,
    limits: Limits,
    policy: &Policy,
    plan: CheckedPlan,
    sink: &mut K,
    disk: D,
    fleet: &mut F,
) -> CommandResult<D>
where
    F::Port: Drop + Send,
    ensures rolls { RollsOut D.told F.Port.told plan limits (rank_by policy.now.answers) disk
        result.disk (fleet_of (F.told fleet.old)) (fleet_of (F.told fleet.new)) result.ending
        (K.told sink.old).written (K.told sink.new).written }
    ensures ends { EndsRollout result.ending (K.told sink.old).written (K.told sink.new).written }
    ensures guests { GuestsStay (F.told fleet.old) (F.told fleet.new) }
    ensures write_fault { result.ending ≡ CommandEnd.WriteFault
        → Rose (K.told sink.old).faults (K.told sink.new).faults }
    ensures disk_fault { result.ending ≡ CommandEnd.DiskFault
        → Rose (D.told disk).faults (D.told result.disk).faults }
{
    checked_plan_is_valid(&plan);
    match run_rollout(rt, alloc, plan, policy, limits, disk, fleet) {
        Ok(rolled) => {
            let RolloutResult { disk, outcome } = rolled;
            CommandResult {
                ending: write_outcome(alloc, outcome, sink),
                disk,
            }
        }
        Err(unopened) => {
            let Unopened { disk, cause } = unopened;
            CommandResult {
                ending: CommandEnd::from(cause),
                disk,
            }
        }
    }
}

/// Writes the line of a rollout that is finished, or says how the run ends without one.
fn write_outcome<K: Sink>(alloc: Global, outcome: RunOutcome, sink: &mut K) -> CommandEnd
    ensures follows { Follows (line_or_ending outcome) result (K.told sink.old).written
        (K.told sink.new).written }
    ensures ends { EndsRollout result (K.told sink.old).written (K.told sink.new).written }
    ensures disk { result ≡ CommandEnd.DiskFault → IsDiskFault outcome.end }
    ensures write_fault { result ≡ CommandEnd.WriteFault
        → Rose (K.told sink.old).faults (K.told sink.new).faults }
{
    match line_of(alloc, outcome) {
        Ok(line) => write_text(sink, line.as_str()),
        Err(ending) => ending,
    }
}

fn line_of(alloc: Global, outcome: RunOutcome) -> Result<Text, CommandEnd>
    ensures { Gives result (line_or_ending outcome) }
{
    match outcome.end {
        RunEnd::Finished => Ok(finished_line(alloc, outcome.operations, outcome.found)?),
        _ => Err(ending_of_rollout(outcome)),
    }
}

fn finished_line(alloc: Global, operations: u32, found: u32) -> Result<Text, Memory>
    ensures { IfOk result (λ text. text ≡ finished_line operations found) }
{
    let line = format!(in alloc; "finished: operations {operations}, found {found}\n")?;
    Ok(Text::from(line))
}
