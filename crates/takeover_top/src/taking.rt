//! The command `takeover`, from its input to its line.
ghost use Rattle.std.specs.Prelude.{◌≡◌, length};
ghost use Rattle.rollout_rules.specs.Items.{item_count};
ghost use Rattle.order_policy.specs.Answers.{rank_by};
ghost use Rattle.wan_edge.specs.Streams.{Rose};
ghost use Rattle.wan_edge.specs.Fleets.{GuestsStay};
ghost use Rattle.text_commands.specs.Runs.{Follows, Gives};
ghost use Rattle.swanroll_top.specs.Rollouts.{IsDiskFault, fleet_of};
ghost use Rattle.takeover_top.specs.Endings.{taken_or_ending};
ghost use Rattle.takeover_top.specs.Takings.{RunsOn, Takes, TakesInput, TakesRollout};

use crate::ending::{TakeoverEnding, ending_of_not_begun};
use crate::lines::taken_line;
use crate::start_total::start_total;
use controller_run::{Limits, RolloutResult, RunEnd, RunOutcome, run_rollout};
use dependency_graph::checked_plan_is_valid;
use disk_mirror::Openable;
use fence_takeover::{Begun, begin_takeover};
use fenced_ports::OneTerm;
use intent_journal::Unopened;
use lists::{Ids, Text};
use order_policy::Policy;
use retarget_service::journal_room;
use std::alloc::Global;
use std::sync::Wait;
use std::thread::Threads;
use swanroll_top::ending_of_rollout;
use text_commands::{CommandEnd, read_input, rollout_of, write_text};
use wan_edge::{Fleet, Nums8, Sink, Source};
use wan_model::{CheckedPlan, item_count};

/// How a takeover ended, and the disk.
#[derive(Drop)]
pub(crate) struct Taken<D> {
    pub ending: TakeoverEnding,
    pub disk: D,
}

/// Reads all of the source, asks the switches of its rollout what they hold, places a journal from there, and runs
/// the rollout from that. A line says how many operations there are, and how many of them the start had settled.
pub(crate) fn take<
    R: Wait + Threads + Sync,
    S: Source,
    K: Sink,
    D: Openable + Drop + Send,
    F: Fleet + OneTerm,
>(
    rt: &R,
    alloc: Global,
    limits: Limits,
    policy: &Policy,
    source: &mut S,
    sink: &mut K,
    disk: D,
    fleet: &mut F,
) -> Taken<D>
where
    F::Port: Drop + Send,
    ensures takes { Takes D.told F.Port.told (S.told source.old) (S.told source.new) limits
        (rank_by policy.now.answers) disk result.disk (fleet_of (F.told fleet.old))
        (fleet_of (F.told fleet.new)) result.ending (K.told sink.old) (K.told sink.new) }
    ensures guests { GuestsStay (F.told fleet.old) (F.told fleet.new) }
{
    match read_input(alloc, source) {
        Ok(input) => take_input(rt, alloc, limits, policy, input, sink, disk, fleet),
        Err(ending) => Taken {
            ending: TakeoverEnding::Ended(ending),
            disk,
        },
    }
}

fn take_input<R: Wait + Threads + Sync, K: Sink, D: Openable + Drop + Send, F: Fleet + OneTerm>(
    rt: &R,
    alloc: Global,
    limits: Limits,
    policy: &Policy,
    input: Nums8,
    sink: &mut K,
    disk: D,
    fleet: &mut F,
) -> Taken<D>
where
    F::Port: Drop + Send,
    ensures takes { TakesInput D.told F.Port.told input limits (rank_by policy.now.answers) disk
        result.disk (fleet_of (F.told fleet.old)) (fleet_of (F.told fleet.new)) result.ending
        (K.told sink.old) (K.told sink.new) }
    ensures guests { GuestsStay (F.told fleet.old) (F.told fleet.new) }
{
    match rollout_of(alloc, input) {
        Ok(plan) => take_plan(rt, alloc, limits, policy, plan, sink, disk, fleet),
        Err(ending) => Taken {
            ending: TakeoverEnding::Ended(ending),
            disk,
        },
    }
}

// Asks the switches, and goes on from what they told.
fn take_plan<R: Wait + Threads + Sync, K: Sink, D: Openable + Drop + Send, F: Fleet + OneTerm>(
    rt: &R,
    alloc: Global,
    limits: Limits,
    policy: &Policy,
    plan: CheckedPlan,
    sink: &mut K,
    disk: D,
    fleet: &mut F,
) -> Taken<D>
where
    F::Port: Drop + Send,
    ensures takes { TakesRollout D.told F.Port.told plan limits (rank_by policy.now.answers) disk
        result.disk (fleet_of (F.told fleet.old)) (fleet_of (F.told fleet.new)) result.ending
        (K.told sink.old) (K.told sink.new) }
    ensures guests { GuestsStay (F.told fleet.old) (F.told fleet.new) }
{
    let room = journal_room(&plan);
    let Begun { disk, answer } = begin_takeover(
        alloc,
        fleet,
        plan,
        limits.migration,
        limits.rounds,
        room,
        disk,
    );
    match answer {
        Ok((plan, start)) => run_on(rt, alloc, limits, policy, plan, start, sink, disk, fleet),
        Err(why) => Taken {
            ending: ending_of_not_begun(why),
            disk,
        },
    }
}

// Runs the rollout from the journal that was placed.
fn run_on<R: Wait + Threads + Sync, K: Sink, D: Openable + Drop + Send, F: Fleet + OneTerm>(
    rt: &R,
    alloc: Global,
    limits: Limits,
    policy: &Policy,
    plan: CheckedPlan,
    start: Ids,
    sink: &mut K,
    disk: D,
    fleet: &mut F,
) -> Taken<D>
where
    F::Port: Drop + Send,
    requires numbers { length start ≡ item_count plan.problem }
    ensures runs { RunsOn D.told F.Port.told plan limits (rank_by policy.now.answers) start disk
        result.disk (fleet_of (F.told fleet.old)) (fleet_of (F.told fleet.new)) result.ending
        (K.told sink.old) (K.told sink.new) }
    ensures guests { GuestsStay (F.told fleet.old) (F.told fleet.new) }
{
    checked_plan_is_valid(&plan);
    let total = start_total(start.as_slice(), item_count(plan.problem()));
    drop(start);
    match run_rollout(rt, alloc, plan, policy, limits, disk, fleet) {
        Ok(rolled) => {
            let RolloutResult { disk, outcome } = rolled;
            Taken {
                ending: TakeoverEnding::Ended(write_outcome(alloc, total, outcome, sink)),
                disk,
            }
        }
        Err(unopened) => {
            let Unopened { disk, cause } = unopened;
            Taken {
                ending: TakeoverEnding::Ended(CommandEnd::from(cause)),
                disk,
            }
        }
    }
}

// Writes the line of a takeover that is finished, or says how it ends without one.
fn write_outcome<K: Sink>(
    alloc: Global,
    total: u64,
    outcome: RunOutcome,
    sink: &mut K,
) -> CommandEnd
    ensures follows { Follows (taken_or_ending total outcome) result (K.told sink.old).written
        (K.told sink.new).written }
    ensures disk { result ≡ CommandEnd.DiskFault → IsDiskFault outcome.end }
    ensures write_fault { result ≡ CommandEnd.WriteFault
        → Rose (K.told sink.old).faults (K.told sink.new).faults }
{
    match line_of(alloc, total, outcome) {
        Ok(line) => write_text(sink, line.as_str()),
        Err(ending) => ending,
    }
}

fn line_of(alloc: Global, total: u64, outcome: RunOutcome) -> Result<Text, CommandEnd>
    ensures { Gives result (taken_or_ending total outcome) }
{
    match outcome.end {
        RunEnd::Finished => Ok(taken_line(alloc, outcome.operations, total)?),
        _ => Err(ending_of_rollout(outcome)),
    }
}
