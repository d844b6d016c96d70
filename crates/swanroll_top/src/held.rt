//! The command `held`: what the switches of a rollout hold, asked over the ports of a fleet.

ghost use Rattle.std.specs.Prelude.{◌≡◌, ◌≢◌};
ghost use Rattle.wan_edge.specs.Streams.{Rose};
ghost use Rattle.wan_edge.specs.Fleets.{GuestsStay};
ghost use Rattle.swanroll_top.specs.HeldAsked.{Asks, AsksIn, AsksRollout, ending_of_not_told};
ghost use Rattle.text_commands.specs.Answers.{rollout_in};
ghost use Rattle.swanroll_top.specs.Rollouts.{EndsRollout, FollowsRolled, RunsRollout, fleet_of};
ghost use Rattle.text_commands.specs.Runs.{IsInput};

use held_service::{NotTold, held_text};
use std::alloc::Global;
use text_commands::{CommandEnd, Unfinished, read_input, rollout_of, write_text};
use wan_edge::{Fleet, Nums8, Sink, Source};
use wan_model::CheckedPlan;

/// Reads all of the source, and asks the switches of its document what they hold of its items, each in at most
/// so many rounds. Where all of them told, that is written.
pub fn held<S: Source, K: Sink, F: Fleet>(
    alloc: Global,
    rounds: u32,
    source: &mut S,
    sink: &mut K,
    fleet: &mut F,
) -> CommandEnd
    ensures runs { RunsRollout (S.told source.old) (S.told source.new) result
        (K.told sink.old).written (K.told sink.new).written }
    ensures asks { Asks F.Port.told (IsInput (S.told source.old) (S.told source.new)) rounds
        (fleet_of (F.told fleet.old)) (fleet_of (F.told fleet.new)) result (K.told sink.old).written
        (K.told sink.new).written }
    ensures guests { GuestsStay (F.told fleet.old) (F.told fleet.new) }
    ensures read_fault { result ≡ CommandEnd.ReadFault
        → Rose (S.told source.old).faults (S.told source.new).faults }
    ensures write_fault { result ≡ CommandEnd.WriteFault
        → Rose (K.told sink.old).faults (K.told sink.new).faults }
    ensures no_disk { result ≢ CommandEnd.DiskFault }
    ensures others { (result ≢ CommandEnd.Usage) × (result ≢ CommandEnd.GuestFault) }
{
    match read_input(alloc, source) {
        Ok(input) => ask_input(alloc, rounds, input, sink, fleet),
        Err(ending) => ending,
    }
}

fn ask_input<K: Sink, F: Fleet>(
    alloc: Global,
    rounds: u32,
    input: Nums8,
    sink: &mut K,
    fleet: &mut F,
) -> CommandEnd
    ensures follows { FollowsRolled (rollout_in input) result (K.told sink.old).written
        (K.told sink.new).written }
    ensures asks { AsksIn F.Port.told (rollout_in input) rounds (fleet_of (F.told fleet.old))
        (fleet_of (F.told fleet.new)) result (K.told sink.old).written (K.told sink.new).written }
    ensures guests { GuestsStay (F.told fleet.old) (F.told fleet.new) }
    ensures write_fault { result ≡ CommandEnd.WriteFault
        → Rose (K.told sink.old).faults (K.told sink.new).faults }
    ensures no_disk { result ≢ CommandEnd.DiskFault }
{
    match rollout_of(alloc, input) {
        Ok(plan) => ask_plan(alloc, rounds, plan, sink, fleet),
        Err(ending) => ending,
    }
}

/// Asks the switches of a rollout, and writes what they told, or says how the run ends without it.
fn ask_plan<K: Sink, F: Fleet>(
    alloc: Global,
    rounds: u32,
    plan: CheckedPlan,
    sink: &mut K,
    fleet: &mut F,
) -> CommandEnd
    ensures asks { AsksRollout F.Port.told plan rounds (fleet_of (F.told fleet.old))
        (fleet_of (F.told fleet.new)) result (K.told sink.old).written (K.told sink.new).written }
    ensures ends { EndsRollout result (K.told sink.old).written (K.told sink.new).written }
    ensures guests { GuestsStay (F.told fleet.old) (F.told fleet.new) }
    ensures write_fault { result ≡ CommandEnd.WriteFault
        → Rose (K.told sink.old).faults (K.told sink.new).faults }
    ensures no_disk { result ≢ CommandEnd.DiskFault }
{
    match held_text(alloc, &plan, rounds, fleet) {
        Ok(text) => {
            drop(plan);
            write_text(sink, text.as_str())
        }
        Err(why) => ending_of_not_told(plan, rounds, why),
    }
}

/// How the run ends where a switch didn't tell all that it was asked. A question has number 0, so that it's
/// named as operation 0 of its item.
fn ending_of_not_told(plan: CheckedPlan, rounds: u32, why: NotTold) -> CommandEnd
    ensures { result ≡ ending_of_not_told plan rounds why }
{
    match why {
        NotTold::Spent(item) => {
            drop(plan);
            CommandEnd::NotFinished(Unfinished::RoundsSpent {
                rounds,
                item,
                number: 0,
            })
        }
        NotTold::NoPort(switch) => CommandEnd::NotFinished(Unfinished::PortFault(plan, switch)),
        NotTold::Port(switch) => CommandEnd::NotFinished(Unfinished::PortFault(plan, switch)),
        NotTold::NotAsked { switch, item } => {
            CommandEnd::NotFinished(Unfinished::NotMine(plan, switch, item))
        }
        NotTold::NoAnswer { switch, byte } => {
            CommandEnd::NotFinished(Unfinished::NoAnswer(plan, switch, byte))
        }
        NotTold::Memory => {
            drop(plan);
            CommandEnd::OutOfMemory
        }
    }
}
