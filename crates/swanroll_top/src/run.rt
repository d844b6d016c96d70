ghost use Rattle.swanroll_top.specs.Promise.{Ran};
ghost use Rattle.swanroll_top.specs.Tries.{IsAskedShape};
ghost use Rattle.swanroll_top.specs.Views.{guest_told, objects, views_of};
ghost use Rattle.swanroll_top.specs.Words.{asked};

use crate::agent::agent;
use crate::drain::drain_out;
use crate::held::held;
use crate::journal_report::report;
use crate::rollback::roll_back;
use crate::rollout::roll_out;
use crate::trial::trial;
use crate::words::Command;
use disk_mirror::Openable;
use std::alloc::Global;
use std::sync::Wait;
use std::thread::Threads;
use text_commands::{CommandEnd, run_text};
use wan_edge::{Fleet, Sink, Source};

/// How a command ended, and the disk.
#[derive(Drop)]
pub struct CommandResult<D> {
    pub ending: CommandEnd,
    pub disk: D,
}

/// Does what a command line asks for.
pub fn run<R: Wait + Threads + Sync, S: Source, K: Sink, D: Openable + Drop + Send, F: Fleet>(
    rt: &R,
    alloc: Global,
    command: Command<'_>,
    source: &mut S,
    sink: &mut K,
    disk: D,
    fleet: &mut F,
) -> CommandResult<D>
where
    F::Port: Drop + Send,
    requires { IsAskedShape (asked command) }
    ensures { Ran (views_of S.told K.told D.told F.told F.Port.told
        (guest_told F.Guest.Source.told F.Guest.Sink.told)) (asked command.entry)
        (objects source.old sink.old disk fleet.old) result.ending
        (objects source.new sink.new result.disk fleet.new) }
{
    match command {
        Command::Text(text) => CommandResult {
            ending: run_text(alloc, text, source, sink),
            disk,
        },
        Command::Report(migration) => report(alloc, migration, source, sink, disk),
        Command::Agent(guests) => CommandResult {
            ending: agent(alloc, guests, fleet, sink),
            disk,
        },
        Command::Run(limits, policy) => {
            roll_out(rt, alloc, limits, policy, source, sink, disk, fleet)
        }
        Command::Rollback(limits, origin) => {
            roll_back(rt, alloc, limits, origin, source, sink, disk, fleet)
        }
        Command::Drain(limits) => drain_out(rt, alloc, limits, source, sink, disk, fleet),
        Command::Held(rounds) => CommandResult {
            ending: held(alloc, rounds, source, sink, fleet),
            disk,
        },
        Command::Trial(shape, policy) => CommandResult {
            ending: trial(alloc, &shape, policy, sink),
            disk,
        },
    }
}
