ghost use Rattle.order_policy.specs.Named.{answers_in};
ghost use Rattle.swanroll_top.specs.Promise.{Promise};
ghost use Rattle.swanroll_top.specs.Views.{guest_told, outside, views_of};
ghost use Rattle.swanroll_top.specs.Words.{asked_by};

use crate::run::{CommandResult, run};
use crate::words::command_of;
use disk_mirror::Openable;
use order_policy::{Policies, Policy};
use std::alloc::Global;
use std::sync::Wait;
use std::thread::Threads;
use text_commands::{CommandEnd, note};
use wan_edge::{Fleet, Sink, Source};

/// How the program ended: its exit status, and the disk.
#[derive(Debug, Drop)]
pub struct Ended<D> {
    pub status: u8,
    pub disk: D,
}

/// Does all that the program does, and answers its exit status and the disk of the journal. The policies
/// are those that the words may name. A command leaves each of source, disk and fleet that it doesn't name
/// as it was: `plan`, `check`, `loads`, `explain`, `back`, `least` and `sim` name the source, `report` the source and
/// the disk, `run` and `rollback` all three, `held` the source and the fleet, `agent` the fleet, whose ports it leaves
/// and whose guests it gives back, and `trial` none. `report` keeps the journal's list on the disk. `report`, `run` and `rollback` open the disk
/// once their input is judged, and what they promise of it is said of the disk as it was opened. Each command's
/// own promise has a file of its own in `specs`: what `run` does with disk and ports is in `RunPromise`, what
/// `rollback` does in `RollbackPromise`, and what `held` asks in `HeldPromise`.
///
/// | Status | Comes |
/// |---|---|
/// | 0 | the text was written |
/// | 2 | the words aren't a command line |
/// | 3 | the input is above its limit, isn't what the command reads, its plan breaks a clause, or what it says of fewer rate steps isn't shown |
/// | 4 | `plan`, `least`: no plan is chosen for the problem |
/// | 5 | `run`, `rollback`, `held`: the rounds were spent |
/// | 6 | the source failed |
/// | 7 | the sink failed |
/// | 8 | `report`, `run`, `rollback`: the disk failed |
/// | 9 | `agent`: the fleet failed to give the next guest; `run`, `rollback`, `held`: it failed to give a port, or a port failed |
/// | 10 | `report`, `run`, `rollback`: the journal on the disk is none of the rollout, or can't be followed |
/// | 11 | `run`, `rollback`, `held`: a switch told what can't be |
/// | 12 | memory ran out |
/// | 14 | `run`: the policy holds back all that is left |
/// | 15 | `least`: it isn't shown that fewer rate steps are impossible |
pub fn swanroll<R: Wait + Threads + Sync, S: Source, K: Sink, D: Openable + Drop + Send, F: Fleet>(
    rt: &R,
    alloc: Global,
    words: &[String],
    source: &mut S,
    sink: &mut K,
    notes: &mut K,
    disk: D,
    fleet: &mut F,
    policies: &Policies<Policy>,
) -> Ended<D>
where
    F::Port: Drop + Send,
    ensures { Promise (views_of S.told K.told D.told F.told F.Port.told
        (guest_told F.Guest.Source.told F.Guest.Sink.told))
        (asked_by (answers_in policies.now) words.now)
        (outside source.old sink.old notes.old disk fleet.old) result.status
        (outside source.new sink.new notes.new result.disk fleet.new) }
{
    match command_of(words, policies) {
        Some(command) => {
            let CommandResult { ending, disk } = run(rt, alloc, command, source, sink, disk, fleet);
            let status = note(alloc, notes, ending);
            Ended { status, disk }
        }
        None => Ended {
            status: note(alloc, notes, CommandEnd::Usage),
            disk,
        },
    }
}
