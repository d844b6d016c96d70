//! The command itself, from the source on.
ghost use Rattle.std.specs.Prelude.{◌≡◌, ◌+◌, ◌<◌, ◌^◌};
ghost use Rattle.rollout_report.specs.Journals.{digest_for};
ghost use Rattle.retarget_plan.specs.Aiming.{MayAim};
ghost use Rattle.retarget_service.specs.Aimed.{MakesBy};
ghost use Rattle.retarget_top.specs.Retargets.{Chooses, Makes, OpensAndRetargets, ReadsThere};
ghost use Rattle.retarget_top.specs.RetargetPromise.{InputRetargets, RetargetPromise, RunsRetarget};

use crate::aims::wanted_of;
use crate::choosing::chosen_by;
use crate::ending::{RetargetEnding, Wanted};
use crate::image::read_image;
use crate::placing::replace;
use crate::telling::tell;
use disk_mirror::Openable;
use disk_model::Disk;
use retarget_service::{Unwritten, aimed_by, journal_room};
use std::alloc::Global;
use text_commands::{CommandEnd, Planner, read_input};
use wan_edge::{Nums8, Sink, Source};
use wan_model::Problem;

/// How the command ends, and the disk.
#[derive(Drop)]
pub struct Retargeted<D> {
    pub ending: RetargetEnding,
    pub disk: D,
}

/// How the program ended: its exit status, and the disk.
#[derive(Debug, Drop)]
pub struct Ended<D> {
    pub status: u8,
    pub disk: D,
}

/// Reads all of the source, and brings the rollout of its document from where the journal on the disk says that it
/// stands to another aim: the document's target, or where `shed` names a link, `FROM>TO`, what is settled but for
/// what crosses that; an empty name is none. A plan is chosen for it, its document is written to the sink, and
/// then a journal of it is placed on the disk, as the next migration. Until all was written the disk is as it was.
///
/// Answers the exit status: those of `plan` and of `report`, 3 also for a document without such an aim, and 16 where
/// there is no problem from where the rollout stands, as the line says.
pub fn retarget<S: Source, K: Sink, D: Openable>(
    alloc: Global,
    migration: u32,
    planner: Planner,
    shed: &str,
    source: &mut S,
    sink: &mut K,
    notes: &mut K,
    disk: D,
) -> Ended<D>
    requires { migration + 1 < 2 ^ 32 }
    ensures { RetargetPromise D.told migration planner shed.now (S.told source.old)
        (S.told source.new) disk result.disk (K.told sink.old) (K.told sink.new)
        (K.told notes.old) (K.told notes.new) result.status }
{
    let Retargeted { ending, disk } = retarget_ending(
        alloc, migration, planner, shed, source, sink, disk,
    );
    let status = tell(alloc, notes, shed, ending);
    Ended { status, disk }
}

fn retarget_ending<S: Source, K: Sink, D: Openable>(
    alloc: Global,
    migration: u32,
    planner: Planner,
    shed: &str,
    source: &mut S,
    sink: &mut K,
    disk: D,
) -> Retargeted<D>
    requires { migration + 1 < 2 ^ 32 }
    ensures { RunsRetarget D.told migration planner shed.now (S.told source.old)
        (S.told source.new) disk result.disk result.ending (K.told sink.old) (K.told sink.new) }
{
    match read_input(alloc, source) {
        Ok(input) => retarget_input(alloc, migration, planner, shed, input, sink, disk),
        Err(ending) => Retargeted {
            ending: RetargetEnding::Ended(ending),
            disk,
        },
    }
}

fn retarget_input<K: Sink, D: Openable>(
    alloc: Global,
    migration: u32,
    planner: Planner,
    shed: &str,
    input: Nums8,
    sink: &mut K,
    disk: D,
) -> Retargeted<D>
    requires { migration + 1 < 2 ^ 32 }
    ensures { InputRetargets D.told migration planner shed.now input disk result.disk
        result.ending (K.told sink.old) (K.told sink.new) }
{
    match wanted_of(alloc, shed, input) {
        Ok(wanted) => retarget_wanted(alloc, migration, planner, wanted, sink, disk),
        Err(ending) => Retargeted { ending, disk },
    }
}

/// Opens the disk, and goes on from what it tells then.
fn retarget_wanted<K: Sink, D: Openable>(
    alloc: Global,
    migration: u32,
    planner: Planner,
    wanted: Wanted,
    sink: &mut K,
    mut disk: D,
) -> Retargeted<D>
    requires migration { migration + 1 < 2 ^ 32 }
    requires aim { MayAim wanted.aim }
    ensures { OpensAndRetargets D.told planner migration wanted disk result.disk result.ending
        (K.told sink.old) (K.told sink.new) }
{
    match disk.open(journal_room(&wanted.plan)) {
        Ok(()) => retarget_opened(alloc, migration, planner, wanted, sink, disk),
        Err(_) => {
            drop(wanted);
            Retargeted {
                ending: RetargetEnding::Ended(CommandEnd::DiskFault),
                disk,
            }
        }
    }
}

fn retarget_opened<K: Sink, D: Disk>(
    alloc: Global,
    migration: u32,
    planner: Planner,
    wanted: Wanted,
    sink: &mut K,
    mut disk: D,
) -> Retargeted<D>
    requires migration { migration + 1 < 2 ^ 32 }
    requires aim { MayAim wanted.aim }
    ensures { ReadsThere D.told planner migration wanted disk result.disk result.ending
        (K.told sink.old) (K.told sink.new) }
{
    match read_image(alloc, &mut disk) {
        Ok(image) => retarget_image(alloc, migration, planner, wanted, image, sink, disk),
        Err(cause) => {
            drop(wanted);
            Retargeted {
                ending: RetargetEnding::Ended(CommandEnd::from(cause)),
                disk,
            }
        }
    }
}

fn retarget_image<K: Sink, D: Disk>(
    alloc: Global,
    migration: u32,
    planner: Planner,
    wanted: Wanted,
    image: Nums8,
    sink: &mut K,
    disk: D,
) -> Retargeted<D>
    requires migration { migration + 1 < 2 ^ 32 }
    requires aim { MayAim wanted.aim }
    ensures { Makes D.told planner migration wanted image disk result.disk result.ending
        (K.told sink.old) (K.told sink.new) }
{
    match made_of(alloc, migration, wanted, image) {
        Ok(problem) => retarget_problem(alloc, migration, planner, problem, sink, disk),
        Err(why) => Retargeted {
            ending: RetargetEnding::from(why),
            disk,
        },
    }
}

// The problem from where the rollout stands.
fn made_of(
    alloc: Global,
    migration: u32,
    wanted: Wanted,
    image: Nums8,
) -> Result<Problem, Unwritten>
    requires { MayAim wanted.aim }
    ensures { MakesBy wanted.plan (digest_for wanted.plan migration) image wanted.aim result }
{
    let Wanted { plan, aim } = wanted;
    let made = aimed_by(alloc, plan, migration, image, &aim);
    drop(aim);
    made
}

fn retarget_problem<K: Sink, D: Disk>(
    alloc: Global,
    migration: u32,
    planner: Planner,
    problem: Problem,
    sink: &mut K,
    disk: D,
) -> Retargeted<D>
    requires { migration + 1 < 2 ^ 32 }
    ensures { Chooses D.told planner migration problem disk result.disk result.ending
        (K.told sink.old) (K.told sink.new) }
{
    match chosen_by(alloc, planner, problem) {
        Ok(chosen) => replace(alloc, migration, chosen.plan, sink, disk),
        Err(missed) => Retargeted {
            ending: RetargetEnding::Ended(CommandEnd::from(missed)),
            disk,
        },
    }
}
