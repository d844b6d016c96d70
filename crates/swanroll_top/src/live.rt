//! The command `report --live`, which reads the journal's file as it stands, while a controller may write it.
ghost use Rattle.std.specs.Prelude.{◌≡◌, ◌≢◌, ◌<◌, ◌^◌, codes, Ok, Some};
ghost use Rattle.wan_edge.specs.Streams.{Rose};
ghost use Rattle.swanroll_top.specs.Live.{LivePromise, LiveTold, NotesText, ReportsLive, ReportsSeen, in_memory};
ghost use Rattle.text_commands.specs.Answers.{rollout_in};
ghost use Rattle.swanroll_top.specs.Reports.{FollowsReported};

use crate::journal_report::report_opened;
use crate::run::CommandResult;
use disk_model::MemoryDisk;
use file_sight::{Sight, Unseen, look};
use retarget_service::journal_room;
use std::alloc::Global;
use text_commands::{CommandEnd, note, read_input, rollout_of};
use wan_edge::{Nums8, Sink, Source, Turns, write_all};
use wan_model::CheckedPlan;

// How many bytes of a file are read at most, however much room a journal is given.
const LARGEST_SIGHT: u64 = 4_611_686_018_427_387_904;

/// How a report of a journal as it stands ends: as one of a journal that is opened, or without one.
#[derive(Debug, Drop)]
pub enum LiveEnd {
    Ended(CommandEnd),
    /// A controller took the file over while it was read.
    InUse,
}

impl From<Unseen> for LiveEnd {
    ghost use Rattle.std.specs.Prelude.{◌≡◌};
    ghost use Rattle.swanroll_top.specs.Live.{ending_of_unseen};

    ghost from_gives = { λ why ending. ending ≡ ending_of_unseen why };

    fn from(why: Unseen) -> LiveEnd {
        match why {
            Unseen::Failed => LiveEnd::Ended(CommandEnd::DiskFault),
            Unseen::InUse => LiveEnd::InUse,
            Unseen::Memory => LiveEnd::Ended(CommandEnd::OutOfMemory),
        }
    }
}

/// Reads all of the source, and writes how far the rollout of its document has come by the journal that stands
/// in a file, which is read without its lock and isn't written. Answers the exit status. The statuses are those
/// of `report`; 8 comes also where a controller took the file over while it was read, as the line says.
pub fn report_live<S: Source, K: Sink, W: Sight>(
    alloc: Global,
    migration: u32,
    source: &mut S,
    sink: &mut K,
    notes: &mut K,
    file: &mut W,
) -> u8
    ensures { LivePromise W.told migration (S.told source.old) (S.told source.new) file.old
        file.new (K.told sink.old) (K.told sink.new) (K.told notes.old) (K.told notes.new)
        result }
{
    let ending = live_ending(alloc, migration, source, sink, file);
    tell(alloc, notes, ending)
}

fn live_ending<S: Source, K: Sink, W: Sight>(
    alloc: Global,
    migration: u32,
    source: &mut S,
    sink: &mut K,
    file: &mut W,
) -> LiveEnd
    ensures reports { ReportsLive W.told migration (S.told source.old) (S.told source.new)
        file.old file.new result (K.told sink.old).written
        (K.told sink.new).written }
    ensures read_fault { result ≡ LiveEnd.Ended CommandEnd.ReadFault
        → Rose (S.told source.old).faults (S.told source.new).faults }
    ensures write_fault { result ≡ LiveEnd.Ended CommandEnd.WriteFault
        → Rose (K.told sink.old).faults (K.told sink.new).faults }
{
    match read_input(alloc, source) {
        Ok(input) => live_input(alloc, migration, input, sink, file),
        Err(ending) => LiveEnd::Ended(ending),
    }
}

fn live_input<K: Sink, W: Sight>(
    alloc: Global,
    migration: u32,
    input: Nums8,
    sink: &mut K,
    file: &mut W,
) -> LiveEnd
    ensures reports { ReportsSeen W.told migration (rollout_in input) file.old file.new
        result (K.told sink.old).written (K.told sink.new).written }
    ensures write_fault { result ≡ LiveEnd.Ended CommandEnd.WriteFault
        → Rose (K.told sink.old).faults (K.told sink.new).faults }
{
    match rollout_of(alloc, input) {
        Ok(plan) => live_plan(alloc, plan, migration, sink, file),
        Err(ending) => LiveEnd::Ended(ending),
    }
}

/// Looks at the file, and reports what stood there.
fn live_plan<K: Sink, W: Sight>(
    alloc: Global,
    plan: CheckedPlan,
    migration: u32,
    sink: &mut K,
    file: &mut W,
) -> LiveEnd
    ensures reports { ReportsSeen W.told migration (Ok plan) file.old file.new result
        (K.told sink.old).written (K.told sink.new).written }
    ensures write_fault { result ≡ LiveEnd.Ended CommandEnd.WriteFault
        → Rose (K.told sink.old).faults (K.told sink.new).faults }
{
    match look(alloc, limit_of(journal_room(&plan)), file) {
        Ok(image) => LiveEnd::Ended(report_seen(alloc, plan, migration, sink, image)),
        Err(why) => {
            drop(plan);
            LiveEnd::from(why)
        }
    }
}

/// As much room as this, in a number of bytes that may be read.
pub(crate) fn limit_of(room: u64) -> usize
    ensures value { room < 2 ^ 62 → result ≡ room }
    ensures few { result < 2 ^ 63 }
{
    if room < LARGEST_SIGHT {
        room as usize
    } else {
        LARGEST_SIGHT as usize
    }
}

/// Reports the journal that these bytes are, over a disk in memory.
fn report_seen<K: Sink>(
    alloc: Global,
    plan: CheckedPlan,
    migration: u32,
    sink: &mut K,
    image: Nums8,
) -> CommandEnd
    ensures follows { FollowsReported migration (Ok plan) (Some image) result
        (K.told sink.old).written (K.told sink.new).written }
    ensures no_disk { result ≢ CommandEnd.DiskFault }
    ensures write_fault { result ≡ CommandEnd.WriteFault
        → Rose (K.told sink.old).faults (K.told sink.new).faults }
{
    let turns = Turns::new(alloc);
    let disk = MemoryDisk::new(alloc, image, turns);
    let CommandResult { ending, disk } = report_opened(alloc, plan, migration, sink, disk);
    drop(disk);
    in_memory(ending)
}

/// A disk in memory fails for want of it alone.
pub(crate) fn in_memory(ending: CommandEnd) -> CommandEnd
    ensures { result ≡ in_memory ending }
{
    match ending {
        CommandEnd::DiskFault => CommandEnd::OutOfMemory,
        other => other,
    }
}

/// Writes the line of an ending, and answers its status.
pub(crate) fn tell<K: Sink>(alloc: Global, notes: &mut K, ending: LiveEnd) -> u8
    ensures { LiveTold ending result (K.told notes.old) (K.told notes.new) }
{
    match ending {
        LiveEnd::Ended(ending) => note(alloc, notes, ending),
        LiveEnd::InUse => {
            write_in_use(notes);
            8
        }
    }
}

fn write_in_use<K: Sink>(notes: &mut K)
    ensures { NotesText (codes "journal: in use, try again\n") (K.told notes.old)
        (K.told notes.new) }
{
    let _ = write_all(notes, "journal: in use, try again\n".as_bytes());
}
