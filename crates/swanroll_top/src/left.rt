//! The command `left`: the problem that a rollout leaves, by the journal's file as it stands.
ghost use Rattle.swanroll_top.specs.LeftPromise.{InputLeft, LeftPromise, LeftTold, LooksLeft, RunsLeft, SeesLeft, UnleftTold};
ghost use Rattle.swanroll_top.specs.Live.{NotesText};

use crate::live::{LiveEnd, limit_of, tell};
use file_sight::{Sight, Unseen, look};
use retarget_plan::Unleft;
use retarget_service::{Unwritten, journal_room, left_by, unleft_line};
use std::alloc::Global;
use text_commands::{CommandEnd, note, read_input, rollout_of, write_text};
use wan_edge::{Nums8, Sink, Source, write_all};
use wan_model::CheckedPlan;

/// How the command ends: as a report of a journal as it stands, or since no problem is left.
#[derive(Debug, Drop)]
pub enum LeftEnd {
    Ended(CommandEnd),
    /// A controller took the file over while it was read.
    InUse,
    /// The rollout leaves none where it stands.
    Unleft(Unleft),
}

impl From<Unseen> for LeftEnd {
    ghost use Rattle.std.specs.Prelude.{◌≡◌};
    ghost use Rattle.swanroll_top.specs.LeftEnds.{left_of_unseen};

    ghost from_gives = { λ why ending. ending ≡ left_of_unseen why };

    fn from(why: Unseen) -> LeftEnd {
        match why {
            Unseen::Failed => LeftEnd::Ended(CommandEnd::DiskFault),
            Unseen::InUse => LeftEnd::InUse,
            Unseen::Memory => LeftEnd::Ended(CommandEnd::OutOfMemory),
        }
    }
}

impl From<Unwritten> for LeftEnd {
    ghost use Rattle.std.specs.Prelude.{◌≡◌};
    ghost use Rattle.swanroll_top.specs.LeftEnds.{left_of_unwritten};

    ghost from_gives = { λ why ending. ending ≡ left_of_unwritten why };

    fn from(why: Unwritten) -> LeftEnd {
        match why {
            Unwritten::Refused(cause) => LeftEnd::Ended(CommandEnd::from(cause)),
            Unwritten::Unleft(cause) => LeftEnd::Unleft(cause),
            Unwritten::Memory => LeftEnd::Ended(CommandEnd::OutOfMemory),
        }
    }
}

/// Reads all of the source, and writes the problem that the rollout of its document leaves where the journal that
/// stands in a file says that it is. The file is read without its lock and isn't written. Answers the exit status:
/// those of `report --live`, and 16 where no problem is left, as the line says.
pub fn show_left<S: Source, K: Sink, W: Sight>(
    alloc: Global,
    migration: u32,
    source: &mut S,
    sink: &mut K,
    notes: &mut K,
    file: &mut W,
) -> u8
    ensures { LeftPromise W.told migration (S.told source.old) (S.told source.new) file.old
        file.new (K.told sink.old) (K.told sink.new) (K.told notes.old) (K.told notes.new)
        result }
{
    let ending = left_ending(alloc, migration, source, sink, file);
    tell_left(alloc, notes, ending)
}

fn left_ending<S: Source, K: Sink, W: Sight>(
    alloc: Global,
    migration: u32,
    source: &mut S,
    sink: &mut K,
    file: &mut W,
) -> LeftEnd
    ensures { RunsLeft W.told migration (S.told source.old) (S.told source.new) file.old file.new
        result (K.told sink.old) (K.told sink.new) }
{
    match read_input(alloc, source) {
        Ok(input) => left_input(alloc, migration, input, sink, file),
        Err(ending) => LeftEnd::Ended(ending),
    }
}

fn left_input<K: Sink, W: Sight>(
    alloc: Global,
    migration: u32,
    input: Nums8,
    sink: &mut K,
    file: &mut W,
) -> LeftEnd
    ensures { InputLeft W.told migration input file.old file.new result (K.told sink.old)
        (K.told sink.new) }
{
    match rollout_of(alloc, input) {
        Ok(plan) => left_plan(alloc, plan, migration, sink, file),
        Err(ending) => LeftEnd::Ended(ending),
    }
}

/// Looks at the file, and writes what is left by what stood there.
fn left_plan<K: Sink, W: Sight>(
    alloc: Global,
    plan: CheckedPlan,
    migration: u32,
    sink: &mut K,
    file: &mut W,
) -> LeftEnd
    ensures { LooksLeft W.told migration plan file.old file.new result (K.told sink.old)
        (K.told sink.new) }
{
    match look(alloc, limit_of(journal_room(&plan)), file) {
        Ok(image) => left_seen(alloc, plan, migration, sink, image),
        Err(why) => {
            drop(plan);
            LeftEnd::from(why)
        }
    }
}

fn left_seen<K: Sink>(
    alloc: Global,
    plan: CheckedPlan,
    migration: u32,
    sink: &mut K,
    image: Nums8,
) -> LeftEnd
    ensures { SeesLeft migration plan image result (K.told sink.old) (K.told sink.new) }
{
    match left_by(alloc, plan, migration, image) {
        Ok(text) => LeftEnd::Ended(write_text(sink, text.as_str())),
        Err(why) => LeftEnd::from(why),
    }
}

/// Writes the line of an ending, and answers its status.
fn tell_left<K: Sink>(alloc: Global, notes: &mut K, ending: LeftEnd) -> u8
    ensures { LeftTold ending result (K.told notes.old) (K.told notes.new) }
{
    match ending {
        LeftEnd::Ended(ending) => note(alloc, notes, ending),
        LeftEnd::InUse => tell(alloc, notes, LiveEnd::InUse),
        LeftEnd::Unleft(cause) => tell_unleft(alloc, notes, cause),
    }
}

/// The same where no problem is left; without memory for the line that is what it tells.
fn tell_unleft<K: Sink>(alloc: Global, notes: &mut K, cause: Unleft) -> u8
    ensures { UnleftTold cause result (K.told notes.old) (K.told notes.new) }
{
    match unleft_line(alloc, cause) {
        Ok(line) => {
            write_line(notes, line.as_str());
            16
        }
        Err(_) => note(alloc, notes, CommandEnd::OutOfMemory),
    }
}

fn write_line<K: Sink>(notes: &mut K, line: &str)
    ensures { NotesText line.now (K.told notes.old) (K.told notes.new) }
{
    let _ = write_all(notes, line.as_bytes());
}
