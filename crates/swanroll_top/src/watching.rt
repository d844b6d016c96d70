//! `report --live --follow`, which looks at the journal's file again and again.
ghost use Rattle.std.specs.Prelude.{◌≡◌, bytes_eq, IfOk, Ok};
ghost use Rattle.rollout_report.specs.Journals.{journal_report};
ghost use Rattle.text_commands.specs.Answers.{rollout_in};
ghost use Rattle.text_commands.specs.Runs.{Gives};
ghost use Rattle.swanroll_top.specs.Watches.{ImageText, TextOr, TurnOf, WatchPromise, WatchesInput, WatchesRollout, Writes, WritesAnew, ends_finished, last_bytes, or_live, turn_after, turn_behind, turn_of};

use crate::live::{LiveEnd, in_memory, limit_of, tell};
use crate::live_words::LiveAsked;
use crate::turning::Turn;
use disk_model::MemoryDisk;
use file_sight::{Sight, look};
use intent_journal::JournalFault;
use lists::{Memory, Text};
use retarget_service::journal_room;
use rollout_report::{Reported, report_journal};
use std::alloc::Global;
use std::sync::Wait;
use std::thread::sleep;
use std::time::{Clock, Duration};
use text_commands::{CommandEnd, read_input, rollout_of, write_text};
use wan_edge::{Nums8, Sink, Source, Turns};
use wan_model::CheckedPlan;

/// How many bytes the last line of a finished report has, with the line feed before it.
const LAST_LINE: usize = 10;

/// Reads all of the source, and then looks at the file again and again: each report of the journal in it that is
/// another one than the one before is written, until one says that the rollout is finished. A look at a file that
/// is in use is passed over. It waits between two looks, on the clock, for as many seconds as are asked for. The
/// statuses are those of a single report.
pub fn watch<R: Wait, C: Clock, S: Source, K: Sink, W: Sight>(
    rt: &R,
    clock: &C,
    alloc: Global,
    asked: LiveAsked,
    source: &mut S,
    sink: &mut K,
    notes: &mut K,
    file: &mut W,
) -> u8
    ensures { WatchPromise W.told asked.migration (S.told source.old) (S.told source.new)
        (K.told sink.old).written (K.told sink.new).written (K.told notes.old)
        (K.told notes.new) result }
{
    let ending = watch_all(rt, clock, alloc, asked, source, sink, file);
    tell(alloc, notes, ending)
}

fn watch_all<R: Wait, C: Clock, S: Source, K: Sink, W: Sight>(
    rt: &R,
    clock: &C,
    alloc: Global,
    asked: LiveAsked,
    source: &mut S,
    sink: &mut K,
    file: &mut W,
) -> LiveEnd
    ensures { WatchesInput W.told asked.migration (S.told source.old) (S.told source.new)
        (K.told sink.old).written result (K.told sink.new).written }
{
    match read_input(alloc, source) {
        Ok(input) => watch_input(rt, clock, alloc, asked, input.as_slice(), sink, file),
        Err(ending) => LiveEnd::Ended(ending),
    }
}

fn watch_input<R: Wait, C: Clock, K: Sink, W: Sight>(
    rt: &R,
    clock: &C,
    alloc: Global,
    asked: LiveAsked,
    input: &[u8],
    sink: &mut K,
    file: &mut W,
) -> LiveEnd
    ensures { WatchesRollout W.told asked.migration (rollout_in input.now)
        (K.told sink.old).written result (K.told sink.new).written }
{
    let mut last = Text::new(alloc);
    for _ in rt.forever() {
        match look_once(alloc, asked.migration, input, sink, file, last) {
            Turn::Goes(text) => {
                last = text;
                sleep(clock, Duration::from_secs(asked.seconds));
            }
            Turn::Ends(ending) => return ending,
        }
    }
    unreachable!()
}

/// One look: writes its report, where that is another one than the last.
fn look_once<K: Sink, W: Sight>(
    alloc: Global,
    migration: u32,
    input: &[u8],
    sink: &mut K,
    file: &mut W,
    last: Text,
) -> Turn
    ensures { TurnOf W.told migration (rollout_in input.now) last (K.told sink.old).written result
        (K.told sink.new).written }
{
    match live_text(alloc, migration, input, file) {
        Ok(text) => written_anew(sink, text, last),
        Err(why) => without_text(why, last),
    }
}

/// A look at a file that is in use is passed over.
fn without_text(why: LiveEnd, last: Text) -> Turn
    ensures { result ≡ turn_of why last }
{
    match why {
        LiveEnd::InUse => Turn::Goes(last),
        LiveEnd::Ended(ending) => Turn::Ends(LiveEnd::Ended(ending)),
    }
}

#[tactic(auto, using(crate::proofs::LookingOn::anew))]
fn written_anew<K: Sink>(sink: &mut K, text: Text, last: Text) -> Turn
    ensures { WritesAnew text last (K.told sink.old).written result (K.told sink.new).written }
{
    let same = is_same(&text, &last);
    if same {
        drop(text);
        return Turn::Goes(last);
    }
    drop(last);
    write_turn(sink, text)
}

fn is_same(one: &Text, other: &Text) -> bool
    ensures { result ≡ bytes_eq one.now other.now }
{
    one.as_str() == other.as_str()
}

fn write_turn<K: Sink>(sink: &mut K, text: Text) -> Turn
    ensures { Writes text (K.told sink.old).written result (K.told sink.new).written }
{
    let ending = write_text(sink, text.as_str());
    after(ending, text)
}

/// How it goes on after a writing that ended so.
fn after(ending: CommandEnd, text: Text) -> Turn
    ensures { result ≡ turn_after ending text }
{
    match ending {
        CommandEnd::Done => behind(text),
        other => {
            drop(text);
            Turn::Ends(LiveEnd::Ended(other))
        }
    }
}

/// How it goes on after this text.
fn behind(text: Text) -> Turn
    ensures { result ≡ turn_behind text }
{
    let ends = ends_finished(text.as_str().as_bytes());
    if ends {
        Turn::Ends(LiveEnd::Ended(CommandEnd::Done))
    } else {
        Turn::Goes(text)
    }
}

/// Whether the last line of a report says that the rollout is finished.
fn ends_finished(text: &[u8]) -> bool
    ensures { result ≡ ends_finished text.now }
{
    last_bytes(text) == "\nfinished\n".as_bytes()
}

// As many bytes as that line has; all where there are fewer.
fn last_bytes(text: &[u8]) -> &[u8]
    ensures { result.now ≡ last_bytes text.now }
{
    if text.len() > LAST_LINE {
        &text[text.len() - LAST_LINE..]
    } else {
        text
    }
}

/// The report of the journal that stands in the file.
fn live_text<W: Sight>(
    alloc: Global,
    migration: u32,
    input: &[u8],
    file: &mut W,
) -> Result<Text, LiveEnd>
    ensures { TextOr W.told migration (rollout_in input.now) result }
{
    match plan_of(alloc, input) {
        Ok(plan) => text_seen(alloc, plan, migration, file),
        Err(ending) => Err(LiveEnd::Ended(ending)),
    }
}

/// The plan of the document that the bytes are, which stay.
fn plan_of(alloc: Global, input: &[u8]) -> Result<CheckedPlan, CommandEnd>
    ensures { Gives result (rollout_in input.now) }
{
    match copy_of(alloc, input) {
        Ok(bytes) => rollout_of(alloc, bytes),
        Err(_) => Err(CommandEnd::OutOfMemory),
    }
}

fn copy_of(alloc: Global, bytes: &[u8]) -> Result<Nums8, Memory>
    ensures { IfOk result (λ copy. copy ≡ bytes.now) }
{
    let mut copy = Nums8::new(alloc);
    copy.extend_from_slice(bytes)?;
    Ok(copy)
}

fn text_seen<W: Sight>(
    alloc: Global,
    plan: CheckedPlan,
    migration: u32,
    file: &mut W,
) -> Result<Text, LiveEnd>
    ensures { TextOr W.told migration (Ok plan) result }
{
    match look(alloc, limit_of(journal_room(&plan)), file) {
        Ok(image) => text_at(alloc, plan, migration, image),
        Err(why) => {
            drop(plan);
            Err(LiveEnd::from(why))
        }
    }
}

/// The report of the journal that these bytes are, by a disk in memory.
fn text_at(alloc: Global, plan: CheckedPlan, migration: u32, image: Nums8) -> Result<Text, LiveEnd>
    ensures { ImageText (journal_report plan migration image) result }
{
    let turns = Turns::new(alloc);
    let disk = MemoryDisk::new(alloc, image, turns);
    let Reported { disk, answer } = report_journal(alloc, plan, migration, disk);
    drop(disk);
    or_live(answer)
}

fn or_live(answer: Result<Text, JournalFault>) -> Result<Text, LiveEnd>
    ensures { result ≡ or_live answer }
{
    match answer {
        Ok(text) => Ok(text),
        Err(cause) => Err(LiveEnd::Ended(in_memory(CommandEnd::from(cause)))),
    }
}
