//! What is done with the list on a disk after a sync: its new entries become lines of the log.
ghost use Rattle.std.specs.Prelude.{◌≡◌, ℕ, Bool, List, length, IfSome};
ghost use Rattle.disk_model.specs.Crashes.{IsDurable};
ghost use Rattle.rollout_rules.specs.declared.op.Entry.{Entry};
ghost use Rattle.rollout_log.specs.Lines.{lines_of};
ghost use Rattle.rollout_log.specs.Logs.{GoesOn, IsSoFar, Stood, WritesLines, is_first};

use crate::lines::{behind, text_of};
use crate::phase::Phase;
use disk_mirror::Shown;
use intent_journal::list_of;
use lists::Text;
use rollout_rules::{Entry, EntryList};
use std::alloc::Global;
use std::time::{Clock, SystemTime, UNIX_EPOCH};
use wan_edge::{Sink, write_all};

/// Reads the list on a disk that was synced, and writes a line for each entry of it after those that are
/// known. Where that can't be done, the log ends.
#[tactic(auto, using(crate::proofs::Going::log_ended))]
pub(crate) fn note<D: Shown, L: Sink, R: Clock>(
    rt: &R,
    alloc: Global,
    disk: &D,
    log: &mut L,
    known: &mut EntryList,
    phase: &mut Phase,
)
    requires durable { IsDurable (D.told disk.now).bytes (D.told disk.now).may_leave }
    requires so_far { IfSome (L.told log.old).written (IsSoFar D.told phase.old known.old) }
    ensures { IfSome (L.told log.new).written (IsSoFar D.told phase.new known.new) }
{
    match list_on(alloc, disk) {
        Some(list) => take(rt, alloc, disk, log, known, phase, list),
        None => *phase = Phase::Ended,
    }
}

// The list that the bytes of a disk stand for, which was synced; none where it can't be read.
#[tactic(auto, using(crate::proofs::Going::stood_list))]
fn list_on<D: Shown>(alloc: Global, disk: &D) -> Option<EntryList>
    requires { IsDurable (D.told disk.now).bytes (D.told disk.now).may_leave }
    ensures { IfSome result (Stood D.told) }
{
    match disk.shown() {
        Some(image) => match list_of(alloc, image) {
            Ok(found) => found,
            Err(_) => None,
        },
        None => None,
    }
}

// Takes a list that was durable for the one that is known.
#[tactic(auto, using(crate::proofs::Going::log_read, crate::proofs::Going::goes_read, crate::proofs::Going::first_read, crate::proofs::Going::goes_written, crate::proofs::Going::first_written))]
fn take<D: Shown, L: Sink, R: Clock>(
    rt: &R,
    alloc: Global,
    disk: &D,
    log: &mut L,
    known: &mut EntryList,
    phase: &mut Phase,
    list: EntryList,
)
    requires stood { Stood D.told list }
    requires so_far { IfSome (L.told log.old).written (IsSoFar D.told phase.old known.old) }
    ensures { IfSome (L.told log.new).written (IsSoFar D.told phase.new known.new) }
{
    match *phase {
        Phase::Unread => {
            *known = list;
            *phase = Phase::Read;
        }
        Phase::Read => grow(rt, alloc, disk, log, known, phase, true, list),
        Phase::Written => grow(rt, alloc, disk, log, known, phase, false, list),
        Phase::Ended => {}
    }
}

// The same, with lines for what is new of it.
#[tactic(auto, using(crate::proofs::Going::log_goes_on, crate::proofs::Going::log_ended))]
fn grow<D: Shown, L: Sink, R: Clock>(
    rt: &R,
    alloc: Global,
    _disk: &D,
    log: &mut L,
    known: &mut EntryList,
    phase: &mut Phase,
    first: bool,
    list: EntryList,
)
    requires stood { Stood D.told list }
    requires so_far { IfSome (L.told log.old).written (IsSoFar D.told phase.old known.old) }
    requires goes_on { GoesOn phase.old }
    requires first { first ≡ is_first phase.old }
    ensures { IfSome (L.told log.new).written (IsSoFar D.told phase.new known.new) }
{
    let found = known.as_slice().len();
    match behind(known.as_slice(), list.as_slice()) {
        Some(more) if more.is_empty() => {}
        Some(more) => {
            *phase = write_lines(rt, alloc, log, first, found, more);
            *known = list;
        }
        None => *phase = Phase::Ended,
    }
}

// Writes the lines of entries, and says how far the log has come then.
fn write_lines<L: Sink, R: Clock>(
    rt: &R,
    alloc: Global,
    log: &mut L,
    first: bool,
    found: usize,
    entries: &[Entry],
) -> Phase
    ensures { WritesLines first found entries.now (L.told log.old).written result
        (L.told log.new).written }
{
    match lines_now(rt, alloc, first, found, entries) {
        Some(text) => write_text(log, &text),
        None => Phase::Ended,
    }
}

// The lines by the clock; none where it fails or memory runs out.
fn lines_now<R: Clock>(
    rt: &R,
    alloc: Global,
    first: bool,
    found: usize,
    entries: &[Entry],
) -> Option<Text>
    ensures { IfSome result (λ text. (ms : ℕ) × (text ≡ lines_of first ms found entries.now)) }
{
    match milliseconds(rt) {
        Some(ms) => text_at(alloc, ms, first, found, entries),
        None => None,
    }
}

fn text_at(alloc: Global, ms: u64, first: bool, found: usize, entries: &[Entry]) -> Option<Text>
    ensures { IfSome result (λ text. text ≡ lines_of first ms found entries.now) }
{
    match text_of(alloc, ms, first, found, entries) {
        Ok(text) => Some(text),
        Err(_) => None,
    }
}

// Since the beginning of 1970; none where the clock stands before that, or fails.
fn milliseconds<R: Clock>(rt: &R) -> Option<u64> {
    let now = SystemTime::now(rt).ok()?;
    let since = now.duration_since(UNIX_EPOCH).ok()?;
    u64::try_from(since.as_millis()).ok()
}

// Writes all of a text, or ends with a front of it.
fn write_text<L: Sink>(log: &mut L, text: &Text) -> Phase
    ensures { (first : Bool) (found ms : ℕ) (entries : List Entry)
        → text.now ≡ lines_of first ms found entries
        → WritesLines first found entries (L.told log.old).written result (L.told log.new).written }
{
    match write_all(log, text.as_str().as_bytes()) {
        Ok(()) => Phase::Written,
        Err(_) => Phase::Ended,
    }
}
