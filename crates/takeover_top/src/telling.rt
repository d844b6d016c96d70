//! What the notes have of a takeover's ending.
ghost use Rattle.swanroll_top.specs.Live.{NotesText};
ghost use Rattle.takeover_top.specs.Endings.{LineTold, Told};
ghost use Rattle.takeover_top.specs.Lines as lines;

use crate::ending::TakeoverEnding;
use crate::lines::{later_line, start_line};
use dependency_graph::StartFault;
use lists::{Memory, Text};
use std::alloc::Global;
use text_commands::{CommandEnd, note};
use wan_edge::{Sink, write_all};
use wan_model::CheckedPlan;

/// Writes the line of an ending, and answers its status. Without memory for the line that is what it tells.
pub(crate) fn tell<K: Sink>(alloc: Global, notes: &mut K, ending: TakeoverEnding) -> u8
    ensures { Told ending result (K.told notes.old) (K.told notes.new) }
{
    match ending {
        TakeoverEnding::Ended(ending) => note(alloc, notes, ending),
        TakeoverEnding::Later { item, migration } => tell_later(alloc, notes, item, migration),
        TakeoverEnding::Unsound(plan, fault) => tell_unsound(alloc, notes, plan, fault),
    }
}

fn tell_later<K: Sink>(alloc: Global, notes: &mut K, item: u32, migration: u32) -> u8
    ensures { LineTold (lines.later_line item migration) 11 result (K.told notes.old)
        (K.told notes.new) }
{
    match later_line(alloc, item, migration) {
        Ok(line) => {
            write_line(notes, line.as_str());
            11
        }
        Err(_) => note(alloc, notes, CommandEnd::OutOfMemory),
    }
}

fn tell_unsound<K: Sink>(alloc: Global, notes: &mut K, plan: CheckedPlan, fault: StartFault) -> u8
    ensures { LineTold (lines.start_line plan.problem fault) 13 result (K.told notes.old)
        (K.told notes.new) }
{
    match start_line(alloc, plan.problem(), fault) {
        Ok(line) => {
            drop(plan);
            write_line(notes, line.as_str());
            13
        }
        Err(_) => {
            drop(plan);
            note(alloc, notes, CommandEnd::OutOfMemory)
        }
    }
}

fn write_line<K: Sink>(notes: &mut K, line: &str)
    ensures { NotesText line.now (K.told notes.old) (K.told notes.new) }
{
    let _ = write_all(notes, line.as_bytes());
}
