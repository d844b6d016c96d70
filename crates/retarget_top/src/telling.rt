//! The status of an ending, and its line.
ghost use Rattle.std.specs.Prelude.{◌≡◌, ℕ, List, IfOk};
ghost use Rattle.retarget_top.specs.Lines.{NotesText};
ghost use Rattle.retarget_top.specs.RetargetPromise.{LineTold, RetargetTold};

use crate::ending::RetargetEnding;
use crate::lines::{no_link_line, target_line};
use lists::{Memory, Text};
use retarget_service::unleft_line;
use std::alloc::Global;
use text_commands::{CommandEnd, note};
use wan_edge::{Sink, write_all};

/// Writes the line of an ending, and answers its status; without memory for the line that is what it tells.
pub(crate) fn tell<K: Sink>(alloc: Global, notes: &mut K, shed: &str, ending: RetargetEnding) -> u8
    ensures { RetargetTold shed.now ending result (K.told notes.old) (K.told notes.new) }
{
    match ending {
        RetargetEnding::Ended(ending) => note(alloc, notes, ending),
        RetargetEnding::Target(fault) => told(alloc, notes, 3, target_line(alloc, fault)),
        RetargetEnding::NoLink => told(alloc, notes, 3, no_link_line(alloc, shed)),
        RetargetEnding::Unleft(cause) => told(alloc, notes, 16, unleft_line(alloc, cause)),
    }
}

// A status with its line, where there is memory for that.
fn told<K: Sink>(alloc: Global, notes: &mut K, status: u8, line: Result<Text, Memory>) -> u8
    ensures { (text : List ℕ) → IfOk line (λ made. made ≡ text)
        → LineTold status text result (K.told notes.old) (K.told notes.new) }
{
    match line {
        Ok(line) => {
            write_line(notes, line.as_str());
            status
        }
        Err(_) => note(alloc, notes, CommandEnd::OutOfMemory),
    }
}

fn write_line<K: Sink>(notes: &mut K, line: &str)
    ensures { NotesText line.now (K.told notes.old) (K.told notes.new) }
{
    let _ = write_all(notes, line.as_bytes());
}
