ghost use Rattle.std.specs.Prelude.{◌≡◌};
ghost use Rattle.text_commands.specs.CommandEnds.{line_of};
ghost use Rattle.text_commands.specs.Lines.{IsLineOf, bytes_of};
ghost use Rattle.text_commands.specs.Runs.{IsTold, Notes};

use crate::command_end::CommandEnd;
use crate::line::{Line, out_of_memory};
use std::alloc::Global;
use wan_edge::{Sink, write_all};

/// Writes the line of an ending, and answers its status. An ending whose line finds no memory becomes
/// lack of memory. That the notes fail changes nothing else.
#[tactic(auto, using(crate::proofs::Programs::telling))]
pub fn note<K: Sink>(alloc: Global, notes: &mut K, ending: CommandEnd) -> u8
    ensures told { IsTold ending result (K.told notes.old).written (K.told notes.new).written
        (K.told notes.old).faults (K.told notes.new).faults }
    ensures quiet { result ≡ 0 → notes.new ≡ notes.old }
{
    let (told, line) = with_line(alloc, ending);
    write_line(notes, &told, &line);
    let status = told.status();
    drop(told);
    status
}

/// The ending with its line, or lack of memory in place of an ending whose line finds none.
fn with_line(alloc: Global, ending: CommandEnd) -> (CommandEnd, Line)
    ensures { IsLineOf ending result.0 result.1 }
{
    match ending.line(alloc) {
        Ok(line) => (ending, line),
        Err(_) => {
            drop(ending);
            (CommandEnd::OutOfMemory, out_of_memory())
        }
    }
}

/// Writes the line of an ending; nothing where the run is done.
fn write_line<K: Sink>(notes: &mut K, told: &CommandEnd, line: &Line)
    requires { bytes_of line.now ≡ line_of told.now }
    ensures line { Notes told.now (K.told notes.old).written (K.told notes.new).written
        (K.told notes.old).faults (K.told notes.new).faults }
    ensures quiet { told.now ≡ CommandEnd.Done → notes.new ≡ notes.old }
{
    if let CommandEnd::Done = told {
        return;
    }
    let _ = write_all(notes, line.as_str().as_bytes());
}
