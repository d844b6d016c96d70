ghost use Rattle.std.specs.Prelude.{◌≡◌, ◌≢◌};
ghost use Rattle.wan_edge.specs.Streams.{Rose};
ghost use Rattle.text_commands.specs.declared.unfinished.Unfinished.{Unfinished};
ghost use Rattle.text_commands.specs.Answers.{answer_in};
ghost use Rattle.text_commands.specs.Runs.{Follows, Runs};
ghost use Rattle.text_commands.specs.Safety.{DoesSafely};
ghost use Rattle.text_commands.specs.Words.{text_asked};

use crate::command_end::CommandEnd;
use crate::reading::read_input;
use crate::texts::answer_of;
use crate::words::TextCommand;
use crate::writing::write_told;
use std::alloc::Global;
use wan_edge::{Nums8, Sink, Source};

/// Reads all of the source, and writes the command's text of it, or says how the run ends without one: a
/// fault of the source, lack of memory, or what the command answers to such an input.
pub fn run_text<S: Source, K: Sink>(
    alloc: Global,
    command: TextCommand<'_>,
    source: &mut S,
    sink: &mut K,
) -> CommandEnd
    ensures runs { Runs (text_asked command.entry) (S.told source.old) (S.told source.new) result
        (K.told sink.old).written (K.told sink.new).written }
    ensures read_fault { result ≡ CommandEnd.ReadFault
        → Rose (S.told source.old).faults (S.told source.new).faults }
    ensures write_fault { result ≡ CommandEnd.WriteFault
        → Rose (K.told sink.old).faults (K.told sink.new).faults }
    ensures no_disk { result ≢ CommandEnd.DiskFault }
    ensures no_guest { result ≢ CommandEnd.GuestFault }
    ensures no_rollout { (u : Unfinished) → result ≢ CommandEnd.NotFinished u }
    ensures ran { result ≢ CommandEnd.Usage }
{
    match read_input(alloc, source) {
        Ok(input) => write_answer(alloc, command, input, sink),
        Err(ending) => ending,
    }
}

fn write_answer<K: Sink>(
    alloc: Global,
    command: TextCommand<'_>,
    input: Nums8,
    sink: &mut K,
) -> CommandEnd
    ensures follows { Follows (answer_in (text_asked command.entry) input) result
        (K.told sink.old).written (K.told sink.new).written }
    ensures cause { result ≡ CommandEnd.WriteFault
        → Rose (K.told sink.old).faults (K.told sink.new).faults }
    ensures safe { result ≡ CommandEnd.Done → DoesSafely (text_asked command.entry) input }
{
    match answer_of(alloc, command, input) {
        Ok(answer) => write_told(alloc, answer, sink),
        Err(ending) => ending,
    }
}
