ghost use Rattle.std.specs.Prelude.{◌≡◌, [], IfSome, Ok};
ghost use Rattle.wan_edge.specs.Streams.{Rose};
ghost use Rattle.wan_text.specs.Named.{AreNamesOf};
ghost use Rattle.text_commands.specs.Answered.{drawn_in, text_in};
ghost use Rattle.text_commands.specs.Answers.{rollout_text};
ghost use Rattle.text_commands.specs.Drawn.{IsReadBack};
ghost use Rattle.text_commands.specs.Ready.{IsReady, drawn_ready, ready_text};
ghost use Rattle.text_commands.specs.Runs.{EndsWith, Follows};

use crate::answer::Answer;
use crate::command_end::CommandEnd;
use crate::drawn::push_drawn;
use crate::ready::{Ready, made_ready};
use crate::shown::push_shown;
use plan_texts::{push_explanation, push_loads};
use problem_json::push_document;
use sink_pieces::{Kept, PieceSink};
use std::alloc::Global;
use text_writer::Pieces;
use wan_edge::{Sink, write_all};
use wan_model::CheckedPlan;
use wan_text::Names;

/// Writes all of a text.
pub fn write_text<K: Sink>(sink: &mut K, text: &str) -> CommandEnd
    ensures written { EndsWith (Ok text.now) result (K.told sink.old).written
        (K.told sink.new).written }
    ensures cause { result ≡ CommandEnd.WriteFault
        → Rose (K.told sink.old).faults (K.told sink.new).faults }
{
    match write_all(sink, text.as_bytes()) {
        Ok(()) => CommandEnd::Done,
        Err(_) => CommandEnd::WriteFault,
    }
}

/// Writes the text of an answer, piece by piece. The memory for it, a buffer and what is looked up, is taken before
/// the first byte is written: where it isn't found nothing is.
pub fn write_told<K: Sink>(alloc: Global, answer: Answer, sink: &mut K) -> CommandEnd
    ensures written { Follows (Ok (text_in answer)) result (K.told sink.old).written
        (K.told sink.new).written }
    ensures cause { result ≡ CommandEnd.WriteFault
        → Rose (K.told sink.old).faults (K.told sink.new).faults }
    ensures read { result ≡ CommandEnd.Done → IfSome (drawn_in answer) IsReadBack }
{
    let Ok(ready) = made_ready(alloc, answer) else {
        return CommandEnd::OutOfMemory;
    };
    write_ready(alloc, sink, &ready)
}

/// Writes it through a buffer.
fn write_ready<K: Sink>(alloc: Global, sink: &mut K, ready: &Ready) -> CommandEnd
    requires { IsReady ready.now }
    ensures written { Follows (Ok (ready_text ready.now)) result (K.told sink.old).written
        (K.told sink.new).written }
    ensures cause { result ≡ CommandEnd.WriteFault
        → Rose (K.told sink.old).faults (K.told sink.new).faults }
    ensures read { result ≡ CommandEnd.Done → IfSome (drawn_ready ready.now) IsReadBack }
{
    match Kept::new(alloc) {
        Ok(mut kept) => write_by(sink, &mut kept, ready),
        Err(_) => CommandEnd::OutOfMemory,
    }
}

/// Writes it by an empty buffer.
fn write_by<K: Sink>(sink: &mut K, kept: &mut Kept, ready: &Ready) -> CommandEnd
    requires empty { kept.old ≡ [] }
    requires ready { IsReady ready.now }
    ensures written { EndsWith (Ok (ready_text ready.now)) result (K.told sink.old).written
        (K.told sink.new).written }
    ensures cause { result ≡ CommandEnd.WriteFault
        → Rose (K.told sink.old).faults (K.told sink.new).faults }
    ensures read { IfSome (drawn_ready ready.now) IsReadBack }
{
    let mut pieces = PieceSink::new(sink, kept);
    push_ready(&mut pieces, ready);
    match pieces.finish() {
        Ok(()) => CommandEnd::Done,
        Err(_) => CommandEnd::WriteFault,
    }
}

/// Pushes it. A script that was drawn is read again from what was pushed.
fn push_ready<P: Pieces>(pieces: &mut P, ready: &Ready)
    requires { IsReady ready.now }
    ensures text { P.pushes pieces.old (ready_text ready.now) pieces.new }
    ensures read { IfSome (drawn_ready ready.now) IsReadBack }
{
    match ready {
        Ready::Made(text) => pieces.push_str(text.as_str()),
        Ready::Document(names, plan) => push_rollout(pieces, names, plan),
        Ready::Loads(rows, plan) => push_loads(pieces, plan, rows),
        Ready::Explained(lookup, plan) => push_explanation(pieces, plan, lookup),
        Ready::Shown(names, said, shown) => push_shown(pieces, names, said.as_str(), shown),
        Ready::Rehearsed(names, drawn) => push_drawn(pieces, names, drawn),
    }
}

/// Pushes the document of a plan with its problem, and a line feed, by the names of the problem.
fn push_rollout<P: Pieces>(pieces: &mut P, names: &Names, plan: &CheckedPlan)
    requires { AreNamesOf names.now plan.now.problem }
    ensures { P.pushes pieces.old (rollout_text plan.now) pieces.new }
{
    push_document(pieces, names, plan.problem(), plan.plan());
    pieces.push_str("\n");
}
