ghost use Rattle.std.specs.Prelude.{Some};
ghost use Rattle.order_policy.specs.Named.{answers_in};
ghost use Rattle.text_commands.specs.TextCall.{TextsPromise, lent};
ghost use Rattle.text_commands.specs.Words.{text_asked, text_asked_by};

use crate::command_end::CommandEnd;
use crate::notes::note;
use crate::text_run::run_text;
use crate::words::{TextCommand, text_command_of};
use order_policy::{Policies, Policy};
use std::alloc::Global;
use wan_edge::{Sink, Source};

/// Does what the words ask for, where that is a text of the input alone, and answers the exit status: the whole
/// program does the same with these words, and says the same. Any other words are no command line here. The
/// policies are those that the words may name.
///
/// | Status | Comes |
/// |---|---|
/// | 0 | the text was written |
/// | 2 | the words aren't a command line |
/// | 3 | the input is above its limit, isn't what the command reads, its plan breaks a clause, or what it says of fewer rate steps isn't shown |
/// | 4 | `plan`, `least`: no plan is chosen for the problem |
/// | 6 | the source failed |
/// | 7 | the sink failed |
/// | 12 | memory ran out |
/// | 15 | `least`: it isn't shown that fewer rate steps are impossible |
pub fn make_text<S: Source, K: Sink>(
    alloc: Global,
    words: &[String],
    source: &mut S,
    sink: &mut K,
    notes: &mut K,
    policies: &Policies<Policy>,
) -> u8
    ensures { TextsPromise S.told K.told (text_asked_by (answers_in policies.now) words.now)
        (lent source.old sink.old notes.old) result
        (lent source.new sink.new notes.new) }
{
    match text_command_of(words, policies) {
        Some(command) => make_asked(alloc, command, source, sink, notes),
        None => note(alloc, notes, CommandEnd::Usage),
    }
}

/// Makes the text that was asked for, and notes how the run ended.
fn make_asked<S: Source, K: Sink>(
    alloc: Global,
    command: TextCommand<'_>,
    source: &mut S,
    sink: &mut K,
    notes: &mut K,
) -> u8
    ensures { TextsPromise S.told K.told (Some (text_asked command.entry))
        (lent source.old sink.old notes.old) result
        (lent source.new sink.new notes.new) }
{
    let ending = run_text(alloc, command, source, sink);
    note(alloc, notes, ending)
}
