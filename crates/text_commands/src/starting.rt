ghost use Rattle.order_policy.specs.Named.{answers_in};
ghost use Rattle.text_commands.specs.TextCall.{TextsStart, lent};

use crate::arguments::{Unread, words_of};
use crate::command_end::CommandEnd;
use crate::making::make_text;
use crate::notes::note;
use order_policy::{Policies, Policy};
use std::alloc::Global;
use wan_edge::{Sink, Source};

/// Does what the program's arguments ask for, of which the first is its own name, where that is a text of the
/// input alone, and answers the exit status. Arguments that aren't text are no command line.
pub fn start_text<S: Source, K: Sink>(
    alloc: Global,
    arguments: Result<Vec<String>, Unread>,
    source: &mut S,
    sink: &mut K,
    notes: &mut K,
    policies: &Policies<Policy>,
) -> u8
    ensures { TextsStart S.told K.told (answers_in policies.now) arguments (λ all. all.items)
        (lent source.old sink.old notes.old) result
        (lent source.new sink.new notes.new) }
{
    match arguments {
        Ok(arguments) => {
            let words = words_of(arguments.as_slice());
            make_text(alloc, words, source, sink, notes, policies)
        }
        Err(why) => note(alloc, notes, CommandEnd::from(why)),
    }
}
