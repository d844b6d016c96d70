//! The commands that make a text of their input: none of them needs a device.

mod back;
mod check;
mod checking;
mod explain;
mod least;
mod loads;
mod plan;
mod rehearse;
mod sim;

ghost use Rattle.std.specs.Prelude.{IfOk, IfSome};
ghost use Rattle.text_commands.specs.Answered.{drawn_in, told};
ghost use Rattle.text_commands.specs.Answers.{answer_in};
ghost use Rattle.text_commands.specs.Drawn.{IsReadBack};
ghost use Rattle.text_commands.specs.Runs.{Gives};
ghost use Rattle.text_commands.specs.Safety.{DoesSafely};
ghost use Rattle.text_commands.specs.Words.{text_asked};

use crate::answer::Answer;
use crate::command_end::CommandEnd;
use crate::words::TextCommand;
pub use checking::rollout_of;
pub use plan::{by_slack, document_of};
use std::alloc::Global;
use wan_edge::Nums8;

/// What a command answers to its input, or how the run ends without an answer. The bytes are given up as soon as they
/// are read. That a script which was drawn is read again is known once its text was pushed.
pub fn answer_of(
    alloc: Global,
    command: TextCommand<'_>,
    input: Nums8,
) -> Result<Answer, CommandEnd>
    ensures gives { Gives (told result) (answer_in (text_asked command.entry) input) }
    ensures safe { IfOk result (λ answer. IfSome (drawn_in answer) IsReadBack
        → DoesSafely (text_asked command.entry) input) }
{
    match command {
        TextCommand::Plan(planner) => plan::plan(alloc, planner, input).map(Answer::Document),
        TextCommand::Check => check::check(alloc, input).map(Answer::Made),
        TextCommand::Loads => loads::loads(alloc, input).map(Answer::Loads),
        TextCommand::Back => back::back(alloc, input).map(Answer::Document),
        TextCommand::Explain => explain::explain(alloc, input).map(Answer::Explained),
        TextCommand::Least => least::least(alloc, input).map(Answer::Shown),
        TextCommand::Sim(policy) => sim::sim(alloc, policy, input).map(Answer::Made),
        TextCommand::Rehearse(shape, policy) => {
            rehearse::rehearse(alloc, &shape, policy, input).map(Answer::Rehearsed)
        }
    }
}
