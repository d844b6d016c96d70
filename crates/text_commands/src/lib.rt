//! The commands that make a text of their input, `plan`, `check`, `loads`, `explain`, `back`, `least`, `sim` and
//! `rehearse`, from their words to the exit status. [`make_text`] does what the words ask for over streams, and
//! [`start_text`] is the same from the arguments of a program on: a program that has no other commands needs
//! nothing of devices. What the whole program shares with them is here, too: how a run ends and its line, reading
//! all of the source, writing all of a text, or that of an answer piece by piece, and the notes.
//!
//! A module a concern: the words, reading, writing, how a run ends, each kind of line, and the notes. The commands
//! stand in `texts`, a module each. The contract speaks from the bytes read to the bytes written; what it promises of
//! a command is one record, `specs::TextPromise`, which the whole program promises of it as well.
#![tactic(auto)]

mod answer;
mod arguments;
mod command_end;
mod drawn;
mod fault_lines;
mod journal_line;
pub mod laws;
mod line;
mod making;
mod no_plan_line;
mod notes;
mod reading;
mod ready;
mod shown;
mod starting;
mod text_run;
mod texts;
mod unfinished;
mod unshown;
mod words;
pub mod worked;
mod writing;

pub use answer::Answer;
pub use arguments::{Unread, why_unread, words_of};
pub use command_end::CommandEnd;
pub use line::{Line, out_of_memory};
pub use making::make_text;
pub use notes::note;
pub use reading::read_input;
pub use shown::ShownPlan;
pub use starting::start_text;
pub use text_run::run_text;
pub use texts::{answer_of, by_slack, document_of, rollout_of};
pub use unfinished::Unfinished;
pub use unshown::Unshown;
pub use words::{
    LARGEST_SEED, MOST_EVENTS, Planner, TextCommand, TextKind, begins_with_dash, number_from,
    number_in, planner_of, script_shape_of, text_command_of, text_kind_named, text_takes, value_or,
};
pub use writing::write_text;
