//! The whole program as one call, [`swanroll`]: it reads its input from a source, does the command that
//! its words name, writes the result to a sink and says in the notes why it didn't. [`start`] is the same
//! from the arguments of the program on, and [`start_logged`] that with a log of the rollout.
//!
//! A module a concern: the words, and each command that wants a device. The commands that make a text of their
//! input alone stand in `text_commands`, with reading, writing, how a run ends and the notes.
//! `trial` reads nothing, `report` opens the journal on a disk, `run`, `drain` and `rollback` open it and ask over the ports of the fleet, `agent` serves the guests of a fleet, and `held`
//! asks over its ports. The contract is one record, `specs::Promise`, with a record of its own for each command. It speaks from the bytes read, those on the disk and
//! those that guests send, to the bytes written. A report of a journal as it stands, without its lock, is a call of its own, [`report_live`], which has no disk; so is [`show_left`], which writes the problem that a rollout leaves.
#![tactic(auto)]

mod agent;
mod arguments;
mod drain;
mod held;
mod journal_report;
mod kept_agent;
mod kept_end;
pub mod laws;
mod left;
mod left_words;
mod live;
mod live_words;
mod logging;
mod rollback;
mod rollout;
mod rollout_ending;
mod run;
mod top;
mod trial;
mod turning;
mod watching;
mod words;
pub mod worked;

pub use arguments::start;
pub use kept_agent::{guests_asked, keep_agent};
pub use left::show_left;
pub use left_words::left_asked;
pub use live::report_live;
pub use live_words::{LiveAsked, live_asked};
pub use logging::start_logged;
pub use rollout_ending::ending_of_rollout;
pub use text_commands::{CommandEnd, Unfinished, Unread, Unshown};
pub use top::{Ended, swanroll};
pub use watching::watch;
