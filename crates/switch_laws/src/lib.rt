//! What a switch holds after a rollout, from what its port told: laws over the agent rule, the history
//! that a run found and the entries that it added, with no code of their own.
//!
//! [`switches_hold_what_stands`] says that of each item the switch of its home holds a pair between what
//! is settled and what is begun, with the content of that number, or what an earlier migration left where
//! nothing is settled since; [`finished_switches_hold_the_target`] that, once all is settled, it holds the
//! last operation's pair and the content of the new split. Both are of switches that keep the agent rule.
//! The other laws give what these ask for: that what is listed is begun, and has a frame; that whole rounds
//! may end a story; and that the next run of the migration starts as found.
#![tactic(auto)]

mod laws;
mod worked;

pub use laws::{
    begun_commands_have_frames, finished_switches_hold_the_target, listed_commands_are_begun,
    switches_hold_what_stands, the_next_run_starts_as_found, whole_rounds_may_be_the_last,
};
