//! A whole rollout, from the journal on its disk to the ports of a fleet: all that the command `run` does but for
//! its words, what it reads, and what it prints.
//!
//! A worker serves its own ports over a shared book ([`serve`]). Switches that owe answers within their time limit
//! are late: they are left alone and hold up nobody.
//!
//! A run over a fleet ([`run`]) opens ports to the switches at which there is work. Workers in threads of their own
//! serve them until nothing is left to do or all are stopped, and the ports are given back.
//!
//! [`run_rollout`] opens the journal, goes on from the list found, and gives the disk back with what the run has come
//! to ([`RunOutcome`]); [`run_book`] is the same of a book that was opened. `RolloutEnds` of `specs/` has what that
//! says; what is found on a disk is `Openings` of `intent_journal`.
#![tactic(auto)]

mod caller_ports;
mod end;
mod exchanging;
mod finding;
mod hearing;
mod holding_laws;
mod job;
mod laws;
mod leading;
mod opening;
mod outcome;
mod promises;
mod rollouts;
mod round_end;
mod running;
mod serving;
mod settling;
mod together;
mod worker;
mod workers;
mod working;

pub use end::RunEnd;
pub use exchanging::exchange;
pub use finding::Found;
pub use holding_laws::{
    switches_hold_the_target_where_a_run_is_finished, switches_hold_what_a_run_has_begun,
};
pub use laws::{answers_are_told_by_their_homes, rounds_make_a_story};
pub use outcome::RunOutcome;
pub use promises::{
    a_round_without_answers_ends_nothing, a_seat_stops_nothing_at_first,
    a_worker_keeps_its_promises, a_worker_stops_for_a_reason, listed_commands_are_begun,
    own_commands_are_at_home,
};
pub use rollouts::{RolloutResult, run_book, run_rollout};
pub use round_end::RoundEnd;
pub use running::{Limits, run};
pub use serving::{WorkerEnd, serve};
pub use working::WorkerOptions;
