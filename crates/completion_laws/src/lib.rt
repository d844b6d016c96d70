//! Whether a rollout's run finishes. Nothing runs here: each law is a public function with an empty body,
//! over what a run leaves and over the rounds of a worker (both in `controller_run`).
//!
//! `faults` says that where no count of faults has risen a run isn't stopped by its disk or by a port,
//! `work` that after a round of the book all that may begin is held back by the policy where nothing is in
//! flight, `ports` what a prompt port tells that has answered all before, and `rounds` that over such ports
//! each round which lists a command settles an operation, and that a worker asks that all stop only where
//! memory ran out or the disk or a port failed. `finishing` puts these together.
//!
//! The other laws say what a switch holds after a rollout, whatever it may hold by the bytes that its port told: those
//! of `switch_laws` for ports that don't tell what is held, as no socket can.
//!
//! A switch may hold whatever it comes to by the agent rule on the commands that were offered, however
//! these were lost, repeated and reordered and with those of earlier connections still on their way, as long
//! as the answers that were heard are right. [`each_switch_holds_what_a_run_has_begun`] says that all this
//! lies between what is settled and what is begun, where the switch began so;
//! [`each_switch_holds_the_target_where_a_run_is_finished`] that after a finished history it is exactly the
//! target; and [`the_next_run_finds_each_switch_right`] that the next run may begin from it.
#![tactic(auto)]

mod faults;
mod finishing;
mod holding;
mod ports;
mod rounds;
mod work;
mod worked;
mod worked_holdings;

pub use faults::a_run_without_faults_is_stopped_by_none;
pub use finishing::{
    a_held_run_is_held_by_its_policy, a_run_over_ports_that_have_answered_ends_for_an_excuse,
    a_run_over_ready_ports_ends_for_an_excuse, a_run_over_ready_ports_finishes,
    a_run_over_ready_ports_stops_for_an_excuse, one_worker_serves_apart,
    ports_that_are_apart_are_served_apart,
};
pub use holding::{
    each_switch_holds_the_target_where_a_run_is_finished, each_switch_holds_what_a_run_has_begun,
    the_next_run_finds_each_switch_right,
};
pub use ports::{a_port_that_is_up_to_date_answers_each_command, a_ready_port_is_up_to_date};
pub use rounds::{a_worker_stops_for_an_excuse, each_round_settles_an_operation};
pub use work::{
    a_round_leaves_what_is_held_back, a_round_leaves_work, nothing_is_held_behind_a_round,
};
