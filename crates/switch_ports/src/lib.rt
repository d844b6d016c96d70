//! The ports of one worker, and one round over all of them: [`WorkerPorts::offer`] offers at every port
//! before [`WorkerPorts::hear`] hears at the first, so that a round costs the slowest switch's answer and
//! not the sum of all.
//!
//! Contracts see the ports as a row of what each tells, with the place where the worker stands in its
//! answers. A switch that owes answers, and whose time limit hasn't passed, is late, and nothing is offered
//! there ([`WorkerPorts::due`] has the others); else each port is offered the commands whose items' home is
//! its switch, in order and in one call. None is waited for.
//! What is told in a round is told by each port in turn, of items of its own switch alone: an answer of
//! another's item is refused before anything is made of it.
//!
//! The ports of a whole rollout: [`open_ports`] opens one to each switch at which there is work before it
//! begins, [`deal`] deals them to workers in turn, and [`keep_ports`] and [`keep_workers`] give them back
//! after it.
//!
//! A port that was opened is held by its berth or its worker until it is given back: where the fleet
//! refuses one, those before it are given back, and where memory for a worker runs out, all berths come
//! back as they were. Giving back takes no memory.
#![tactic(auto)]

mod dealing;
mod dealing_laws;
mod due;
mod exchange;
mod homes;
mod keeping;
mod laws;
mod opening;
mod outboxes;
mod ports;
mod round;
pub mod worked;

pub use dealing::deal;
pub use dealing_laws::{
    dealt_berths_are_those_that_were_opened, each_port_stands_at_its_switch,
    marks_that_were_not_set_stay, ports_that_moved_are_given_back_alike,
    working_homes_are_distinct,
};
pub use keeping::{keep_ports, keep_worker, keep_workers};
pub use laws::{
    a_port_goes_on_and_on, a_round_is_one_more, a_round_that_ends_is_the_last,
    what_is_told_stays_told,
};
pub use opening::{NotOpened, open_ports};
pub use ports::{Berth, WorkerPorts};
