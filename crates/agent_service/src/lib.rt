//! The agent of a switch over the guests that a fleet gives: one agent, which holds nothing at first and has heard of
//! no term, serves up to 64 guests at once under one floor, each read when something of it is there, and what it holds it keeps between
//! them: of as many items as a document within the limits may have, and of no more.
//!
//! The contract of [`serve_guests`] goes turn by turn: a guest sits down, or one that sits is read once, by
//! the contract of [`agent_talks::serve_read`]; it names what each told, what was written to it, and what
//! was counted. [`keep_guests`] is the same by an agent with a file: it holds what its file says, and adds
//! what a read of commands changed, and the floor that it raised, to the file before it answers.
#![tactic(auto)]

mod gathering;
mod guests;
mod keep_fault;
mod keeping;
mod kept;
pub mod laws;
mod seats;
mod service;

pub use guests::serve_guests;
pub use keep_fault::KeepFault;
pub use kept::keep_guests;
pub use service::{Service, ServiceFault};
