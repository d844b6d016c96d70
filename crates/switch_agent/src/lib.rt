//! The agent of a switch: it carries out commands by the agent rule, and serves the controllers that
//! come as guests.
//!
//! Contracts see an [`Agent`] as its items in the order in which it saw them, each with the command that
//! was carried out last, from which follows what is held of it. [`serve_read`] reads a guest once and
//! answers each command that ends in what came: its contract says what was read, carried out and written
//! in each case, and what is kept of the guest ([`ReadState`]), so that several guests can be read in turn. An
//! agent keeps no more items than a document within the limits has, whatever comes, and has room for each
//! of these ([`laws`]).
#![tactic(auto)]

mod agent;
mod guest_read;
mod hearing;
pub mod laws;
mod read_state;
mod serve;
mod serve_fault;

pub use agent::Agent;
pub use guest_read::GuestRead;
pub use hearing::{read_some, serve_read};
pub use read_state::ReadState;
pub use serve_fault::{ServeFault, Served};
