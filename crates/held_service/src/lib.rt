//! What the switches of a rollout hold: [`held_text`] asks the home of each item that has an operation, by
//! commands that no switch applies, and gives what they answer as a text; [`held_pairs`] gives it as a row.
//!
//! A question is a command with number 0, of migration 0 or of one that is given. By the agent rule none is the
//! next of its item in any migration, so that a switch answers it by the pair that it holds, and holds what it
//! held ([`laws`]). The switches are
//! asked one after the other, each about all of its items at once, and about those that it hasn't told yet
//! once more in each round. Contracts see a visit as rounds, each with the items that were asked about and
//! the answers that came; what is noted follows from the answers alone.
#![tactic(auto)]

mod alien;
mod asking;
mod collecting;
mod hearing;
mod held_lines;
mod homes;
pub mod laws;
mod not_told;
mod notes;
mod questions;
mod service;
mod visiting;
pub mod worked;

pub use collecting::held_pairs;
pub use not_told::NotTold;
pub use service::held_text;
