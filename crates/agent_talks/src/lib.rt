//! An agent's talk with its guests, whose commands may name a term: what is kept of a guest between two reads of
//! it, and what one read brings about.
//!
//! It is the talk of [`switch_agent`] by the rule of terms: [`serve_read`] reads a guest once and carries out each
//! command that ends in what came, under the one floor of its agent. An answer tells the floor where the command
//! named a term. Where no command names a term and none was heard, a read is the plain one ([`laws`]).
#![tactic(auto)]

mod heard;
mod hearing;
pub mod laws;
mod reply;
mod serve;
mod talk;

pub use heard::Heard;
pub use hearing::serve_read;
pub use reply::{Reply, carry_out, takes};
pub use talk::Talk;
