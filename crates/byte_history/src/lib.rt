//! What went over a way, and how often something came about.
//!
//! The program keeps none of it: a [`History`] and a [`Count`] are there for contracts alone, which read them as
//! the list of all bytes and as a number. Ports, streams and fleets say by them what they told so far.
#![tactic(auto)]

mod history;

pub use history::{Bytes, Count, History, Times, history_of};
