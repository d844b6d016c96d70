//! The rules of a takeover, as definitions that contracts cite: a second controller goes on with a
//! migration whose first one was lost with its journal, or still runs and can't be reached.
//!
//! `Terms` says what a switch makes of commands that name a term: it passes over those of a lower term
//! than it has heard. `Takeovers` has the two worlds: the older controller's and the newer one's, over
//! switches that hold the same in both. The newer world begins once the switch of each item with an
//! operation is fenced off from the older one, with what the switches hold then. Nothing here runs but
//! for the worked examples.
#![tactic(auto)]

mod event;
pub mod worked;

pub use event::{TwoEvent, TwoEventList};
