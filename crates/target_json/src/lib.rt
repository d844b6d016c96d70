//! The target of a rollout as JSON (RFC 8259), read from the key `target` of a document.
//!
//! A target is an object with a list `flows`, which has one object for each flow of the problem, in the problem's
//! order, with the flow's `name` and a list `new` of one rate or null for each of its tunnels; and perhaps a list
//! `capacities` of objects with the ends of a link, `from` and `to`, and its `capacity`. The grammar stands in
//! `specs/`, over the problem that a document has: [`read_target`] answers a target exactly where the grammar does,
//! and else the fault of the first place that it refuses.
#![tactic(auto)]

mod fault;
mod key;
mod place;
mod reading;
mod rows;
mod values;
pub mod worked;

pub use fault::{TargetFault, Wrong};
pub use key::TargetKey;
pub use place::{TargetPart, TargetPlace};
pub use reading::read_target;
