//! The world in code: what each event does, and which may come.
//!
//! [`World`] is the world of one rollout; contracts see it as the definition's world. [`any_rollout`]
//! takes it through any schedule, and its contract says that every world on the way is safe. A world is
//! plain: it counts what is begun and settled of each item, and tries a batch entry by entry, by these
//! counts and the entries ahead. Whether every room fits with a Begin is a sum over all that takes of each
//! resource, at each stage; a graph of operations knows the same from cells that it keeps.
#![tactic(auto)]

mod adding;
mod answers;
mod copying;
mod history;
mod in_flight;
mod pairs;
mod rollout;
mod room;
mod world;

pub use pairs::pair_after;
pub use rollout::{any_rollout, copied_event};
pub use rollout_rules::{Event, EventList};
pub use world::World;
