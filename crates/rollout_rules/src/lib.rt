//! The rules of a rollout, as definitions that contracts cite, and the plain enums and records that
//! these definitions match on.
//!
//! `specs/` has a module a subject, from sums over the problem and its plan to the worlds that a
//! rollout may pass through. Nothing here runs but for the worked examples: public functions with empty
//! bodies whose clauses compute a definition on a small network, once where it holds and once where it
//! fails.
#![tactic(auto)]

mod event;
mod held;
mod item;
mod limits;
mod op;
pub mod worked;

pub use event::{Act, Event, EventList, Script};
pub use held::{Given, GivenList, Held, HeldList};
pub use item::{Item, Spot};
pub use limits::{
    LARGEST_CAPACITY, LARGEST_PLAN_RATE, LARGEST_RATE, LARGEST_SCALE, LARGEST_TABLE, LARGEST_WIDTH,
    LONGEST_NAME, MOST_ACTS, MOST_FLOWS, MOST_HOPS, MOST_INPUT, MOST_LINKS, MOST_SENT, MOST_STAGES,
    MOST_SWITCHES, MOST_TUNNELS, MOST_TUNNELS_OF_FLOW,
};
pub use op::{Entry, EntryList, Op, OpList, OpView};
