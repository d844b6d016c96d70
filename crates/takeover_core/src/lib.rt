//! The two worlds of a takeover in code: the older controller's, and the newer one's once it has begun.
//!
//! [`TwoWorlds`] is a takeover; contracts see it as the definition's. [`any_takeover`] takes it through any
//! schedule, and its contract says that every takeover on the way is safe. Both worlds are those of
//! `rollout_core`; after a step of either, the pairs that its switches hold are put into the other.
#![tactic(auto)]

mod fences;
mod sharing;
mod starting;
mod steps;
mod takeover;
mod two_worlds;

pub use takeover::any_takeover;
pub use two_worlds::TwoWorlds;
