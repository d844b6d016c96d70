//! Plans that need no search, and why there may be none.
//!
//! A frame makes a plan of rates: idle tunnels go, new ones come, rates move step by step, and tunnels
//! that are no longer wanted go. [`frame`] is the one over any rates, [`still`] the one without a rate
//! step. [`refused`] says what no plan helps against. [`scratch`] moves all rates in equal steps where
//! every link has slack (SWAN), and else says which link has none.
//!
//! Each answer is the value of its definition, and lack of memory is its only other one. `laws` says
//! which frames are valid plans.
#![tactic(auto)]

mod blending;
mod equality;
mod framing;
mod group;
pub mod laws;
mod links;
mod no_plan;
mod refusing;
mod tables;
pub mod worked;

pub use blending::{scratch, scratch_over};
pub use equality::has_equal_rates;
pub use framing::{frame, still};
pub use no_plan::NoPlan;
pub use refusing::{refused, refused_over};
