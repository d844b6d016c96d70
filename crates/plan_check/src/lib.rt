//! The checker of plans: whether a plan leads from a problem's old split to its new one without ever
//! asking more of a link or a forwarding table than there is, and how much links have to spare.
//!
//! [`check_plan`] answers Ok exactly for the valid plans, and else the first broken clause, with what
//! stands there and what is wanted; [`loads`] and [`least_slack`] answer what the rules say, and want of
//! memory is the only other answer of each. The loads of both splits are kept together ([`SplitLoads`]),
//! for whoever asks more than one thing of them. The clauses P0 to P5 have a module each and are tested in
//! this order. The work at a stage is the sum of the tunnels' lengths, the links and the switches: loads
//! are running sums over tunnels.
#![tactic(auto)]

mod broken;
mod carried;
mod check;
mod ends;
mod fault;
mod link_loads;
mod shape;
mod slack;
mod split_loads;
mod steps;
mod sums;
mod totals;
pub mod worked;

pub use broken::Broken;
pub use check::check_plan;
pub use fault::PlanFault;
pub use link_loads::loads;
pub use slack::{least_slack, slack_over};
pub use split_loads::SplitLoads;
