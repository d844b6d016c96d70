//! The choice of a plan: the least number of rate steps that is found, or why there is no plan.
//!
//! [`choose`] is a function of the problem but for lack of memory: the definition tells for each problem
//! which plan is given, and which link or table is too small where there is none. Where loads fit, tables
//! have room, and some share of every link down to 1/64 is free, or a direct step fits, there is a plan.
#![tactic(auto)]

mod choosing;
mod chosen;
pub mod laws;
mod planned;
mod steps;
mod validity;
pub mod worked;

pub use choosing::{choose, plan_for, plan_over};
pub use chosen::{Chosen, Unplanned};
pub use planned::Planned;
