//! Exact fractions, and linear programs solved over them to the last digit.
//!
//! What may be said to show that a plan with fewer rate steps is impossible, as data alone.
//!
//! What each kind says of a problem stands above, beside the check that decides it; a reader of texts
//! needs only this.
#![tactic(auto)]

mod answer;
mod column;
mod dictionary;
mod divisor;
mod excluding;
mod fraction;
pub mod laws;
mod line;
mod proof;
mod rows;
mod simplex;
mod step_fault;
mod term;
mod terms;
pub mod worked;

pub use answer::{FractionList, LpAnswer};
pub use divisor::greatest_common_divisor;
pub use excluding::excludes;
pub use fraction::Fraction;
pub use proof::Proof;
pub use rows::Rows;
pub use simplex::{MOST_EXCHANGES, solve};
