//! The policies that a program has under their names, `critical`, `order` and `freeze`: what each answers, which
//! texts say the ceiling of the last, and the list of all three. A box of a closure is made where it is lent, so each
//! program makes its three boxes of these answers.
#![tactic(auto)]

mod ceilings;
mod policies;

pub use ceilings::ceiling_in;
pub use policies::{critical, freeze, order, policies_of};
