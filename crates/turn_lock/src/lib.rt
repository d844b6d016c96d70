//! A lock whose holders take turns in the order in which they asked (a ticket lock), round a value that has a
//! history. Who works with it carries a [`Pass`], which knows a beginning of that history.
//!
//! `take` gives the value with a history that begins with all that the pass had seen and past that has no entry
//! of the pass's own seat. `give` takes back a value whose history goes on by entries of that seat alone. So what
//! several threads did to the value is one history, in which each finds all that it did, and what it knew, in
//! its place. `wait_past` sleeps until there is more of it than a pass has seen.
#![tactic(auto)]

mod counted;
mod held;
mod lend;
mod lock;
mod pass;
mod seats;
mod steps;
mod turns;
mod view;

pub use counted::Counted;
pub use held::Held;
pub use lock::TurnLock;
pub use pass::Pass;

#[cfg(test)]
mod tests;
