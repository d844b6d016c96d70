//! In which order operations are to begin, and which are to wait.
//!
//! A [`Policy`] keeps a closure of its maker's, which answers a rank for what it sees of an operation, or
//! a number that holds the operation back. Its type keeps that the closure may be called on every view and
//! answers equal views alike, so contracts see a policy as a function, and no crate above asks it again.
//! [`Policies`] has policies by name, and finds the one that was added first under a name.
#![tactic(auto)]

mod policies;
mod policy;

pub use policies::Policies;
pub use policy::Policy;
