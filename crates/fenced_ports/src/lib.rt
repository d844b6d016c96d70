//! Ports for a controller of one term, over ports to switches that hear several controllers.
//!
//! A [`FencedPort`] is a port without terms over one whose commands name a term and whose answers tell a floor, so
//! that all that is built on ports goes on over it: `specs/Parts` says byte by byte what it hands on, and
//! `specs/FencedPorts` how what it tells is tied to the port behind it. A [`FencedFleet`] gives such ports over
//! those of a fleet: such a fleet is of one term ([`OneTerm`]). What is handed on stood after the term as its floor ([`laws`]).
#![tactic(auto)]

mod fleet;
mod framing;
mod hearing;
pub mod laws;
mod ledger;
mod one_term;
mod part;
mod port;
mod sieve;
mod term;
mod unsent;
pub mod worked;

pub use fleet::FencedFleet;
pub use one_term::OneTerm;
pub use port::FencedPort;
