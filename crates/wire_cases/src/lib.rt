//! Tests of the crates from streams and ports to the ports of a rollout: streams, guests and switches that fail, and
//! the ports in memory, of which no command has one. What these crates say whole, and a command shows, is tried over
//! the built program. They stand apart, since a crate with tests is proved twice.
#![tactic(auto)]

#[cfg(test)]
mod fleets;
#[cfg(test)]
mod guests;
#[cfg(test)]
mod ports;
#[cfg(test)]
mod streams;
