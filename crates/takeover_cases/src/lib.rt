//! Tests of a takeover: the two worlds in code, an agent that hears two controllers, its talk with guests, and a port for one of them. They stand apart, since a crate with tests is proved twice.
#![tactic(auto)]

#[cfg(test)]
mod agents;
#[cfg(test)]
mod ports;
#[cfg(test)]
mod schedules;
#[cfg(test)]
mod talks;
