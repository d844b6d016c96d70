//! Tests of an agent and a rollout over the adapters of sockets and files that the program has, in one process; of
//! whole rollouts over ports in memory that answer only while two workers hear at once; of a disk that is read when it
//! is opened, and fails for good once the one below it has; and of the definition's world in code, of which no command
//! makes use. What no clause says of these is shown here, and what a command shows is tried over the built program.
//! They stand apart, since a crate with tests is proved twice.
#![tactic(auto)]

#[cfg(test)]
mod gates;
#[cfg(test)]
mod mirrors;
#[cfg(test)]
mod schedules;
#[cfg(test)]
mod sides;
