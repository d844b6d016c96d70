//! Tests of a rollout's book over disks in memory, by two seats call by call and by four threads: what no clause says.
//! They stand apart, since a crate with tests is proved twice.
#![tactic(auto)]

#[cfg(test)]
mod books;
#[cfg(test)]
mod crowds;
#[cfg(test)]
mod histories;
#[cfg(test)]
mod many;
#[cfg(test)]
mod rows;
#[cfg(test)]
mod seats;
#[cfg(test)]
mod sharing;
#[cfg(test)]
mod threads;
#[cfg(test)]
mod waking;
