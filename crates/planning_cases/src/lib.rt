//! Tests of calls below the commands: what no command reaches. What a command shows is tried over the built program, as
//! the texts of a plan and the way back are. They stand apart, since a crate with tests is proved twice.
#![tactic(auto)]

#[cfg(test)]
mod fewest;
#[cfg(test)]
mod fractions;
#[cfg(test)]
mod names;
