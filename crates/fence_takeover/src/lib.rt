//! The beginning of a takeover: [`fence`] asks the home of each item that has an operation what it holds, and gives
//! the start from which a rollout goes on without the journal of the one before.
//!
//! It is generic over the fleet. Over one for a controller of one term (`fenced_ports`) each question raises its
//! switch's floor, so that the controller before is heard no more, and each answer was given after that floor. A
//! question is a command that no switch carries out (`held_service`). It names the migration that is taken over, and
//! changes no pair, of whichever migration that is ([`laws`]).
//!
//! A takeover up to its first command: [`begin_takeover`] asks the switches of a rollout what they hold, tests the
//! start that follows, opens the disk, and puts a journal of the rollout from there in the place of the one on it.
//! What comes after it is a rollout like any other, over the same fleet: it opens that journal.
#![tactic(auto)]

mod beginning;
mod begun;
mod end;
mod fencing;
pub mod laws;
mod taking;
pub mod worked;

pub use beginning::begin_takeover;
pub use begun::{Begun, NotBegun};
pub use end::FenceEnd;
pub use fencing::fence;
