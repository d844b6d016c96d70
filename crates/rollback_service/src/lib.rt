//! A rollback from the journal on its disk: all that the command `rollback` does but for its words, what it
//! reads, and what it prints.
//!
//! [`run_levelling`] opens the journal of a rollout and runs it, as a rollout is run, under the policy that
//! levels it: at the stage to which what was found has come, or at the first one at which it may turn, as it is
//! asked ([`BackFrom`]). Both are known before anything runs, and so is where the way back begins then.
//! [`place_back`] puts a journal of the way back from there in its place. [`run_draining`] runs a rollout under
//! the policy that levels it at stage 0, so that nothing begins and what is in flight is awaited. `Levellings` of
//! `specs/` has what the first comes to, `Placings` what the second leaves, and `Drainings` what the third comes
//! to.
#![tactic(auto)]

mod answer;
mod draining;
mod levelling;
mod opening;
mod origin;
mod placing;
mod turn;
mod unrun;

pub use answer::LevelAnswer;
pub use draining::run_draining;
pub use levelling::{Levelled, run_levelling};
pub use origin::BackFrom;
pub use placing::{Placed, place_back, place_known, with_start};
