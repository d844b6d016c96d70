//! The command `retarget` as one call, [`retarget`]: a rollout in which nothing is in flight goes on from where it
//! stands to another target, or gives up what crosses a link.
//!
//! The journal is read from its disk and followed in memory, so the disk is as it was until all else is done: the
//! problem from where the rollout stands is made (`retarget_service`), a plan of it is chosen as `plan` does, the
//! document of both is written whole, and only then a journal of it takes the place of the old one, as the next
//! migration, with nothing settled. [`retarget_asked`] says what the words ask for. The contract is one record,
//! `specs::RetargetPromise`, from the bytes read to the bytes written and those on the disk.
#![tactic(auto)]

mod aims;
mod choosing;
mod ending;
mod image;
mod laws;
mod lines;
mod placing;
mod retargeting;
mod telling;
mod words;
pub mod worked;

pub use ending::{RetargetEnding, Wanted};
pub use laws::what_ends_well_goes_elsewhere;
pub use retargeting::{Ended, Retargeted, retarget};
pub use words::{RetargetAsked, retarget_asked};
