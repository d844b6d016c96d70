//! A disk that tells its bytes once it is opened, over one that tells nothing.
//!
//! No call of a disk lets it begin to tell. So an [`Openable`] is opened before its first use: after an
//! Ok it tells its bytes, and what it told before it tells still. A [`Mirror`] reads the disk behind it
//! then, once and whole, and from then on answers from memory and writes and syncs both, within as many
//! bytes as the opening says, so that nothing on the disk makes it take more memory. It tells what a
//! disk in memory tells, by the same definitions, and its type keeps that the disk behind holds what is
//! in memory, and leaves after a crash what is told. What it was, and what was synced, takes no memory.
//!
//! A [`Shown`] disk hands out its bytes without a call: a mirror has them in memory.
//!
//! The words of the contracts are in `specs/`: `Openings` for an opening, `Images` for a reading of all
//! bytes, `Mirrors` for what is told and the tie to the disk behind.
#![tactic(auto)]

mod both;
mod course;
mod failures;
mod image;
mod mirror;
mod openable;
mod past;
mod pending;
mod shown;
mod standing;

pub use mirror::Mirror;
pub use openable::Openable;
pub use shown::Shown;
