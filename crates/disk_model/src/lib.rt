//! The disk as a controller sees it, as a trait: a [`Disk`] is read, written and synced, and each call
//! may fail. Besides what a read gives, its contracts say what a crash may leave: between two syncs any
//! bytes in the ranges that were written and past the old end, and after a sync what a read gives.
//!
//! A moment is a number that never falls, and what a crash since a moment may have left is told too. So
//! a run of several calls can say that a crash at any moment of it leaves an image with some property.
//! A [`put`], one write and one sync, is the step that such runs are made of. [`read_whole`] reads all
//! that there is, and [`read_synced`] syncs it first; [`bytes`] has the numbers at a place of what was read.
//!
//! A [`MemoryDisk`] tells everything: its calls fail where the caller wants it, and it gives the image
//! that a crash leaves, with the last unsynced writes or without. The words of the contracts are in
//! `specs/`: `Writes` for writes and torn ones, `Crashes` for images, `Moments` for time, `Places` for
//! images that agree at some places, `Whole` for a disk that is read to its end, `Numbers` for bytes at a
//! place, `Memory` for the disk in memory.
#![tactic(auto)]

pub mod bytes;
mod disk;
mod failing_calls;
mod medium;
mod memory_disk;
mod overwriting;
mod read_fault;
mod step;
mod timeline;
mod whole;
pub mod worked;

pub use disk::Disk;
pub use memory_disk::MemoryDisk;
pub use overwriting::overwrite;
pub use read_fault::ReadFault;
pub use step::put;
pub use whole::{read_synced, read_whole};
