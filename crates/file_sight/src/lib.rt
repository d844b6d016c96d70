//! A file that another process may write meanwhile, read as it stands: without its lock, and without writing.
//!
//! A [`Sight`] is a source that can be read once more from its first byte. [`look`] reads all of it in order,
//! from the first byte to the end, and then once more, to see that the first bytes, which say where in a file
//! its parts stand, are still the same. A sight has no call that writes, syncs or locks.
//!
//! What the bytes that were read so stand for is a matter of what is in the file. The words of the contracts are
//! in `specs/Sights`.
#![tactic(auto)]

mod looking;
mod sight;
mod unseen;

pub use looking::look;
pub use sight::Sight;
pub use unseen::Unseen;
