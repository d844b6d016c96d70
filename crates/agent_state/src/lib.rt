//! The file of an agent, on a disk: the floor that it has heard, and what it holds, as the commands that it carried
//! out.
//!
//! An agent that answers a command promises to hold it from then on, and to hear no controller of a lower term. So
//! it adds what a read of commands changed to its file first, as one batch ([`append`]), and a start reads the file back into an agent
//! ([`open_state`]). A crash at any moment leaves a file that is read as what was held before a batch or after
//! all of it, and a file that has grown to twice what was held when it was written anew is written anew:
//! beside what stands, which counts until the new part is whole.
//!
//! The words of the contracts are in `specs/`: `Images` for what bytes are read as, `Stored` for what a
//! row of batches leaves held, `States` and `Renewals` for how a file stands between two writes.
#![tactic(auto)]

mod appending;
mod body;
mod fault;
mod keeping;
mod last;
mod opening;
mod place;
mod renewing;
mod walking;

pub use fault::StateFault;
pub use keeping::append;
pub use opening::open_state;
pub use place::Place;
