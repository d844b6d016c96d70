//! A log of a rollout as it runs: a disk that writes lines to a sink after each sync which made the
//! journal's list longer. The run that has the journal on it knows nothing of the log.
//!
//! A [`Logged`] disk tells what the disk behind it tells. After a sync it reads the list that the bytes
//! stand for, and where there are further entries after those that it knew, it writes a line for each; in front
//! of the first of them one with how many there were before. What a list was logged of is durable then, by the
//! type: so no line comes before its entry, also in a run that never ends. Where the sink or the clock fails,
//! memory runs out, or the list is another one than before, the log ends, and the disk goes on.
//!
//! The words of the contracts are in `specs/`: `Lines` for the text, `Logs` for what it tells of the disk.
#![tactic(auto)]

mod lines;
mod logged;
mod noting;
mod phase;

pub use logged::Logged;
