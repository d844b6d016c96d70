//! The journal of a rollout: which operations were begun and done, on a disk that outlives a crash.
//!
//! An image is a gate, two slots and the parts that they name, so that a journal can be written anew
//! while it stays readable. A [`Journal`] that is open takes a batch at a time: a crash at any moment of
//! an append leaves the list as it was or with the whole batch, and after `Ok` the batch is there. An
//! append takes no memory.
//!
//! [`recover`] opens the journal of a disk. The image is read once, and judged in this order: it is blank,
//! no journal, one of another plan or migration, its start is none of the plan, or its list isn't legal at
//! a place. What is refused is refused before the first write. A blank image is made a journal, and else
//! the list is written anew into a new part; a graph is brought to the start and the list. [`place`] puts
//! a journal with another start in the place of any other. [`entries_behind`] reads the batches that came after
//! a gate, for whoever has read all before it.
//!
//! [`list_of`] reads the list that an image stands for, and no more.
//!
//! `specs/` has the grammar: `Parts` what a part keeps, `Images` which part is live, what an image stands
//! for and which images are blank, `Entries` the bytes of an entry, `Digests` how a journal knows its
//! problem and plan; `States` and `Opened` how a journal stands between two appends; `Verdicts` what an
//! image is to a rollout; and `Recovered` and `Placements` what these calls come to, and what a crash
//! inside them leaves. [`laws`] say what list an image stands for.
#![tactic(auto)]

mod appending;
mod blank;
mod body;
mod closing;
mod digest;
mod fault;
mod following;
mod found;
mod journal;
mod judging;
pub mod laws;
mod layout;
mod listed;
mod listing;
mod live;
mod making;
mod new_part;
mod part;
mod placing;
mod preparing;
mod recovering;
mod renewing;
mod slot;
mod starting;
mod walking;
pub mod worked;

pub use digest::{Digest, digest_of};
pub use fault::{JournalFault, Unopened};
pub use journal::Journal;
pub use listing::list_of;
pub use placing::place;
pub use recovering::recover;
pub use walking::entries_behind;
