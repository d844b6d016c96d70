//! One book for several workers: what they do to it is one legal history, in which each finds all that it
//! did and all that it knew.
//!
//! [`NotedBook`] is what lies under the lock: journaled rounds with the notes of the calls made to them. Each call is
//! one method of it, whose contract says the whole: which note the history has after it, and that what is
//! told is what that history says.
//!
//! The history that several workers make of one book, as definitions that contracts cite, and the plain
//! enums and structs that these definitions match on.
//!
//! Each call to a shared book leaves a note. A shared history is the notes in the order in which they
//! were made, with the entries that came with them. `specs/` says which ones are legal, what each call is
//! told at a history, and what a seat knows that has seen one; it names neither a lock nor a disk. Nothing
//! here runs: `worked` has examples, one where a clause holds and one where it fails, and `laws` the
//! theorems, each a function with an empty body.
#![tactic(auto)]

mod call_reply;
mod calls;
mod homes;
mod laws;
mod listed;
mod listing;
mod locked_book;
mod marker;
mod note;
mod noted_book;
mod noting;
mod opening;
mod reply;
mod rounds;
mod seats;
mod stopping;
mod waiting;
mod waking;
pub mod worked;

pub use call_reply::{Halt, ListReply, Wake};
pub use laws::{
    a_first_stop_stays, a_history_goes_on_by_one_note, a_round_makes_a_batch,
    every_prefix_is_legal, nothing_is_added_behind_a_stop, seats_number_their_calls,
    the_list_is_legal, the_pair_tells_all, what_is_told_may_be_noted,
};
pub use listed::Listed;
pub use locked_book::{BookPass, CallPass, LockedBook, SharedBook};
pub use marker::Marker;
pub use note::{Cause, Note, NoteList, What, Written};
pub use noted_book::NotedBook;
pub use reply::RoundReply;
