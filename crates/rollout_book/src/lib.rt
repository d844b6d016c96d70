//! The book of a rollout: release and journal tied together.
//!
//! A [`JournaledRounds`] has a rollout's rounds, and the journal on which each of them is written. It is opened
//! over a disk: the journal is recovered, and the rollout is brought to its list. A round is one batch, the
//! Dones of what the answers cover and then the release, made durable by one append; a crash at any moment
//! leaves the list before or with the whole batch. What it lists as commands was begun on the disk. A
//! [`Book`] keeps a policy beside it.
//!
//! `specs/` has the words: `JournaledRounds` what a book is seen as and what a round makes of it, `Aliens` which
//! answers are refused, `Lists` which list an image keeps, and `Commands` what may be sent. [`laws`] say that what
//! a book leaves is opened again.
#![tactic(auto)]

mod aliens;
mod book;
mod commands;
mod contents;
mod fault;
mod hearing;
mod journaled_rounds;
pub mod laws;
mod opening;
mod turn;
mod turning;

pub use book::Book;
pub use commands::CommandList;
pub use fault::BookFault;
pub use hearing::hear_each;
pub use journaled_rounds::JournaledRounds;
pub use turn::Turn;
