//! The commands of a controller that has a term: [`take_over`] goes on with a rollout without the journal of the
//! controller before, and [`run_at_term`] goes on with such a takeover from its own journal. Both take a fleet that
//! is of one term by its type ([`OneTerm`] of `fenced_ports`), so that no command goes out over it without its term.
//!
//! [`takeover_asked`] and [`run_asked`] say of which term words ask for them. [`start_plain`] is all else that the
//! program does, over any fleet; words of a `run` that name a term above 0 aren't taken there. The contract of a takeover is one
//! record, `specs::TakeoverPromise`, from the bytes read to the bytes written.
#![tactic(auto)]

mod ending;
mod lines;
mod plain;
mod resuming;
mod start_total;
mod taking;
mod taking_words;
mod telling;
mod term_words;
mod top;
pub mod worked;

pub use ending::TakeoverEnding;
pub use plain::start_plain;
pub use resuming::run_at_term;
pub use taking_words::takeover_asked;
pub use term_words::run_asked;
pub use top::take_over;
