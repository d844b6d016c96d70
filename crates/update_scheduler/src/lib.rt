//! Which operations a round begins.
//!
//! [`release`] begins, of a graph's items that wait and that the policy doesn't hold back, in order of rank
//! and then of item, each one's next operation where it may begin after those begun before it. Its clause
//! is the rule itself: the graph's history is then the old one followed by exactly what the definition
//! gives, and the [`Bench`] has those operations in order. It takes no memory: the bench has the room.
//! A release begins nothing exactly where the policy holds back each operation that may begin, and in a
//! legal history that isn't finished and has nothing in flight some may.
//!
//! It looks at the graph's woken items alone, of which those that are held back stay woken and those that may
//! not begin don't: a release after which nothing was done tries again only what is held back.
//!
//! A controller's side of a rollout: it hears answers, and makes rounds.
//!
//! [`Rounds`] owns the graph of a rollout. A round is one batch: a Done for each operation in flight that an
//! answer heard since the last round covers, by item, and then the release of the history so far. Contracts
//! see the rollout with its history, what was heard since the last round, and the last batch; each call's
//! clause is an equation with what the definitions say. Hearing and rounds take no memory: the room is taken
//! once. A round costs what was heard and what the release costs; what is in flight is kept by item, and each entry
//! finds its place there by binary search.
#![tactic(auto)]

mod ack_set;
mod bench;
mod candidate;
mod endings;
mod in_flight;
mod offers;
mod order;
mod past_answers;
mod pending_acks;
mod progress;
mod releases;
mod rounds;
mod tries;
mod turns;
pub mod worked;

pub use bench::Bench;
pub use progress::a_release_is_stuck_by_its_policy_alone;
pub use releases::release;
pub use rounds::Rounds;
