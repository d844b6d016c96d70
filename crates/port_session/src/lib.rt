//! One port's side of a round: a [`Session`] offers all the commands of a round in one call, and then
//! hears, in this round and in later ones, until as many answers were read as commands were offered, or the
//! port's time limit has passed. It waits for nothing: where the port isn't ready, its switch is late.
//!
//! Contracts see a session as its switch, its port, and where it stands in the port's answers. What is
//! promised is said of the bytes: those newly offered are the frames of the commands in order, or a
//! prefix of these; the answers told are exactly those of the migration among the whole answers that
//! end in the bytes newly heard, after what was kept of the round before. A port keeps to its rule
//! through both calls.
#![tactic(auto)]

mod fault;
mod frames;
mod port_answers;
mod session;
mod stream;
pub mod worked;

pub use fault::SessionFault;
pub use port_answers::PortAnswers;
pub use session::Session;
