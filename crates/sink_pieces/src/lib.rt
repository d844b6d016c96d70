//! Pieces of a text on their way to a sink: [`PieceSink`] keeps them in a buffer of 64 KiB and writes that out
//! whenever a piece doesn't fit in it any more, so that a long text is never in memory as a whole.
//!
//! What was written and what is kept are together what was pushed. After a write that failed nothing is written any
//! more, and what was written is a front of what was pushed.
#![tactic(auto)]

mod kept;
mod passing;
mod piece_sink;

pub use kept::Kept;
pub use piece_sink::PieceSink;
