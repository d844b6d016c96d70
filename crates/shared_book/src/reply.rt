use crate::Halt;
use rollout_book::{BookFault, Turn};

/// What a round of a shared book is told.
#[derive(Clone, Copy, Debug, Drop, PartialEq, Eq)]
pub enum RoundReply {
    Turned(Turn),
    Refused(BookFault),
    Stopped(Halt),
    /// Memory ran out, and nothing changed.
    Memory,
}
