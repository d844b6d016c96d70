use crate::note::Cause;
use rollout_rules::Op;

/// The first stop of a shared history: the seat and the number of its call, and the cause.
#[derive(Clone, Copy, Debug, Drop, PartialEq, Eq)]
pub struct Halt {
    pub seat: u32,
    pub call: u64,
    pub cause: Cause,
}

/// What a call that lists commands is told.
#[derive(Clone, Copy, Debug, Drop, PartialEq, Eq)]
pub enum ListReply {
    Listed,
    Stopped(Halt),
    /// Memory ran out, and nothing changed.
    Memory,
}

/// What a call that waits for work is told.
#[derive(Clone, Copy, Debug, Drop, PartialEq, Eq)]
pub enum Wake {
    /// The first operation in flight of the switches asked for, by item.
    Work(Op),
    /// Every operation is settled.
    Finished,
    /// Nothing is in flight, and not every operation is settled: the policy holds back all that may begin.
    Held,
    Stopped(Halt),
    /// Memory ran out, and nothing changed.
    Memory,
}
