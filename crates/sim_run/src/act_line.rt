use rollout_rules::{Given, Op};

/// The line of an act, without its number.
#[derive(Clone, Copy, Debug, PartialEq, Eq)]
pub(crate) enum ActLine {
    /// A round's batch: so many entries Done, so many Begin.
    Round { dones: u32, begins: u32 },
    /// The operation whose command was sent, by its number among those in flight.
    Sent { place: u32, op: Op },
    /// The answer to a command, by the command's number.
    Delivered { place: u32, answer: Given },
    /// The answer that was handed over, by its number.
    Handed { place: u32, answer: Given },
    /// Every operation in flight was sent and answered: so many.
    All { count: usize },
    CrashLost,
    CrashKept,
    Stop,
    /// The controller started over so many entries.
    Start { entries: usize },
    /// The act can't happen.
    Skipped,
}
