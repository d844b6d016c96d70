use shared_book::{Cause, Wake};

/// What became of a round of a worker.
#[derive(Clone, Copy, Debug, Drop, PartialEq, Eq)]
pub enum RoundEnd {
    /// All of it was done, and whether a command was offered.
    Whole { offered: bool },
    /// There is nothing more to do, for this reason.
    Ended(Wake),
    /// This is to stop all workers.
    Stops(Cause),
}
