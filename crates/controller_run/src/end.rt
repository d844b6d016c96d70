use shared_book::Halt;

/// How a run ended.
#[derive(Clone, Copy, Debug, Drop, PartialEq, Eq)]
pub enum RunEnd {
    /// Every operation is settled.
    Finished,
    /// Nothing is in flight, and not every operation is settled: the policy holds back all that may begin.
    Held,
    /// All workers were stopped; this was the first stop.
    Stopped(Halt),
    /// The fleet has no port for this switch, which is the home of an operation. Nothing was begun.
    NoPort(u32),
    /// Memory ran out before anything was begun.
    Memory,
}
