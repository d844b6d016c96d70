ghost use Rattle.std.specs.Prelude.{◌≡◌};
ghost use Rattle.rollout_log.specs.Logs.{first_phase};

/// How far a log has come.
#[derive(Clone, Copy, Debug, PartialEq, Eq)]
pub enum Phase {
    /// No list was read.
    Unread,
    /// A list was read, and nothing was written.
    Read,
    /// All that came after that list is written.
    Written,
    /// Nothing more is written.
    Ended,
}

impl Phase {
    /// That of a log to which nothing was written: where none is asked for, it has ended.
    pub(crate) fn first(asked: bool) -> Self
        ensures { result ≡ first_phase asked }
    {
        if asked { Phase::Unread } else { Phase::Ended }
    }
}
