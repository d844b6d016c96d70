use wan_edge::ReadFault;

/// Why a file wasn't seen as it stands.
#[derive(Clone, Copy, Debug, PartialEq, Eq)]
pub enum Unseen {
    /// It couldn't be read, or has more bytes than the limit.
    Failed,
    /// Its first bytes were written while it was read.
    InUse,
    /// No memory was found.
    Memory,
}

impl From<ReadFault> for Unseen {
    ghost use Rattle.std.specs.Prelude.{◌≡◌};
    ghost use Rattle.file_sight.specs.Sights.{unseen_of};

    ghost from_gives = { λ fault unseen. unseen ≡ unseen_of fault };

    fn from(fault: ReadFault) -> Unseen {
        match fault {
            ReadFault::Failed | ReadFault::TooLong => Unseen::Failed,
            ReadFault::Memory => Unseen::Memory,
        }
    }
}
