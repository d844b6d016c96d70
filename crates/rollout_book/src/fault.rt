use wan_edge::Failed;

/// Why a round wasn't made.
#[derive(Clone, Copy, Debug, Drop, PartialEq, Eq)]
pub enum BookFault {
    /// An answer tells of an item that doesn't exist, or of an operation that wasn't begun: the item, the
    /// number that its switch is said to hold, and how many operations of the item were begun.
    Alien { item: u32, held: u32, begun: u32 },
    /// The disk failed. The batch is there wholly or not at all.
    Disk,
}

impl From<Failed> for BookFault {
    ghost use Rattle.std.specs.Prelude.{◌≡◌};
    ghost use Rattle.rollout_book.specs.declared.fault.BookFault.TheVariants as fault;

    ghost from_gives = { λ _ given. given ≡ fault.Disk };

    fn from(_: Failed) -> Self {
        BookFault::Disk
    }
}
