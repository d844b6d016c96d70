ghost use Rattle.std.specs.Prelude.{◌≡◌, ◌<◌, ◌^◌};
ghost use Rattle.intent_journal.specs.Phases.{end_of};

/// What reading has found of a journal. Places are bytes from the image's first one.
#[derive(Clone, Copy, Debug, PartialEq, Eq)]
pub(crate) struct Found {
    /// The side of the live slot, and that of the other.
    pub this: u64,
    pub other: u64,
    /// Where the live part starts, and the field of its size.
    pub start: u64,
    pub field: u64,
    /// The gate after the list.
    pub gate: u64,
    /// How many bytes the image has.
    pub length: u64,
    /// Whether the other slot's gate is open.
    pub also: bool,
    /// Whether the gate after the list is open, and its batch cut.
    pub cut: bool,
}

// What the field of a size has more where the part is of the second format.
const SECOND: u64 = 1 << 62;

// Where a live part starts no later, a new one can stand after it.
pub(crate) const LATEST_START: u64 = 1 << 61;

impl Found {
    /// Where the live part ends.
    pub fn end(&self) -> u64
        requires { end_of self.now < 2 ^ 62 }
        ensures { result ≡ end_of self.now }
    {
        let size = if self.field < SECOND {
            self.field
        } else {
            self.field - SECOND
        };
        self.start + size
    }
}
