ghost use Rattle.std.specs.Prelude.{◌≡◌};
ghost use Rattle.fenced_ports.specs.Parts.{is_silent};

/// What a byte is that is heard of a switch whose answers have a floor in front.
#[derive(Clone, Copy, Debug, PartialEq, Eq)]
pub(crate) enum Part {
    /// A byte that isn't handed on: of what stands in front of an answer, or of an answer with a lower floor.
    Silent,
    /// A byte that is handed on: of an answer after the term as its floor, or one that begins no answer.
    Plain(u8),
    /// The last byte of an answer with a lower floor.
    Low,
    /// A byte that begins no frame, or the last one of a floor above the term.
    Alien,
}

impl Part {
    pub(crate) fn is_silent(self) -> bool
        ensures { result ≡ is_silent self }
    {
        match self {
            Part::Silent => true,
            Part::Plain(_) | Part::Low | Part::Alien => false,
        }
    }
}
