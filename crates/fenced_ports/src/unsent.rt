ghost use Rattle.std.specs.Prelude.{◌≡◌};

use lists::Memory;
use wan_edge::Failed;
use wire_frames::FrameFault;

/// Why commands weren't sent.
#[derive(Clone, Copy, Debug, PartialEq, Eq)]
pub(crate) enum Unsent {
    /// What was offered begins no command.
    NoCommand,
    /// The port failed.
    Port,
    /// No memory was found for the bytes.
    Memory,
}

impl Unsent {
    /// What a port tells of it.
    pub(crate) fn as_failed(self) -> Failed {
        Failed
    }
}

impl From<FrameFault> for Unsent {
    ghost use Rattle.fenced_ports.specs.declared.unsent.Unsent.TheVariants as why;

    ghost from_gives = { λ _ given. given ≡ why.NoCommand };

    fn from(_: FrameFault) -> Self {
        Unsent::NoCommand
    }
}

impl From<Failed> for Unsent {
    ghost use Rattle.fenced_ports.specs.declared.unsent.Unsent.TheVariants as why;

    ghost from_gives = { λ _ given. given ≡ why.Port };

    fn from(_: Failed) -> Self {
        Unsent::Port
    }
}

impl From<Memory> for Unsent {
    ghost use Rattle.fenced_ports.specs.declared.unsent.Unsent.TheVariants as why;

    ghost from_gives = { λ _ given. given ≡ why.Memory };

    fn from(_: Memory) -> Self {
        Unsent::Memory
    }
}
