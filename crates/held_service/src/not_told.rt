ghost use Rattle.std.specs.Prelude.{◌≡◌};

use std::alloc::AllocError;

/// Why it isn't told what switches hold.
#[derive(Clone, Copy, Debug, PartialEq, Eq)]
pub enum NotTold {
    /// The rounds are spent, and the home of this item hasn't told of it.
    Spent(u32),
    /// The fleet has no port for this switch.
    NoPort(u32),
    /// The port of this switch failed.
    Port(u32),
    /// The port of this switch gave an answer about an item that the switch isn't asked about.
    NotAsked { switch: u32, item: u32 },
    /// The port of this switch gave a byte with which no answer begins.
    NoAnswer { switch: u32, byte: u8 },
    /// No memory was found.
    Memory,
}

impl From<AllocError> for NotTold {
    ghost use Rattle.held_service.specs.declared.not_told.NotTold.TheVariants as cause;

    ghost from_gives = { λ _ given. given ≡ cause.Memory };

    fn from(_: AllocError) -> Self {
        NotTold::Memory
    }
}
