ghost use Rattle.std.specs.Prelude.{◌≡◌};

use wire_frames::FrameFault;

/// What a switch told that can't be.
#[derive(Clone, Copy, Debug, PartialEq, Eq)]
pub(crate) enum Alien {
    /// A byte with which no answer begins.
    Byte(u8),
    /// An answer about this item, about which the switch isn't asked.
    Item(u32),
}

impl From<FrameFault> for Alien {
    ghost use Rattle.port_session.specs.Bytes.{byte_of};
    ghost use Rattle.held_service.specs.declared.alien.Alien.TheVariants as alien;

    ghost from_gives = { λ frame given. given ≡ alien.Byte (byte_of frame) };

    fn from(frame: FrameFault) -> Self {
        match frame {
            FrameFault::Kind(byte) | FrameFault::Count(byte) => Alien::Byte(byte),
        }
    }
}
