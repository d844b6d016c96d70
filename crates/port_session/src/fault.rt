ghost use Rattle.std.specs.Prelude.{◌≡◌};

use std::alloc::AllocError;
use wan_edge::Failed;
use wire_frames::FrameFault;

/// Why a session couldn't go on.
#[derive(Clone, Copy, Debug, PartialEq, Eq)]
pub enum SessionFault {
    /// The port failed.
    Port,
    /// This byte stands in an answer's first place, and none begins with it.
    NoAnswer(u8),
    /// No memory was found, for the bytes of the commands or for an answer that was to be told.
    Memory,
}

impl From<Failed> for SessionFault {
    ghost use Rattle.port_session.specs.declared.fault.SessionFault.TheVariants as fault;

    ghost from_gives = { λ _ given. given ≡ fault.Port };

    fn from(_: Failed) -> Self {
        SessionFault::Port
    }
}

impl From<FrameFault> for SessionFault {
    ghost use Rattle.port_session.specs.Bytes.{byte_of};
    ghost use Rattle.port_session.specs.declared.fault.SessionFault.TheVariants as fault;

    ghost from_gives = { λ frame given. given ≡ fault.NoAnswer (byte_of frame) };

    fn from(frame: FrameFault) -> Self {
        match frame {
            FrameFault::Kind(byte) | FrameFault::Count(byte) => SessionFault::NoAnswer(byte),
        }
    }
}

impl From<AllocError> for SessionFault {
    ghost use Rattle.port_session.specs.declared.fault.SessionFault.TheVariants as fault;

    ghost from_gives = { λ _ given. given ≡ fault.Memory };

    fn from(_: AllocError) -> Self {
        SessionFault::Memory
    }
}
