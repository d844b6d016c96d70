ghost use Rattle.std.specs.Prelude.{◌≡◌, ◌+◌, ◌<◌, ◌^◌};
ghost use Rattle.agent_service.specs.Services.{with_commands, with_guest, with_refused};

use switch_agent::Served;

/// What came of an agent's guests: how many were served and given back, how many commands were carried
/// out, those that changed nothing among them, and how many guests were refused, which are those that
/// were not served to their end.
#[derive(Clone, Copy, Debug, PartialEq, Eq)]
pub struct Service {
    pub guests: u32,
    pub commands: u64,
    pub refused: u32,
}

impl Service {
    // With one more guest, by whose last read this was carried out.
    pub(crate) fn with_guest(self, served: Served) -> Self
        requires guests { self.guests + 1 < 2 ^ 32 }
        requires commands { self.commands + served.commands < 2 ^ 64 }
        requires refused { self.refused + 1 < 2 ^ 32 }
        ensures { result ≡ with_guest self served }
    {
        let refused = match served.fault {
            None => 0,
            Some(_) => 1,
        };
        Service {
            guests: self.guests + 1,
            commands: self.commands + served.commands,
            refused: self.refused + refused,
        }
    }

    // With commands of a guest that is read further.
    pub(crate) fn with_commands(self, commands: u64) -> Self
        requires { self.commands + commands < 2 ^ 64 }
        ensures { result ≡ with_commands self commands }
    {
        Service {
            guests: self.guests,
            commands: self.commands + commands,
            refused: self.refused,
        }
    }

    // With one more guest, that was sent away.
    pub(crate) fn with_refused(self) -> Self
        requires guests { self.guests + 1 < 2 ^ 32 }
        requires refused { self.refused + 1 < 2 ^ 32 }
        ensures { result ≡ with_refused self }
    {
        Service {
            guests: self.guests + 1,
            commands: self.commands,
            refused: self.refused + 1,
        }
    }
}

/// Why no more guests were served.
#[derive(Clone, Copy, Debug, PartialEq, Eq)]
pub enum ServiceFault {
    /// The fleet failed to wait, or to give a guest.
    Fleet,
    /// No memory was found for an item that the last guest named, or for the seats.
    Memory,
}
