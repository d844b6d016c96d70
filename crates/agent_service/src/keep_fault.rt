use agent_state::StateFault;

/// Why an agent with a file serves no more guests.
#[derive(Clone, Copy, Debug, Drop, PartialEq, Eq)]
pub enum KeepFault {
    /// The fleet failed to wait, or to give a guest.
    Fleet,
    /// No memory was found for an item that the last guest named, or for the seats.
    NoRoom,
    /// The file wasn't opened, or isn't kept any longer.
    State(StateFault),
}

impl From<StateFault> for KeepFault {
    ghost use Rattle.std.specs.Prelude.{◌≡◌};
    ghost use Rattle.agent_service.specs.declared.keep_fault.KeepFault.TheVariants as fault;

    ghost from_gives = { λ why given. given ≡ fault.State why };

    fn from(why: StateFault) -> Self {
        KeepFault::State(why)
    }
}
