use disk_model::ReadFault;
use lists::Memory as OutOfMemory;
use wan_edge::Failed;

/// Why an agent's file wasn't opened, or isn't kept any longer.
#[derive(Clone, Copy, Debug, Drop, PartialEq, Eq)]
pub enum StateFault {
    /// The disk failed.
    Disk,
    /// The image is longer than a head and none of an agent's. This is its first byte.
    NotState(u8),
    /// The first batch, from 0, that is whole and is no row of commands.
    Damaged(u32),
    /// Memory ran out. This says nothing of the image.
    Memory,
}

impl From<Failed> for StateFault {
    ghost use Rattle.std.specs.Prelude.{◌≡◌};
    ghost use Rattle.agent_state.specs.declared.fault.StateFault.TheVariants as fault;

    ghost from_gives = { λ _ given. given ≡ fault.Disk };

    fn from(_: Failed) -> Self {
        StateFault::Disk
    }
}

impl From<OutOfMemory> for StateFault {
    ghost use Rattle.std.specs.Prelude.{◌≡◌};
    ghost use Rattle.agent_state.specs.declared.fault.StateFault.TheVariants as fault;

    ghost from_gives = { λ _ given. given ≡ fault.Memory };

    fn from(_: OutOfMemory) -> Self {
        StateFault::Memory
    }
}

impl From<ReadFault> for StateFault {
    ghost use Rattle.std.specs.Prelude.{◌≡◌};
    ghost use Rattle.agent_state.specs.Disks.{fault_of_read};

    ghost from_gives = { λ read given. given ≡ fault_of_read read };

    fn from(read: ReadFault) -> Self {
        match read {
            ReadFault::Disk => StateFault::Disk,
            ReadFault::Memory => StateFault::Memory,
        }
    }
}
