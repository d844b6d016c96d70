use lists::Memory as OutOfMemory;
use wan_edge::Failed;

/// Why a disk wasn't read to its end.
#[derive(Clone, Copy, Debug, Drop, PartialEq, Eq)]
pub enum ReadFault {
    /// The disk failed.
    Disk,
    /// Memory ran out. This says nothing of the bytes.
    Memory,
}

impl From<Failed> for ReadFault {
    ghost use Rattle.std.specs.Prelude.{◌≡◌};
    ghost use Rattle.disk_model.specs.declared.read_fault.ReadFault.TheVariants as fault;

    ghost from_gives = { λ _ given. given ≡ fault.Disk };

    fn from(_: Failed) -> Self {
        ReadFault::Disk
    }
}

impl From<OutOfMemory> for ReadFault {
    ghost use Rattle.std.specs.Prelude.{◌≡◌};
    ghost use Rattle.disk_model.specs.declared.read_fault.ReadFault.TheVariants as fault;

    ghost from_gives = { λ _ given. given ≡ fault.Memory };

    fn from(_: OutOfMemory) -> Self {
        ReadFault::Memory
    }
}
