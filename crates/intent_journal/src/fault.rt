use crate::digest::Digest;
use disk_model::ReadFault;
use lists::Memory as OutOfMemory;
use wan_edge::Failed;

/// Why no journal was opened.
#[derive(Clone, Copy, Debug, Drop, PartialEq, Eq)]
pub enum JournalFault {
    /// The disk failed.
    Disk,
    /// The image is neither blank nor a journal. This is its first byte.
    NotJournal(u8),
    /// The journal is of another problem, plan or migration: what it was made for, and what was wanted.
    OtherPlan(Digest, Digest),
    /// The first place, from 0, at which the bytes of an entry are none, or the list isn't legal.
    Illegal(u32),
    /// The start has not a number for each item, or isn't sound.
    BadStart,
    /// Memory ran out. This says nothing of the image.
    Memory,
}

impl From<Failed> for JournalFault {
    ghost use Rattle.std.specs.Prelude.{◌≡◌};
    ghost use Rattle.intent_journal.specs.declared.fault.JournalFault.TheVariants as fault;

    ghost from_gives = { λ _ given. given ≡ fault.Disk };

    fn from(_: Failed) -> Self {
        JournalFault::Disk
    }
}

impl From<OutOfMemory> for JournalFault {
    ghost use Rattle.std.specs.Prelude.{◌≡◌};
    ghost use Rattle.intent_journal.specs.declared.fault.JournalFault.TheVariants as fault;

    ghost from_gives = { λ _ given. given ≡ fault.Memory };

    fn from(_: OutOfMemory) -> Self {
        JournalFault::Memory
    }
}

impl From<ReadFault> for JournalFault {
    ghost use Rattle.std.specs.Prelude.{◌≡◌};
    ghost use Rattle.intent_journal.specs.Whole.{fault_of_read};

    ghost from_gives = { λ read given. given ≡ fault_of_read read };

    fn from(read: ReadFault) -> Self {
        match read {
            ReadFault::Disk => JournalFault::Disk,
            ReadFault::Memory => JournalFault::Memory,
        }
    }
}

/// A disk on which no journal was opened, and why.
#[derive(Debug, Drop)]
pub struct Unopened<D> {
    pub disk: D,
    pub cause: JournalFault,
}
