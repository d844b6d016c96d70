use rollout_book::BookFault;
use rollout_rules::Entry;
use std::collections::LinkedList;

/// Why a shared rollout was stopped.
#[derive(Clone, Copy, Debug, Drop, PartialEq, Eq)]
pub enum Cause {
    /// A worker has used up its rounds, and this operation is still in flight.
    Spent { rounds: u32, item: u32, number: u32 },
    /// The port of this switch failed.
    Port(u32),
    /// An answer tells of an item that doesn't exist, or of an operation that wasn't begun: the item, the
    /// number that its switch is said to hold, and how many operations of the item were begun.
    Above { item: u32, held: u32, begun: u32 },
    /// The port of this switch gave an answer of an item whose home it isn't.
    NotMine { switch: u32, item: u32 },
    /// The port of this switch gave a byte with which no answer begins.
    NoAnswer { switch: u32, byte: u8 },
    /// The disk failed.
    Disk,
    /// A worker found no memory.
    Memory,
}

impl From<BookFault> for Cause {
    ghost use Rattle.std.specs.Prelude.{◌≡◌};
    ghost use Rattle.shared_book.specs.Notes.{cause_of_fault};

    ghost from_gives = { λ fault cause. cause ≡ cause_of_fault fault };

    fn from(fault: BookFault) -> Self {
        match fault {
            BookFault::Alien { item, held, begun } => Cause::Above { item, held, begun },
            BookFault::Disk => Cause::Disk,
        }
    }
}

/// What a call to a shared book did, and what it was told.
#[derive(Clone, Copy, Debug, Drop, PartialEq, Eq)]
pub enum What {
    /// A round ended so many operations and began so many.
    Turned { dones: u32, begins: u32 },
    /// A round was refused for an answer that tells of what wasn't begun.
    Alien { item: u32, held: u32, begun: u32 },
    /// The disk failed in a round.
    Disk,
    /// The commands of some switches were listed.
    Listed,
    /// An operation of the switches asked for was in flight.
    Work,
    /// Every operation was settled.
    Finished,
    /// Nothing was in flight, and not every operation was settled.
    Held,
    /// A stop stood in the history.
    Stopped,
    /// A seat asked that all stop.
    Stop(Cause),
}

/// A note on one call: the seat that made it, the call's number among those of the seat, from 0 on, and
/// what it did.
#[derive(Clone, Copy, Debug, Drop, PartialEq, Eq)]
pub struct Note {
    pub seat: u32,
    pub call: u64,
    pub what: What,
}

/// Notes in a row: a vector, in which a place can be taken ahead for a note that may find no memory later.
pub type NoteList = Vec<Note>;

/// A note with the entries that came with it: with `Turned` those that its round added, with `Disk` those
/// of which the append failed, and with any other none. Contracts alone speak of it; no value of it is
/// made.
pub struct Written {
    pub note: Note,
    pub entries: LinkedList<Entry>,
}
