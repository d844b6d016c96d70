use crate::op::EntryList;
use lists::Many;

/// One step of the world: of the controller, of the network or of a switch.
#[derive(Debug, Drop)]
pub enum Event {
    /// The controller begins to write a batch of entries.
    Write(EntryList),
    /// The batch being written is durable.
    EndWrite,
    /// The command of the n-th operation in flight, by item, is sent.
    Send(u32),
    /// The n-th command sent reaches its switch, whose answer is given.
    Deliver(u32),
    /// The n-th answer given reaches the controller.
    Hand(u32),
    /// A late command of an earlier migration reaches the item's switch, whose answer is given.
    Old {
        item: u32,
        migration: u32,
        number: u32,
    },
    /// The controller stops, and of the batch being written the first n entries are durable.
    Crash(u32),
    /// The controller starts again.
    Restart,
}

/// An act of a script.
#[derive(Clone, Copy, Debug, PartialEq, Eq)]
pub enum Act {
    Round,
    Send(u32),
    Deliver(u32),
    Hand(u32),
    All,
    CrashLost,
    CrashKept,
    Stop,
    Start,
}

/// A schedule: events in a row.
pub type EventList = Many<Event>;

/// A script's acts in a row.
pub type Script = Many<Act>;
