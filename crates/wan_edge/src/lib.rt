//! The outside of a controller and of an agent, as traits: a [`Source`] is read and a [`Sink`] is
//! written, and each may fail. What is read and written is told by two ghost members, where an object
//! tells it, and a third counts failures: a call answers [`Failed`] only where the count rose.
//!
//! A [`Port`] is the way to one switch and back, and its contracts say which ports keep to the agent
//! rule. A [`Guest`] is a controller that comes to an agent, source and sink in one. A [`Fleet`] gives
//! the ports of a controller and the guests of an agent, and takes them back; and it waits until a guest
//! comes or one of those that an agent has may be read.
//!
//! Beside the traits stand objects in memory, which fail at calls of the caller's choice, plain
//! ones, which never fail, and the two walks that every program needs: reading to the end within a
//! limit and writing to the end. The words of the contracts are in `specs/`: `Streams` for what goes in
//! and out, `Frames` for the bytes of commands and answers, `Switches` for what a switch holds, `Ports`
//! and `Fleets`.
#![tactic(auto)]

mod failing_turns;
mod fleet;
mod guest;
mod memory_sink;
mod memory_source;
mod plain_sink;
mod plain_source;
mod port;
mod reading;
mod stream;
mod waited;
mod writing;

pub use failing_turns::{FailingTurns, Turns};
pub use fleet::Fleet;
pub use guest::Guest;
pub use memory_sink::MemorySink;
pub use memory_source::MemorySource;
pub use plain_sink::PlainSink;
pub use plain_source::{Nums8, PlainSource};
pub use port::Port;
pub use reading::{ReadFault, read_all};
pub use stream::{Failed, Sink, Source};
pub use waited::Waited;
pub use writing::write_all;
