//! The outside as the operating system gives it, behind the traits of `wan_edge` and `disk_model`: the
//! standard streams, a file, and a fleet of switches and controllers behind sockets.
//!
//! A port tells what was offered, what was heard and how often nothing was; a source tells what was taken, a
//! sink what was written, and a guest both. These are histories that contracts alone read: the program keeps
//! no byte of them. Over any stream that tells its bytes, what is noted as written or sent is what was
//! appended there, and what is noted as taken or come is what was read off it. What a port was offered is all
//! that was handed over: the first of it was sent over the connection that there was, all, none or a part,
//! and the rest is lost. What it heard is what it gave on of the bytes that came over its connection.
//!
//! A file is open behind a trait (`PlacedFile`): over one that tells its bytes a disk reads and writes at the
//! place asked for, and has it locked. A [`WatchedFile`] is read as it stands, whoever has its lock.
//!
//! This is the trusted edge all the same: the system's own streams, sockets and files tell nothing, so that
//! the system moved the bytes that it says it moved is trusted. What a source is still to give, what a file
//! holds, and what a switch holds isn't told. A call answers a failure only where the adapter's own count of
//! failures rose, or stands at the last value of u64. A call that a signal interrupts is made again, and so is
//! one of a standard stream that isn't ready, which is no failure.
#![tactic(auto)]

mod connection;
mod dialer;
mod entrance;
mod farewell;
mod faults;
mod file_disk;
mod file_log;
mod fleet_file;
mod front;
mod inbox;
mod ledger;
mod locked_file;
mod outbox;
mod pen;
mod placed_file;
mod std_sink;
mod std_source;
mod switchboard;
mod tap;
mod tcp_fleet;
mod tcp_guest;
mod tcp_port;
mod time_limit;
mod unbroken;
mod watched_file;

pub use file_disk::FileDisk;
pub use file_log::FileLog;
pub use std_sink::StdSink;
pub use std_source::StdSource;
pub use tcp_fleet::TcpFleet;
pub use tcp_guest::TcpGuest;
pub use tcp_port::TcpPort;
pub use watched_file::WatchedFile;
