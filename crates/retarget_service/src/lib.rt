//! The problem that a rollout leaves, as a text, by the bytes of its journal.
//!
//! [`left_by`] reads the journal over a disk in memory, as it is opened for a rollout, and writes on no other; what
//! its history leaves is that of `retarget_plan`. An operator who has it may choose another new split and go on
//! with the next migration. [`aimed_by`] is the problem of another aim in its place, by the same bytes.
//! [`unleft_line`] is the line of a rollout of which none is left, and [`journal_room`] how much room its journal takes
//! at most.
#![tactic(auto)]

mod by_aim;
mod by_journal;
mod room;
mod unleft_lines;
mod unwritten;

pub use by_aim::aimed_by;
pub use by_journal::left_by;
pub use room::journal_room;
pub use unleft_lines::unleft_line;
pub use unwritten::Unwritten;
