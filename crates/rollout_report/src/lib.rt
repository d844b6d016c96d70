//! How far a rollout has come, as a text for an operator, from its history alone.
//!
//! [`report`] prints how many entries the history has, how many operations are settled and in flight, how
//! many of those to each stage are settled, the peak of each link and table, and whether the rollout is
//! finished; its contract is the definition `report_text`. A law says that over a legal
//! history every peak fits. [`report_journal`] does so for the journal on a disk, which it opens as a
//! rollout does: [`known_plan`] makes of a plan what such an opening begins with.
//!
//! How full links and tables came to be while a rollout went on, and the lines that say it.
//!
//! [`Peaks`] has, for each link and table, the greatest of what it had to hold at the start of a
//! [`History`] and after each of its entries, whichever of the operations in flight had been applied.
//! [`push_end`] prints these, and whether every operation is settled; [`Counts`] has how many operations of
//! each item are. A history is gone over once, and an entry costs what its own item takes.
#![tactic(auto)]

mod checked;
mod counts;
mod course;
mod ends;
mod fills;
mod hashed_text;
mod history;
mod journaled;
mod known;
mod loads;
mod pass;
mod peak_laws;
mod peaks;
mod reporting;
mod stages;
mod starts;
mod totals;
mod watching;
pub mod worked;
pub mod worked_peaks;

pub use counts::Counts;
pub use ends::{push_end, push_last_line};
pub use history::History;
pub use journaled::{Reported, report_journal};
pub use known::{KnownPlan, known_plan};
pub use peak_laws::every_peak_fits;
pub use peaks::Peaks;
pub use reporting::report;
pub use watching::{
    a_batch_is_written_behind_the_gate, its_gate_is_opened_last,
    what_is_read_meanwhile_was_there_once,
};
