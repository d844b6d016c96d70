//! Problems, plans and scripts as JSON (RFC 8259), read and written.
//!
//! The grammar stands in `specs/`, as functions on the data that a text is: [`read_problem`],
//! [`read_document`], [`read_claimed`] and [`read_script`] answer a value exactly where the grammar does, and
//! else the fault of the first place that it refuses. [`write_problem`], [`write_plan`], [`write_document`] and
//! [`write_claimed`] give the one canonical text, which the grammar reads again, and [`push_document`],
//! [`push_claimed`] and [`push_scripted`] push it piece by piece, by the names of the problem (`wan_text`).
#![tactic(auto)]

mod claim;
mod fault;
mod key;
mod place;
mod read;
mod spelling;
mod writing;

pub use claim::{Claim, Claimed};
pub use fault::InputFault;
pub use key::Key;
pub use place::{Part, Place};
pub use read::{Document, Scripted, read_claimed, read_document, read_problem, read_script};
pub use writing::{
    a_plan_that_is_read_is_within, claim_piece, push_claimed, push_document, push_plan,
    push_problem, push_scripted, write_claimed, write_document, write_plan, write_problem,
    written_problem_is_read,
};
