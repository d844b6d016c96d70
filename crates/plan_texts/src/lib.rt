//! What a plan says, as texts for an operator, pushed piece by piece: what is looked up of the plan is made first,
//! and then the text takes no memory.
//!
//! [`push_loads`] tells how much of each link and each table is taken at each stage, and at most in each step
//! (SWAN's step rule), and the fullest link. The bytes are the definition's, `loads_text`, for every plan
//! that was checked. The work is that of the tunnels' hops at each stage, and of the numbers told.
//! [`push_explanation`] tells what has to be done: the items and their operations by the numbers that journal, frames
//! and notes have of them, with what each operation brings and needs, and the longest chain that it begins.
//! The bytes are `explain_text`. The work is that of the stages, for each item's tunnels, and of what is
//! told.
#![tactic(auto)]

mod explaining;
mod fullest;
mod item_lines;
pub mod laws;
mod load_lines;
mod load_rows;
mod lookup;
mod need_texts;
mod op_lines;
mod pieces;
mod rows;
mod since;
mod sums;
pub mod worked;

pub use explaining::push_explanation;
pub use load_lines::push_loads;
pub use load_rows::LoadRows;
pub use lookup::Lookup;
