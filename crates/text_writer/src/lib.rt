//! Where a text is pushed, piece by piece: [`Pieces`] takes any number of pieces and keeps to itself whether it
//! failed, so that what makes a text has no case for it; and [`WholeText`] keeps the pieces in memory.
#![tactic(auto)]

mod pieces;
mod whole_text;

pub use pieces::Pieces;
pub use whole_text::WholeText;
