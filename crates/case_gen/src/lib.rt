//! The case of a trial: what is drawn, and the network that a seed stands for.
//!
//! Everything that is drawn is a word of one generator modulo a bound, so a case is a function of four
//! numbers and has no chance in it (`specs/Cases`). [`Draws`] hands out the words one after the other,
//! and [`make_case`] makes the network of the next ones. That each case has the slack that was asked for,
//! and room in its tables, is a law of the definition ([`a_case_has_slack_and_table_room`]).
#![tactic(auto)]

mod draws;
mod laws;
mod make;
mod needs;
mod rates;
mod ring;
mod trip;
pub mod worked;

pub use draws::Draws;
pub use laws::{a_case_has_a_plan, a_case_has_slack_and_table_room, draws_stand_in_a_row};
pub use make::make_case;
