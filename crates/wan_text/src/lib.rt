//! How the parts of a network are printed: a name as its JSON text, a link by the names of its ends, the
//! spot of a broken clause, and the peak lines of links and tables.
//!
//! Each call adds its text at the end of another. A number that the problem hasn't is printed as a part
//! without a name.
#![tactic(auto)]

mod names;
mod peaks;
mod spot;
mod switch;

pub use names::{Names, quoted};
pub use peaks::{push_link_peak, push_table_peak};
pub use spot::push_spot;
pub use switch::{push_link, push_name, push_switch};
