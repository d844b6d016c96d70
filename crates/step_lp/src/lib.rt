//! Fewer steps than scratch takes: the linear program whose points are moves from a problem's old split
//! to its new one in a number of rate steps, and the plan of such a point.
//!
//! [`cells`] says how large the program is, [`build`] makes it row by row, and [`plan_of`] frames the rates
//! of one of its points over their least common denominator. Each contract pins its answer exactly, but
//! for lack of memory. The definition of the program is of rows; a law says in the subject's words what
//! its points are: each top is at least both rates of its step, the tops on a link are within its
//! capacity, and each flow's total lies between its old and its new one (SWAN's test as a linear program).
//! That the plan of a point is valid is not promised here: the checker is asked.
#![tactic(auto)]

mod building;
pub mod laws;
mod limit;
mod limits;
mod planning;
mod row;
mod scale;
mod size;
mod used;
pub mod worked;

pub use building::build;
pub use planning::plan_of;
pub use size::{MOST_CELLS, cells};
