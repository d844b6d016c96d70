//! Plans of fewer rate steps than the linear program or the least slack give.
//!
//! By the greedy rule each flow goes, in each rate step and in turn, as far on its way from the old split
//! to the new one as SWAN's test lets it: by item, or those first that relieve the fullest links. [`fewest`]
//! takes the plan with the fewest rate steps of the linear program, of the rule and from scratch. The
//! definition is of whole numbers, so what is found is a function of the problem; each plan of the rule is
//! asked of the checker before it is taken. Where nothing is found, a weight of 1 on some links may show that
//! no plan of any number of steps exists.
#![tactic(auto)]

mod cause;
mod choosing;
mod gain;
mod growing;
pub mod laws;
mod marked;
mod reaching;
mod relief;
mod rule;
mod stepping;
mod stuck;
mod walking;
pub mod worked;

pub use cause::{Cause, NotFound};
pub use choosing::fewest;
