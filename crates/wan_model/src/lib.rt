//! A wide-area network, the split of its flows over tunnels, and plans between splits.
//!
//! [`Problem`] is seen by contracts as its format and four lists; its type keeps the limits, that names
//! and links come once, and that each tunnel follows links. What a row of a problem or of a plan has is
//! read by their methods here, and nowhere else.
#![tactic(auto)]

mod checked;
mod copying;
mod ends;
mod flow;
mod items;
mod link;
mod names;
mod plan;
mod problem;
mod reading;
mod side;
mod stage;
mod switch;
mod tunnel;

pub use checked::CheckedPlan;
pub use copying::{rates_on, with_rates};
pub use flow::Flow;
pub use items::{home_of, home_of_item, item_at, item_count};
pub use link::Link;
pub use lists::{Ids, Marks, Nums};
pub use plan::Plan;
pub use problem::Problem;
pub use rollout_rules::{Act, Entry, EntryList, Item, Op, OpList, OpView, Script, Spot};
pub use side::Side;
pub use stage::{Stage, StageList};
pub use switch::Switch;
pub use tunnel::Tunnel;
