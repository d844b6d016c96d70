//! From where a rollout stands to another target: the problem that it leaves.
//!
//! A rollout in which nothing flies has a content of each item, whatever stage that is of, and so a rate of each
//! tunnel and its entries. [`left`] is the network with these as its old split, in units in which they are whole,
//! and with the rollout's own new split; the tunnels keep their numbers, so an item is the same one there. Any plan
//! of it begins with what the switches hold. [`aimed`] is the same with another new split: that of a [`Target`], or
//! what is settled but for what crosses a link.
//!
//! `laws` has the laws, each a function with an empty body whose clause is the law: that the switches hold what is
//! settled where nothing flies, that the old side of such a problem fits, that every plan of it begins with what is
//! settled and every rollout of it is safe, and that all that crosses a link can be shed in one step. `worked` has
//! examples.
#![tactic(auto)]

mod aim;
mod aimed_rows;
mod aiming;
mod copying;
mod laws;
mod leaving;
mod limits;
mod looking;
mod rows;
mod units;
mod unleft;
pub mod worked;

pub use aim::{Aim, Target};
pub use aiming::aimed;
pub use laws::{
    a_plan_begins_with_what_is_settled, a_rollout_may_go_on_elsewhere,
    a_unit_is_the_largest_in_which_all_are_whole, shedding_from_a_stand_takes_one_step,
    shedding_takes_one_step, what_is_settled_fits_as_an_old_split,
    what_is_settled_is_what_the_switches_hold,
};
pub use leaving::left;
pub use unleft::{Row, Unleft};
