//! The way back: to the old split from wherever a rollout stands.
//!
//! A rollout that was interrupted is first levelled: the operations in flight end, and those of items that
//! stand before the stage to which the rollout has come are begun, until each item has the content of that
//! one stage. Then the plan back, which has the same stages in reverse order, begins there.
//!
//! [`back`] is the rollout back. [`ceiling`] is the stage to which a history has come, [`levelled`] whether it is
//! level there, and [`levelling_rank`] what the policy answers that leads it there. Mostly a history may turn
//! before: [`turn_stage`] is the first stage at which it may. [`turn_start`] is where the way back begins, from a
//! level as from such a stage.
//!
//! `way_back`, `stages` and `levels` have the laws, each a function with an empty body whose clause is the law:
//! that the plan back is valid, that each stage is a sound start, and that levelling begins nothing past its
//! stage, goes on until the history is level there, and keeps the network safe. `turns` has those of going back
//! from where a history stands, and `undo` those of taking it back operation by operation, which no call does.
//! `worked` has examples.
#![tactic(auto)]

mod here;
mod levels;
mod reaching;
mod stages;
mod turning;
mod turns;
mod undo;
mod way_back;
pub mod worked;

pub use here::{turn_stage, turn_start};
pub use levels::{
    a_held_history_is_levelled, a_history_is_begun_up_to_its_ceiling,
    a_levelled_history_has_a_stages_contents, a_levelling_begins_nothing_past_its_stage,
    a_levelling_policy_holds_from_its_stage, every_history_can_be_levelled, policies_see_views,
};
pub use reaching::{ceiling, levelled, levelling_rank};
pub use stages::{each_stage_is_a_sound_start, the_way_back_begins_at_each_stage};
pub use turning::back;
pub use turns::{
    a_held_history_has_come_so_far, a_turn_at_the_ceiling_is_a_level,
    a_turn_begins_nothing_further, a_turn_given_again_comes_no_further, every_history_can_turn,
    the_way_back_begins_with_what_is_settled,
};
pub use undo::{
    an_operation_goes_back_once_those_behind_it_are_back, there_is_an_operation_that_may_go_back,
    what_is_taken_back_is_of_the_way_there,
};
pub use way_back::{the_way_back_goes_through_the_same_stages, the_way_back_is_valid};
