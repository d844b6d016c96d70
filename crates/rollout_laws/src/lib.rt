//! The laws of a rollout, as theorems over the definitions of `rollout_rules`: each is a public
//! function with an empty body, whose clause is the law.
//!
//! Of histories: `starts` says which starts are sound, the first among them, `prefixes` that what a
//! legal history begins with is legal, `safe` that every legal one of a valid plan is safe, `between`
//! that so is whatever lies between what it has settled and what it has begun, and that a rollout may
//! start there, `done` that a Done takes no room, `progress` that a rollout is never stuck but by its
//! policy, `finished` that it ends at the new split, and `batches` that the batch of a round may follow,
//! and that a release begins nothing that the policy holds back. Of worlds: `schedules` says that over
//! every schedule of crashes, losses, repetitions, reorderings and late commands of earlier migrations
//! the network stays safe, that each operation is applied once and no late command is, that nothing
//! durable is lost and no switch goes back, that it ends at the new split, and that a rollout may begin
//! again with what the switches hold.
#![tactic(auto)]

mod batches;
mod between;
mod done;
mod finished;
mod prefixes;
mod progress;
mod safe;
mod schedules;
mod starts;

pub use batches::{
    batch_is_legal, dones_are_answered, release_begins_next_operations, round_may_be_written,
};
pub use between::between_settled_and_begun_is_safe;
pub use done::a_done_takes_no_room;
pub use finished::finished_is_at_target;
pub use prefixes::every_prefix_is_legal;
pub use progress::{release_goes_on, some_operation_may_begin};
pub use safe::every_legal_history_is_safe;
pub use schedules::{
    a_command_is_applied_once, a_rollout_begins_with_what_is_held, a_rollout_may_begin_again,
    durable_stays, finished_holds_targets, held_never_falls, late_commands_change_nothing,
    safe_over_every_schedule,
};
pub use starts::{a_sound_start_is_good, the_first_start_is_sound};
