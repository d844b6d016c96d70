//! The laws of a takeover, as theorems over the definitions of `takeover_rules`: each is a public
//! function with an empty body, whose clause is the law.
//!
//! Of terms: a switch carries the commands of one term out by the agent rule, all or none, and a probe
//! changes nothing that it holds. Of the two worlds: over every schedule the network is safe, by the
//! older world until the last fence and by the newer one from then on; a fenced switch waits for the
//! newer world, which begins with what it holds; after the last fence the older controller changes
//! nothing that is held; no switch goes back; and a rollout that was taken over ends at the new split.
#![tactic(auto)]

mod takeovers;
mod terms;

pub use takeovers::{
    a_fenced_switch_waits, a_taken_over_rollout_ends_at_target, a_takeover_is_safe,
    no_switch_goes_back, the_older_controller_changes_nothing,
};
pub use terms::{
    a_floor_follows_the_terms, a_probe_changes_no_pair, commands_of_one_term_go_together,
};
