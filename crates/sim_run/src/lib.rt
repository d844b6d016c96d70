//! Scripts rehearse a rollout: rounds, commands sent and delivered, answers handed over, crashes and
//! restarts, each as events on the world.
//!
//! [`run_script`] gives the text of a script under a policy: a line for each act, the peak of each link and
//! table over the durable history, and whether every operation is settled; its contract is the definition
//! `script_text`, over worlds. No world is kept: a rehearsal has the controller, what has passed on the
//! network and what the switches have applied, and each act changes what it touches alone. A script's
//! controller is the real one: a book over a disk in memory. A start reads the bytes that came to the journal
//! since the last one, and goes on with the graph where they are the batches that it has followed; else the book
//! is opened again over what a crash leaves. A trial's controller has the graph alone.
//! [`every_rehearsal_is_safe`] says that the worlds of a script are those of a schedule, each of them safe,
//! that no peak is above its capacity, and that what ends finished is the new split, whatever the policy.
//!
//! [`run_trial`] draws the acts itself, one for each event, and then drains the rollout; its contract is the
//! definition `trial_text`, of which two texts of an independent reference are worked examples. That its
//! events are a script is a law of the definitions ([`a_trial_is_a_script`]).
//!
//! [`draw_script`] draws a script in the same way, of a plan that is given: what of it happens,
//! [`a_drawn_script_happens`] says.
#![tactic(auto)]

mod act_line;
mod acts;
mod booked;
mod controller;
mod draft;
mod drain;
mod earlier;
mod events;
mod laws;
mod lines;
mod mark;
mod network;
mod outcome;
mod plain;
mod run;
mod script_shape;
mod shape;
mod sim_rounds;
mod trial;
pub mod worked;

pub use draft::{DrawnScript, draw_script};
pub use laws::{
    a_drawn_script_happens, a_trial_ends_finished, a_trial_is_a_script, every_rehearsal_is_safe,
};
pub use run::run_script;
pub use script_shape::ScriptShape;
pub use shape::Shape;
pub use trial::run_trial;
