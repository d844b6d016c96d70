//! That fewer rate steps are impossible, with what shows it.
//!
//! [`check_proof`] decides whether a [`Proof`] shows that no plan has one rate step less than a given
//! number of them, and `laws` says what follows: no valid plan, at whatever scale, takes fewer.
//! [`prove_least`] looks for such a proof: for one step nothing is needed, for two a link that is too
//! small, and for more the multipliers with which the linear program for one step less ends (Farkas).
//! Where there is none it tells why. [`rate_steps`] counts the rate steps of a plan.
#![tactic(auto)]

mod checking;
mod counting;
mod direct;
pub mod laws;
mod least;
mod proving;
pub mod worked;

pub use checking::check_proof;
pub use counting::rate_steps;
pub use fraction_lp::Proof;
pub use least::Least;
pub use proving::prove_least;
