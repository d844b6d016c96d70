//! The agent of a switch that hears several controllers, each with a term: it carries out no command of
//! a lower term than it has heard.
//!
//! Contracts see a [`FencedAgent`] as its floor and the items of the agent inside it. `specs/Frames`
//! says how a term stands in front of a command and the floor in front of an answer; `specs/Agents`
//! which commands are carried out. Item by item that is the rule of `takeover_rules` ([`laws`]), so what
//! is known of takeovers is known of agents.
#![tactic(auto)]

mod agent;
pub mod laws;
pub mod worked;

pub use agent::FencedAgent;
