//! The worked examples: each function states a fact of a small network, and proving it is computing it.

pub mod agents;
pub mod building;
pub mod histories;
pub mod items;
pub mod networks;
pub mod operations;
pub mod plans;
pub mod releases;
pub mod safety;
pub mod slack;
pub mod starts;
pub mod widths;
pub mod worlds;
