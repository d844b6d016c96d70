//! Ports, guests and fleets in memory, which tell everything: what talks with switches is tested over them.
//!
//! On a [`ScriptPort`] each command has its fate: it is lost, repeated or late, and so is its answer. A
//! [`FaithfulPort`] is prompt: it carries out each whole command at once and answers it once, in order. A
//! [`GatedPort`] is faithful, and silent until the port of the other half of its [`Gate`] hears at the same
//! time. A [`SilentPort`] never answers. Two are not honest: an [`AlienPort`] answers one number, whatever its
//! switch holds, and from a [`NoisePort`] given bytes come back. A [`MemoryGuest`] reads and writes in memory.
//! A [`MemoryFleet`] gives the ports and guests that were put into it, and takes them back.
#![tactic(auto)]

mod alien_port;
mod counters;
mod faithful_port;
mod fate;
mod fates;
mod gate;
mod gated_port;
mod incoming;
mod line;
mod memory_fleet;
mod memory_guest;
mod next_command;
mod noise_port;
mod script_port;
mod silent_port;
mod waiting;
mod way_back;
pub mod worked;

pub use alien_port::AlienPort;
pub use faithful_port::FaithfulPort;
pub use fate::{Fate, FateList};
pub use gate::Gate;
pub use gated_port::GatedPort;
pub use memory_fleet::MemoryFleet;
pub use memory_guest::MemoryGuest;
pub use noise_port::NoisePort;
pub use script_port::ScriptPort;
pub use silent_port::SilentPort;
