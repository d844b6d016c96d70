//! How large a network, its plan and what is read of them may be. Definitions and code cite these.

pub const MOST_SWITCHES: usize = 1024;

pub const MOST_LINKS: usize = 2048;

pub const MOST_FLOWS: usize = 1024;

/// The tunnels of all flows together.
pub const MOST_TUNNELS: usize = 4096;

pub const MOST_TUNNELS_OF_FLOW: u32 = 16;

/// The switches on a path: one more than its links.
pub const MOST_HOPS: usize = 17;

/// The bytes of a name.
pub const LONGEST_NAME: usize = 128;

pub const LARGEST_RATE: u64 = 1_000_000_000;

pub const LARGEST_CAPACITY: u64 = 1_000_000_000_000;

/// The entries of a forwarding table.
pub const LARGEST_TABLE: u32 = 1_000_000;

/// The entries that a tunnel takes in each table on its path.
pub const LARGEST_WIDTH: u32 = 16;

/// The stages of a plan.
pub const MOST_STAGES: usize = 256;

/// A plan's rates are in units of 1/scale.
pub const LARGEST_SCALE: u32 = 65_536;

/// The largest rate of a plan, in units of 1/scale.
pub const LARGEST_PLAN_RATE: u64 = 65_536_000_000_000;

/// The bytes of an input.
pub const MOST_INPUT: usize = 16_777_216;

/// The acts of a script.
pub const MOST_ACTS: usize = 100_000;

/// The commands that a script may send.
pub const MOST_SENT: usize = 4_000_000;
