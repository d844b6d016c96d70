//! Frames that name a term. What stands in front of a frame is written ([`write_fence`]), and so is a whole answer
//! with its floor ([`write_floored`]); commands with a term or without one are read from a stream that comes in any
//! pieces ([`TermedReader`]). The spelling is that of `fenced_agent`'s `specs/Frames`. No call takes memory.
#![tactic(auto)]

mod head;
mod termed_reader;
mod writing;

pub use termed_reader::{TermedFrame, TermedReader};
pub use writing::{FENCE_LEN, FLOORED_LEN, write_fence, write_floored};
