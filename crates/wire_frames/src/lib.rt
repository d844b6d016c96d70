//! The frames between a controller and a switch: a [`Command`] and an [`Answer`], each with the number
//! of its migration, written in its one spelling and read from a stream that comes in any pieces.
//!
//! Contracts see both as the frames of `wan_edge`'s `specs/Frames.antt`, which has the spelling. A
//! reader takes bytes up to the end of one frame; with the bytes that it kept, those are exactly that
//! frame, so it doesn't matter where a stream is cut. No call takes memory.
#![tactic(auto)]

mod answer;
mod answer_reader;
mod command;
mod command_reader;
mod fault;
mod front;
mod laws;

pub use answer::{ANSWER_LEN, Answer, write_answer};
pub use answer_reader::AnswerReader;
pub use command::{COMMAND_LEN, Command, write_command};
pub use command_reader::CommandReader;
pub use fault::FrameFault;
pub use laws::{a_command_has_one_spelling, an_answer_has_one_spelling};
