ghost use Rattle.std.specs.Prelude.{◌≡◌, IsTrue, is_ok};
ghost use Rattle.wan_edge.specs.Frames.{IsCutCommand};
ghost use Rattle.wire_frames.specs.Reading.{IsBegun, ReadsCommand, fresh};

use crate::command::{COMMAND, COMMAND_LEN, HEAD_LEN, command_of};
use crate::front::{Front, other_kind};
use crate::{Command, FrameFault};
use std::marker::Model;

/// Reads commands from a stream that comes in pieces.
#[derive(Debug, Drop)]
pub struct CommandReader {
    front: Front<COMMAND_LEN>,
    live: bool,
}

impl Model for CommandReader {
    ghost use Rattle.wire_frames.specs.Reading.{IsBegun, Reader};

    ghost Value = { Reader };

    ghost view = { λ r. record { kept = r.front; live = r.live } };

    ghost invariant = { λ r. IsBegun r.front };
}

impl CommandReader {
    pub fn new() -> Self
        ensures new { result ≡ fresh }
        ensures cut { IsCutCommand result.kept }
    {
        CommandReader {
            front: Front::new(),
            live: true,
        }
    }

    /// Whether there was no fault.
    pub fn live(&self) -> bool
        ensures { result ≡ self.now.live }
    {
        self.live
    }

    /// Takes bytes of the piece up to the end of one command, and says how many, and which command of
    /// which migration it is. Without a command it has taken the whole piece. After a fault nothing more
    /// may be fed.
    pub fn feed(&mut self, piece: &[u8]) -> Result<(usize, Option<(u32, Command)>), FrameFault>
        requires live { IsTrue self.old.live }
        ensures read { ReadsCommand self.old.kept piece.now result self.new }
        ensures cut { IsTrue self.new.live → IsCutCommand self.new.kept }
    {
        let given = read_command(&mut self.front, piece);
        self.live = given.is_ok();
        given
    }
}

// The reading of a command, on the bytes of it that have come before.
fn read_command(
    front: &mut Front<COMMAND_LEN>,
    piece: &[u8],
) -> Result<(usize, Option<(u32, Command)>), FrameFault>
    requires { IsBegun front.old }
    ensures begun { IsBegun front.new }
    ensures read { ReadsCommand front.old piece.now result
        (record { kept = front.new; live = is_ok result }) }
{
    if let Some(byte) = other_kind(front.bytes(), piece, COMMAND) {
        return Err(FrameFault::Kind(byte));
    }
    let head = front.fill(piece, HEAD_LEN);
    if front.bytes().len() < HEAD_LEN {
        return Ok((head, None));
    }
    let count = front.bytes()[HEAD_LEN - 1];
    if count == 0 || count > 16 {
        front.clear();
        return Err(FrameFault::Count(count));
    }
    let len = HEAD_LEN + 8 * usize::from(count);
    let body = front.fill(&piece[head..], len);
    if front.bytes().len() < len {
        return Ok((head + body, None));
    }
    let command = command_of(front.bytes());
    front.clear();
    Ok((head + body, Some(command)))
}
