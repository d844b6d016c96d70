ghost use Rattle.std.specs.Prelude.{◌≡◌, ◌<◌, ◌≤◌, IsTrue};
ghost use Rattle.switch_agent.specs.ReadStates.{most, new_read_state};
ghost use Rattle.wan_edge.specs.Frames.{IsCutCommand};

use std::marker::Model;
use wire_frames::CommandReader;

/// How many bytes are read of one guest.
const MOST: usize = 100_000_000;

/// What an agent keeps of a guest between two reads: the first bytes of a command that isn't whole yet, and
/// how many bytes may still be read, one at least.
#[derive(Drop)]
pub struct ReadState {
    reader: CommandReader,
    room: usize,
}

impl Model for ReadState {
    ghost use Rattle.switch_agent.specs.ReadStates.{IsReadState, ReadSoFar};

    ghost Value = { ReadSoFar };

    ghost view = { λ t. record { kept = t.reader.kept; room = t.room } };

    ghost invariant = { λ t. IsReadState t.reader t.room };
}

impl ReadState {
    /// With a guest of which nothing was read.
    pub fn new() -> Self
        ensures { result ≡ new_read_state }
    {
        let reader = CommandReader::new();
        ReadState { reader, room: MOST }
    }

    /// What is kept, and how many bytes may still be read.
    pub fn into_parts(self) -> (CommandReader, usize)
        ensures kept { result.0.kept ≡ self.kept }
        ensures room { result.1 ≡ self.room }
        ensures live { IsTrue result.0.live }
        ensures cut { IsCutCommand result.0.kept }
        ensures some { 0 < result.1 }
        ensures few { result.1 ≤ most }
    {
        (self.reader, self.room)
    }

    // Goes on with what a reader has kept.
    pub(crate) fn of(reader: CommandReader, room: usize) -> Self
        requires live { IsTrue reader.live }
        requires cut { IsCutCommand reader.kept }
        requires some { 0 < room }
        requires few { room ≤ most }
        ensures { result ≡ record { kept = reader.kept; room = room } }
    {
        ReadState { reader, room }
    }
}
