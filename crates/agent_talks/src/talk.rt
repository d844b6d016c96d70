ghost use Rattle.std.specs.Prelude.{◌≡◌, ◌<◌, ◌≤◌, IsTrue};
ghost use Rattle.agent_talks.specs.Serving.{IsCutTermed};
ghost use Rattle.fenced_wire.specs.Reading.{all_kept};
ghost use Rattle.switch_agent.specs.ReadStates.{most, new_read_state};

use fenced_wire::TermedReader;
use std::marker::Model;

/// How many bytes are read of one guest.
const MOST: usize = 100_000_000;

/// What an agent keeps of a guest between two reads: the first bytes of a command that isn't whole yet, with
/// what stands in front of it, and how many bytes may still be read, one at least.
#[derive(Drop)]
pub struct Talk {
    reader: TermedReader,
    room: usize,
}

impl Model for Talk {
    ghost use Rattle.agent_talks.specs.Talks.{IsTalk};
    ghost use Rattle.fenced_wire.specs.Reading.{all_kept};
    ghost use Rattle.switch_agent.specs.ReadStates.{ReadSoFar};

    ghost Value = { ReadSoFar };

    ghost view = { λ t. record { kept = all_kept t.reader; room = t.room } };

    ghost invariant = { λ t. IsTalk t.reader t.room };
}

impl Talk {
    /// With a guest of which nothing was read.
    pub fn new() -> Self
        ensures { result ≡ new_read_state }
    {
        let reader = TermedReader::new();
        Talk { reader, room: MOST }
    }

    /// What is kept, and how many bytes may still be read.
    pub fn into_parts(self) -> (TermedReader, usize)
        ensures kept { all_kept result.0 ≡ self.kept }
        ensures room { result.1 ≡ self.room }
        ensures live { IsTrue result.0.live }
        ensures cut { IsCutTermed (all_kept result.0) }
        ensures some { 0 < result.1 }
        ensures few { result.1 ≤ most }
    {
        (self.reader, self.room)
    }

    // Goes on with what a reader has kept.
    pub(crate) fn of(reader: TermedReader, room: usize) -> Self
        requires live { IsTrue reader.live }
        requires cut { IsCutTermed (all_kept reader) }
        requires some { 0 < room }
        requires few { room ≤ most }
        ensures { result ≡ record { kept = all_kept reader; room = room } }
    {
        Talk { reader, room }
    }
}
