ghost use Rattle.std.specs.Prelude.{◌≡◌, IsTrue, is_ok};
ghost use Rattle.wan_edge.specs.Frames.{IsCutAnswer};
ghost use Rattle.wire_frames.specs.Reading.{IsBegunAnswer, ReadsAnswer, fresh};

use crate::answer::{ANSWER, ANSWER_LEN, answer_of};
use crate::front::{Front, other_kind};
use crate::{Answer, FrameFault};
use std::marker::Model;

/// Reads answers from a stream that comes in pieces.
#[derive(Debug, Drop)]
pub struct AnswerReader {
    front: Front<ANSWER_LEN>,
    live: bool,
}

impl Model for AnswerReader {
    ghost use Rattle.wire_frames.specs.Reading.{IsBegunAnswer, Reader};

    ghost Value = { Reader };

    ghost view = { λ r. record { kept = r.front; live = r.live } };

    ghost invariant = { λ r. IsBegunAnswer r.front };
}

impl AnswerReader {
    pub fn new() -> Self
        ensures new { result ≡ fresh }
        ensures cut { IsCutAnswer result.kept }
    {
        AnswerReader {
            front: Front::new(),
            live: true,
        }
    }

    /// Whether there was no fault.
    pub fn live(&self) -> bool
        ensures { result ≡ self.now.live }
    {
        self.live
    }

    /// Takes bytes of the piece up to the end of one answer, and says how many, and which answer of which
    /// migration it is. Without an answer it has taken the whole piece. After a fault nothing more may
    /// be fed.
    pub fn feed(&mut self, piece: &[u8]) -> Result<(usize, Option<(u32, Answer)>), FrameFault>
        requires live { IsTrue self.old.live }
        ensures read { ReadsAnswer self.old.kept piece.now result self.new }
        ensures cut { IsTrue self.new.live → IsCutAnswer self.new.kept }
    {
        let given = read_answer(&mut self.front, piece);
        self.live = given.is_ok();
        given
    }
}

// The reading of an answer, on the bytes of it that have come before.
fn read_answer(
    front: &mut Front<ANSWER_LEN>,
    piece: &[u8],
) -> Result<(usize, Option<(u32, Answer)>), FrameFault>
    requires { IsBegunAnswer front.old }
    ensures begun { IsBegunAnswer front.new }
    ensures read { ReadsAnswer front.old piece.now result
        (record { kept = front.new; live = is_ok result }) }
{
    if let Some(byte) = other_kind(front.bytes(), piece, ANSWER) {
        return Err(FrameFault::Kind(byte));
    }
    let n = front.fill(piece, ANSWER_LEN);
    if front.bytes().len() < ANSWER_LEN {
        return Ok((n, None));
    }
    let answer = answer_of(front.bytes());
    front.clear();
    Ok((n, Some(answer)))
}
