ghost use Rattle.std.specs.Prelude.{◌≡◌, length, slice_index};
ghost use Rattle.wan_edge.specs.Frames.{IsAnswer, answer_bytes};

use byteorder::{BigEndian, ByteOrder};
use std::marker::Model;

/// The first byte of an answer.
pub(crate) const ANSWER: u8 = 0x4E;

/// How many bytes an answer has.
pub const ANSWER_LEN: usize = 13;

/// What a switch says of an item: the number of the operation that it holds, 0 where it holds none. The
/// migration whose operation it is stands beside it.
#[derive(Clone, Copy, Debug, PartialEq, Eq)]
pub struct Answer {
    pub item: u32,
    pub held: u32,
}

impl Model for Answer {
    ghost use Rattle.wan_edge.specs.Frames.{Answer};

    ghost Value = { Answer };

    ghost view = { λ a. record { item = a.item; held = a.held } };

    ghost inverse = { λ a. record { item = a.item; held = a.held } };
}

/// The bytes of an answer of this migration.
pub fn write_answer(answer: &Answer, migration: u32) -> [u8; ANSWER_LEN]
    ensures { result ≡ answer_bytes (migration, answer.now) }
{
    let mut bytes = [0; ANSWER_LEN];
    bytes[0] = ANSWER;
    BigEndian::write_u32(&mut bytes[1..], migration);
    BigEndian::write_u32(&mut bytes[5..], answer.item);
    BigEndian::write_u32(&mut bytes[9..], answer.held);
    bytes
}

/// The migration and the answer that these 13 bytes spell.
pub(crate) fn answer_of(bytes: &[u8]) -> (u32, Answer)
    requires long { length bytes.now ≡ 13 }
    requires kind { slice_index bytes.now 0 ≡ ANSWER }
    ensures fits { IsAnswer result }
    ensures spelled { answer_bytes result ≡ bytes.now }
{
    let answer = Answer {
        item: BigEndian::read_u32(&bytes[5..]),
        held: BigEndian::read_u32(&bytes[9..]),
    };
    (BigEndian::read_u32(&bytes[1..]), answer)
}
