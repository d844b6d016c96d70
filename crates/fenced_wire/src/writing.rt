ghost use Rattle.std.specs.Prelude.{◌≡◌, Some};
ghost use Rattle.fenced_agent.specs.Frames.{fence_bytes, floored_bytes};

use byteorder::{BigEndian, ByteOrder};
use wire_frames::{ANSWER_LEN, Answer};

/// The first byte of a frame that names a term or a floor.
pub(crate) const FENCE: u8 = 0x46;

/// The first byte of an answer.
const ANSWER: u8 = 0x4E;

/// How many bytes stand in front of a frame that names a term or a floor.
pub const FENCE_LEN: usize = 5;

/// How many bytes an answer has with the floor in front.
pub const FLOORED_LEN: usize = FENCE_LEN + ANSWER_LEN;

/// The bytes in front of a command that names this term, and of an answer that tells this floor.
pub fn write_fence(number: u32) -> [u8; FENCE_LEN]
    ensures { result ≡ fence_bytes (Some number) }
{
    let mut bytes = [0; FENCE_LEN];
    bytes[0] = FENCE;
    BigEndian::write_u32(&mut bytes[1..], number);
    bytes
}

/// The bytes of an answer of this migration to a command that named a term, with the floor in front.
pub fn write_floored(floor: u32, answer: &Answer, migration: u32) -> [u8; FLOORED_LEN]
    ensures { result
        ≡ floored_bytes (record { floor = Some floor; answer = (migration, answer.now) }) }
{
    let mut bytes = [0; FLOORED_LEN];
    bytes[0] = FENCE;
    BigEndian::write_u32(&mut bytes[1..], floor);
    bytes[5] = ANSWER;
    BigEndian::write_u32(&mut bytes[6..], migration);
    BigEndian::write_u32(&mut bytes[10..], answer.item);
    BigEndian::write_u32(&mut bytes[14..], answer.held);
    bytes
}
