//! What stands at the front of bytes that came from a switch: answers, each with or without a floor in front of it.
ghost use Rattle.std.specs.Prelude.{◌≡◌, ◌≢◌, ◌<◌, length, slice_index};
ghost use Rattle.host_edge.specs.Inboxes.{Fronts, FrontsAnswer};

use wire_frames::{ANSWER_LEN, AnswerReader};

/// The first byte of a floor.
const FLOOR: u8 = 0x46;

/// How many bytes a floor has.
const FLOOR_LEN: usize = 5;

/// How many bytes the longest answer has, with the floor in front.
pub(crate) const FRONTED_LEN: usize = FLOOR_LEN + ANSWER_LEN;

/// What stands there.
pub(crate) enum Front {
    /// A whole answer, of so many bytes with what stands in front of it.
    Whole(usize),
    /// A part of one, and nothing else.
    Cut,
    /// Something with which none begins.
    Other,
}

/// What stands at the front of bytes.
pub(crate) fn front_of(bytes: &[u8]) -> Front
    requires { 0 < length bytes.now }
    ensures { Fronts bytes.now result }
{
    if bytes[0] == FLOOR {
        return floored_front(bytes);
    }
    plain_front(bytes)
}

// The same where no floor begins.
fn plain_front(bytes: &[u8]) -> Front
    requires some { 0 < length bytes.now }
    requires plain { slice_index bytes.now 0 ≢ 70 }
    ensures { Fronts bytes.now result }
{
    answer_front(bytes)
}

// The same where one does.
fn floored_front(bytes: &[u8]) -> Front
    requires some { 0 < length bytes.now }
    requires floor { slice_index bytes.now 0 ≡ 70 }
    ensures { Fronts bytes.now result }
{
    if bytes.len() <= FLOOR_LEN {
        return Front::Cut;
    }
    match answer_front(&bytes[FLOOR_LEN..]) {
        Front::Whole(n) => Front::Whole(FLOOR_LEN + n),
        Front::Cut => Front::Cut,
        Front::Other => Front::Other,
    }
}

// What stands there of an answer alone.
fn answer_front(bytes: &[u8]) -> Front
    requires { 0 < length bytes.now }
    ensures { FrontsAnswer bytes.now result }
{
    match AnswerReader::new().feed(bytes) {
        Ok((n, found)) => match found {
            Some(_) => Front::Whole(n),
            None => Front::Cut,
        },
        Err(_) => Front::Other,
    }
}
