//! How a connection from a controller is ended.

use crate::time_limit::TimeLimit;
use crate::unbroken::read_some;
use std::io::Read;
use std::net::{OpenStream, Shutdown};
use std::time::{Clock, Duration, Instant};

/// The bytes of one piece that is passed over.
const PIECE: usize = 4_096;

/// How many pieces are passed over at most.
const MOST_PIECES: u32 = 65_536;

/// Ends a connection so that what was written reaches the other end: nothing more is written, and what
/// still comes is passed over, until the other end has ended it, too, or the limit has passed.
///
/// A connection that is closed while bytes of it lie unread is reset (RFC 9293, section 3.6.1), and with
/// it goes what is still on its way.
pub(crate) fn take_leave<R: Clock, S: Read + OpenStream>(rt: &R, stream: &mut S, limit: TimeLimit) {
    let begun = Instant::now(rt).ok();
    if stream.shutdown(Shutdown::Write).is_err() {
        return;
    }
    for _ in 0..MOST_PIECES {
        if !passes_over(stream, limit.left(rt, begun)) {
            return;
        }
    }
}

// Passes over some bytes that come within this time, and says whether there were any.
fn passes_over<S: Read + OpenStream>(stream: &mut S, left: Duration) -> bool {
    let mut piece = [0; PIECE];
    if left.is_zero() || stream.set_read_timeout(Some(left)).is_err() {
        return false;
    }
    match read_some(stream, &mut piece) {
        Ok(n) => n > 0,
        Err(_) => false,
    }
}
