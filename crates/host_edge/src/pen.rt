ghost use Rattle.std.specs.Prelude.{◌≡◌, ◌≢◌, ◌<◌, ◌≤◌, [], ◌++◌, length, take, IfErr, IfOk, OnErr};
ghost use Rattle.std.specs.IoError.{error_kind};
ghost use Rattle.host_edge.specs.Histories.{Carries};

use crate::unbroken::write_awaited;
use byte_history::History;
use std::io::{self, ErrorKind, Write};
use std::time::Clock;

/// A writer, and what was written to it since it was handed in.
#[derive(Drop)]
pub(crate) struct Pen<W> {
    writer: W,
    written: History,
}

impl<W> Pen<W> {
    pub(crate) fn new(writer: W) -> Self
        ensures writer { result.writer ≡ writer }
        ensures written { result.written ≡ [] }
    {
        Pen {
            writer,
            written: History::new(),
        }
    }
}

impl<W: Write> Pen<W> {
    /// One write, which fails where it takes nothing of what there is. Room that isn't there yet is waited for.
    pub(crate) fn write<C: Clock>(&mut self, rt: &C, from: &[u8]) -> io::Result<usize>
        ensures within { IfOk result (λ n. n ≤ length from.now) }
        ensures some { IfOk result (λ n. 0 < length from.now → 0 < n) }
        ensures noted { IfOk result (λ n. self.new.written ≡ self.old.written ++ take n from.now) }
        ensures unnoted { OnErr result (self.new.written ≡ self.old.written) }
        ensures carried { Carries (W.contents self.old.writer) (W.contents self.new.writer)
            self.old.written self.new.written }
        ensures awaited { IfErr result (λ error. error_kind error ≢ ErrorKind.WouldBlock) }
    {
        let n = write_awaited(rt, &mut self.writer, from)?;
        self.written.add(&from[..n]);
        Ok(n)
    }
}
