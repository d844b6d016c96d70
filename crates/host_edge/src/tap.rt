ghost use Rattle.std.specs.Prelude.{◌≡◌, ◌≢◌, ◌<◌, ◌≤◌, [], ◌++◌, length, take, IfErr, IfOk, OnErr};
ghost use Rattle.std.specs.Io.KnownBytes.{IsAtEnd};
ghost use Rattle.std.specs.IoError.{error_kind};
ghost use Rattle.host_edge.specs.Histories.{Gives};

use crate::unbroken::read_awaited;
use byte_history::History;
use std::io::{self, ErrorKind, Read};
use std::time::Clock;

/// A reader, and what was read off it since it was handed in.
#[derive(Drop)]
pub(crate) struct Tap<R> {
    reader: R,
    taken: History,
}

impl<R> Tap<R> {
    pub(crate) fn new(reader: R) -> Self
        ensures reader { result.reader ≡ reader }
        ensures taken { result.taken ≡ [] }
    {
        Tap {
            reader,
            taken: History::new(),
        }
    }
}

impl<R: Read> Tap<R> {
    /// One read. Bytes that aren't there yet are waited for.
    pub(crate) fn read<C: Clock>(&mut self, rt: &C, into: &mut [u8]) -> io::Result<usize>
        ensures within { IfOk result (λ n. n ≤ length into.old) }
        ensures end { IfOk result
            (λ n. n ≡ 0 → 0 < length into.old → IsAtEnd (R.remaining self.new.reader)) }
        ensures noted { IfOk result (λ n. self.new.taken ≡ self.old.taken ++ take n into.new) }
        ensures unnoted { OnErr result (self.new.taken ≡ self.old.taken) }
        ensures gives { Gives (R.remaining self.old.reader) (R.remaining self.new.reader)
            self.old.taken self.new.taken }
        ensures awaited { IfErr result (λ error. error_kind error ≢ ErrorKind.WouldBlock) }
    {
        let n = read_awaited(rt, &mut self.reader, into)?;
        self.taken.add(&into[..n]);
        Ok(n)
    }
}
