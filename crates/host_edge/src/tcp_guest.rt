ghost use Rattle.std.specs.Prelude.{◌≡◌, ◌<◌, ◌≤◌, [], ◌++◌, length, take, IfOk, OnErr};
ghost use Rattle.std.specs.Io.KnownBytes.{IsAtEnd};
ghost use Rattle.host_edge.specs.Histories.{Carries, Gives};
ghost use Rattle.wan_edge.specs.Streams.{Appends, Rose};

use crate::farewell::take_leave;
use crate::faults::Faults;
use crate::time_limit::TimeLimit;
use crate::unbroken::{read_noted, write_noted};
use byte_history::History;
use std::io::{Read, Write};
use std::net::OpenStream;
use std::os::fd::{AsRawFd, RawFd};
use std::time::Clock;
use wan_edge::{Failed, Guest, Sink, Source};

/// A connection from a controller as a guest of an agent, which tells what was read off its stream and what
/// was written to it, and nothing of what it is still to read: to look ahead would be to wait. Failures of
/// reading and of writing are counted apart.
#[derive(Drop)]
pub struct TcpGuest<S> {
    stream: S,
    taken: History,
    written: History,
    read_faults: Faults,
    write_faults: Faults,
}

impl<S> TcpGuest<S> {
    /// A connection with its time limits, of which nothing was read, to which nothing was written, and of
    /// which no call has failed.
    pub fn new(stream: S) -> Self
        ensures stream { result.stream ≡ stream }
        ensures read { result.read_faults ≡ 0 }
        ensures written { result.write_faults ≡ 0 }
        ensures untaken { result.taken ≡ [] }
        ensures nothing { result.written ≡ [] }
    {
        TcpGuest {
            stream,
            taken: History::new(),
            written: History::new(),
            read_faults: Faults::new(),
            write_faults: Faults::new(),
        }
    }
}

impl<S: AsRawFd> TcpGuest<S> {
    /// The number by which the system knows the connection.
    pub(crate) fn number(&self) -> RawFd {
        self.stream.as_raw_fd()
    }
}

impl<S: Read + OpenStream> TcpGuest<S> {
    /// Ends the connection so that the answers reach the controller, within the limit.
    pub(crate) fn take_leave<R: Clock>(&mut self, rt: &R, limit: TimeLimit) {
        take_leave(rt, &mut self.stream, limit);
    }
}

impl<S: Read + Write> Source for TcpGuest<S> {
    ghost use Rattle.std.specs.Prelude.{None, Some};

    ghost told = { λ g. record {
      left = None;
      taken = Some g.taken;
      faults = g.read_faults;
    } };

    ghost as_sink = { λ g. record { written = Some g.written; faults = g.write_faults } };

    fn read(&mut self, into: &mut [u8]) -> Result<usize, Failed>
        ensures within { IfOk result (λ n. n ≤ length into.old) }
        ensures end { IfOk result
            (λ n. n ≡ 0 → 0 < length into.old → IsAtEnd (S.remaining self.new.stream)) }
        ensures noted { IfOk result (λ n. self.new.taken ≡ self.old.taken ++ take n into.new) }
        ensures unnoted { OnErr result (self.new.taken ≡ self.old.taken) }
        ensures cause { OnErr result (Rose self.old.read_faults self.new.read_faults) }
        ensures count { self.old.read_faults ≤ self.new.read_faults }
        ensures unwritten { self.new.written ≡ self.old.written }
        ensures apart { self.new.write_faults ≡ self.old.write_faults }
        ensures gives { Gives (S.remaining self.old.stream) (S.remaining self.new.stream)
            self.old.taken self.new.taken }
    {
        let answer = read_noted(&mut self.stream, into, &mut self.taken);
        self.read_faults.count_failure(answer)
    }
}

impl<S: Read + Write> Sink for TcpGuest<S> {
    ghost use Rattle.std.specs.Prelude.{None, Some};

    ghost told = { λ g. record { written = Some g.written; faults = g.write_faults } };

    ghost as_source = { λ g. record {
      left = None;
      taken = Some g.taken;
      faults = g.read_faults;
    } };

    fn write(&mut self, from: &[u8]) -> Result<usize, Failed>
        ensures within { IfOk result (λ n. n ≤ length from.now) }
        ensures some { IfOk result (λ n. 0 < length from.now → 0 < n) }
        ensures appended { IfOk result
            (λ n. Appends (Some self.old.written) (take n from.now) (Some self.new.written)) }
        ensures nothing { OnErr result (Some self.new.written ≡ Some self.old.written) }
        ensures cause { OnErr result (Rose self.old.write_faults self.new.write_faults) }
        ensures count { self.old.write_faults ≤ self.new.write_faults }
        ensures untaken { self.new.taken ≡ self.old.taken }
        ensures apart { self.new.read_faults ≡ self.old.read_faults }
        ensures carried { Carries (S.contents self.old.stream) (S.contents self.new.stream)
            self.old.written self.new.written }
    {
        let answer = write_noted(&mut self.stream, from, &mut self.written);
        self.write_faults.count_failure(answer)
    }
}

impl<S: Read + Write> Guest for TcpGuest<S> {
    ghost use Rattle.std.specs.Prelude.{refl};

    ghost read_apart = { λ _. refl };

    ghost written_apart = { λ _. refl };
}
