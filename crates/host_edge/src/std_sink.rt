ghost use Rattle.std.specs.Prelude.{◌≡◌, []};
ghost use Rattle.host_edge.specs.Sinks.{written_to};

use crate::faults::StreamFaults;
use crate::pen::Pen;
use std::io::{Stderr, Stdout};
use std::time::Clock;
use wan_edge::{Failed, Sink};

#[derive(Drop)]
pub(crate) enum Stream {
    Output(Pen<Stdout>),
    Error(Pen<Stderr>),
}

/// Standard output or standard error as a sink, which tells what was written: the bytes that the system says
/// it took. Where it doesn't block, room that isn't there yet is waited for.
#[derive(Drop)]
pub struct StdSink<R> {
    rt: R,
    stream: Stream,
    faults: StreamFaults,
}

impl<R> StdSink<R> {
    /// Standard output, to which nothing was written, and of which no call has failed. It is waited for on the
    /// clock of the runtime.
    pub fn output(rt: R, stream: Stdout) -> Self
        ensures written { written_to result.stream ≡ [] }
        ensures faults { result.faults ≡ 0 }
    {
        StdSink {
            rt,
            stream: Stream::Output(Pen::new(stream)),
            faults: StreamFaults::new(),
        }
    }

    /// Standard error, likewise.
    pub fn error(rt: R, stream: Stderr) -> Self
        ensures written { written_to result.stream ≡ [] }
        ensures faults { result.faults ≡ 0 }
    {
        StdSink {
            rt,
            stream: Stream::Error(Pen::new(stream)),
            faults: StreamFaults::new(),
        }
    }
}

impl<R: Clock> Sink for StdSink<R> {
    ghost use Rattle.std.specs.Prelude.{Some};
    ghost use Rattle.host_edge.specs.Sinks.{written_to};

    ghost told = { λ s. record { written = Some (written_to s.stream); faults = s.faults } };

    fn write(&mut self, from: &[u8]) -> Result<usize, Failed> {
        let answer = match &mut self.stream {
            Stream::Output(pen) => pen.write(&self.rt, from),
            Stream::Error(pen) => pen.write(&self.rt, from),
        };
        self.faults.count_failure(answer)
    }
}
