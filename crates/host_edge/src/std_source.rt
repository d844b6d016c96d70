ghost use Rattle.std.specs.Prelude.{◌≡◌, []};

use crate::faults::StreamFaults;
use crate::tap::Tap;
use std::io::Stdin;
use std::time::Clock;
use wan_edge::{Failed, Source};

/// Standard input as a source, which tells what was taken: the bytes that the system says it gave. What is
/// still to come it doesn't tell, since to look ahead would be to wait. Where it doesn't block, bytes that
/// aren't there yet are waited for.
#[derive(Drop)]
pub struct StdSource<R> {
    rt: R,
    tap: Tap<Stdin>,
    faults: StreamFaults,
}

impl<R> StdSource<R> {
    /// Standard input, of which nothing was read, and of which no call has failed. It is waited for on the
    /// clock of the runtime.
    pub fn new(rt: R, stream: Stdin) -> Self
        ensures taken { result.tap.taken ≡ [] }
        ensures faults { result.faults ≡ 0 }
    {
        StdSource {
            rt,
            tap: Tap::new(stream),
            faults: StreamFaults::new(),
        }
    }
}

impl<R: Clock> Source for StdSource<R> {
    ghost use Rattle.std.specs.Prelude.{None, Some};

    ghost told = { λ s. record { left = None; taken = Some s.tap.taken; faults = s.faults } };

    fn read(&mut self, into: &mut [u8]) -> Result<usize, Failed> {
        let answer = self.tap.read(&self.rt, into);
        self.faults.count_failure(answer)
    }
}
