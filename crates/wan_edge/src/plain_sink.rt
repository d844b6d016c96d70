ghost use Rattle.std.specs.Prelude.{◌≡◌, length, Ok};
ghost use Rattle.wan_edge.specs.Streams.{no_sink};

use crate::{Failed, Sink};

/// A sink that takes all bytes, keeps none, tells nothing of them and never fails.
#[derive(Clone, Copy, Debug)]
pub struct PlainSink;

impl PlainSink {
    pub fn new() -> Self {
        PlainSink
    }
}

impl Sink for PlainSink {
    ghost told = { λ _. no_sink };

    fn write(&mut self, from: &[u8]) -> Result<usize, Failed>
        ensures { result ≡ Ok (length from.now) }
    {
        Ok(from.len())
    }
}
