ghost use Rattle.std.specs.Prelude.{◌≡◌, ◌<◌, ◌≤◌, length, IfOk, OnErr};
ghost use Rattle.wan_edge.specs.Streams.{FailsToRead, FailsToWrite, Reads, SinkSteps, SinkTrace, SourceSteps, SourceTrace, Writes, no_sink, no_source};

/// The one fault of an outside object.
#[derive(Clone, Copy, Debug, PartialEq, Eq)]
pub struct Failed;

/// An object that bytes are read from.
pub trait Source {
    /// All that it tells.
    ghost told: { Self → SourceTrace };

    /// What the object tells as a sink, where it is one too.
    ghost as_sink: { Self → SinkTrace } = { λ _. no_sink };

    /// Reads some of the next bytes into the front of `into` and says how many; 0 is the end. What
    /// stands in `into` after them is not said.
    fn read(&mut self, into: &mut [u8]) -> Result<usize, Failed>
        requires room { 0 < length into.old }
        ensures within { IfOk result (λ n. n ≤ length into.old) }
        ensures given { IfOk result (λ n. Reads n into.new (told self.old) (told self.new)) }
        ensures nothing { OnErr result (FailsToRead (told self.old) (told self.new)) }
        ensures step { SourceSteps (told self.old) (told self.new) }
        ensures apart { as_sink self.new ≡ as_sink self.old };
}

/// An object that bytes are written to.
pub trait Sink {
    /// All that it tells.
    ghost told: { Self → SinkTrace };

    /// What the object tells as a source, where it is one too.
    ghost as_source: { Self → SourceTrace } = { λ _. no_source };

    /// Takes some bytes from the front of `from` and says how many: at least one, where there is one.
    fn write(&mut self, from: &[u8]) -> Result<usize, Failed>
        ensures within { IfOk result (λ n. n ≤ length from.now) }
        ensures taken { IfOk result (λ n. Writes n from.now (told self.old) (told self.new)) }
        ensures nothing { OnErr result (FailsToWrite (told self.old) (told self.new)) }
        ensures step { SinkSteps (told self.old) (told self.new) }
        ensures apart { as_source self.new ≡ as_source self.old };
}
