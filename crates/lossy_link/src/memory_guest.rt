ghost use Rattle.std.specs.Prelude.{◌≡◌, ◌++◌, length, min, take, Some, is_err, IfOk, OnErr, OnOk, IsErr, IsTrue};
ghost use Rattle.wan_edge.specs.FailingTurns.{after_call, fails_now};

use std::marker::Model;
use wan_edge::{Failed, Guest, MemorySink, MemorySource, Sink, Source};

/// A guest that reads from the one and writes to the other, and tells both.
#[derive(Debug, Drop)]
pub struct MemoryGuest {
    source: MemorySource,
    sink: MemorySink,
}

impl Model for MemoryGuest {
    ghost use Rattle.lossy_link.specs.Guests.{Visit};

    ghost Value = { Visit };

    ghost view = { λ g. record { reading = g.source; writing = g.sink } };
}

impl MemoryGuest {
    pub fn new(source: MemorySource, sink: MemorySink) -> Self
        ensures { result ≡ record { reading = source; writing = sink } }
    {
        MemoryGuest { source, sink }
    }

    /// All that was written to the guest.
    pub fn written(&self) -> &[u8]
        ensures { result.now ≡ self.now.writing.written }
    {
        self.sink.written()
    }
}

impl Source for MemoryGuest {
    ghost told = { λ g. record {
      left = Some g.reading.left;
      taken = Some g.reading.taken;
      faults = g.reading.turns.failures;
    } };

    ghost as_sink = { λ g. record {
      written = Some g.writing.written;
      faults = g.writing.turns.failures;
    } };

    /// As many bytes as there are and as fit, or a failure exactly where it is this call's turn.
    fn read(&mut self, into: &mut [u8]) -> Result<usize, Failed>
        ensures fails { is_err result ≡ fails_now self.old.reading.turns }
        ensures answer { IfOk result
            (λ n. n ≡ min (length into.old) (length self.old.reading.left)) }
        ensures left { IfOk result
            (λ n. self.old.reading.left ≡ take n into.new ++ self.new.reading.left) }
        ensures taken { IfOk result
            (λ n. self.new.reading.taken ≡ self.old.reading.taken ++ take n into.new) }
        ensures unread { OnErr result (self.new.reading.left ≡ self.old.reading.left) }
        ensures untaken { OnErr result (self.new.reading.taken ≡ self.old.reading.taken) }
        ensures turns { self.new.reading.turns ≡ after_call self.old.reading.turns (is_err result) }
        ensures unwritten { self.new.writing ≡ self.old.writing }
    {
        self.source.read(into)
    }
}

impl Sink for MemoryGuest {
    ghost told = { λ g. record {
      written = Some g.writing.written;
      faults = g.writing.turns.failures;
    } };

    ghost as_source = { λ g. record {
      left = Some g.reading.left;
      taken = Some g.reading.taken;
      faults = g.reading.turns.failures;
    } };

    /// Takes all the bytes, or fails: where it is this call's turn, or for lack of memory.
    fn write(&mut self, from: &[u8]) -> Result<usize, Failed>
        ensures fails { IsTrue (fails_now self.old.writing.turns) → IsErr result }
        ensures answer { IfOk result (λ n. n ≡ length from.now) }
        ensures appended { OnOk result
            (self.new.writing.written ≡ self.old.writing.written ++ from.now) }
        ensures nothing { OnErr result (self.new.writing.written ≡ self.old.writing.written) }
        ensures turns { self.new.writing.turns ≡ after_call self.old.writing.turns (is_err result) }
        ensures unread { self.new.reading ≡ self.old.reading }
    {
        self.sink.write(from)
    }
}

impl Guest for MemoryGuest {
    ghost use Rattle.std.specs.Prelude.{refl};

    ghost read_apart = { λ _. refl };

    ghost written_apart = { λ _. refl };
}
