ghost use Rattle.std.specs.Prelude.{◌≡◌, false};
ghost use Rattle.sink_pieces.specs.Pushing.{Ends, Pushes, Pushes-chain, Pushes-nothing, Pushes-utf8, standing};

use crate::kept::Kept;
use crate::passing::{take_in, write_out};
use text_writer::Pieces;
use wan_edge::{Failed, Sink};

/// A sink that a text is pushed into, with the buffer for it.
pub struct PieceSink<'a, K> {
    sink: &'a mut K,
    kept: &'a mut Kept,
    failed: bool,
}

impl<'a, K> Drop for PieceSink<'a, K> {
    fn drop(self)
        ensures { self.exit.0.now ≡ self.entry.sink.now }
    {
        let PieceSink {
            sink: _,
            kept: _,
            failed: _,
        } = self;
    }
}

impl<'a, K: Sink> PieceSink<'a, K> {
    pub fn new(sink: &'a mut K, kept: &'a mut Kept) -> Self
        ensures same_sink { result.sink.ghost_name ≡ sink.entry.ghost_name }
        ensures same_kept { result.kept.ghost_name ≡ kept.entry.ghost_name }
        ensures begins { standing K.told K.as_source result
            ≡ record {
              told = K.told sink.old;
              source = K.as_source sink.old;
              kept = kept.old;
              failed = false;
            } }
    {
        PieceSink {
            sink,
            kept,
            failed: false,
        }
    }

    /// Writes what is kept, and keeps none of it then. An Err where the sink failed, now or earlier: after it nothing
    /// is written any more.
    pub fn finish(&mut self) -> Result<(), Failed>
        ensures same_sink { self.new.sink.ghost_name ≡ self.old.sink.ghost_name }
        ensures same_kept { self.new.kept.ghost_name ≡ self.old.kept.ghost_name }
        ensures ends { Ends result (standing K.told K.as_source self.old)
            (standing K.told K.as_source self.new) }
    {
        if self.failed {
            return Err(Failed);
        }
        let ended = write_out(self.sink, self.kept);
        self.failed = ended.is_err();
        ended
    }
}

impl<'a, K: Sink> Pieces for PieceSink<'a, K> {
    ghost pushes = { Pushes K.told K.as_source };

    fn push_str(&mut self, piece: &str) {
        if !self.failed {
            self.failed = take_in(self.sink, self.kept, piece.as_bytes()).is_err();
        }
    }

    ghost nothing_pushed = { Pushes-nothing K.told K.as_source };

    ghost pushed_further = { Pushes-chain K.told K.as_source };

    ghost pushed_utf8 = { Pushes-utf8 K.told K.as_source };
}
