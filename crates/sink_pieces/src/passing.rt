ghost use Rattle.std.specs.Prelude.{◌≡◌, [], ◌++◌, OnOk, OnErr};
ghost use Rattle.wan_edge.specs.Streams.{Appends, SinkSteps};
ghost use Rattle.sink_pieces.specs.Passing.{GoesOn, Stops};

use crate::kept::Kept;
use wan_edge::{Failed, Sink, write_all};

/// Takes a piece after what is kept: it is kept, too, or what is kept is written before.
pub fn take_in<K: Sink>(sink: &mut K, kept: &mut Kept, piece: &[u8]) -> Result<(), Failed>
    ensures on { OnOk result
        (GoesOn (kept.old ++ piece.now) (K.told sink.old).written kept.new
        (K.told sink.new).written) }
    ensures stop { OnErr result
        (Stops (kept.old ++ piece.now) (K.told sink.old) (K.told sink.new)) }
    ensures step { SinkSteps (K.told sink.old) (K.told sink.new) }
    ensures apart { K.as_source sink.new ≡ K.as_source sink.old }
{
    if kept.keeps(piece) {
        return Ok(());
    }
    write_out(sink, kept)?;
    begin_with(sink, kept, piece)
}

/// The same where nothing is kept: a piece that doesn't fit in the buffer is written at once.
fn begin_with<K: Sink>(sink: &mut K, kept: &mut Kept, piece: &[u8]) -> Result<(), Failed>
    requires { kept.old ≡ [] }
    ensures on { OnOk result
        (GoesOn piece.now (K.told sink.old).written kept.new (K.told sink.new).written) }
    ensures stop { OnErr result (Stops piece.now (K.told sink.old) (K.told sink.new)) }
    ensures step { SinkSteps (K.told sink.old) (K.told sink.new) }
    ensures apart { K.as_source sink.new ≡ K.as_source sink.old }
{
    if kept.keeps(piece) {
        return Ok(());
    }
    write_all(sink, piece)
}

/// Writes all that is kept.
pub fn write_out<K: Sink>(sink: &mut K, kept: &mut Kept) -> Result<(), Failed>
    ensures all { OnOk result
        (Appends (K.told sink.old).written kept.old (K.told sink.new).written) }
    ensures empty { OnOk result (kept.new ≡ []) }
    ensures stop { OnErr result (Stops kept.old (K.told sink.old) (K.told sink.new)) }
    ensures step { SinkSteps (K.told sink.old) (K.told sink.new) }
    ensures apart { K.as_source sink.new ≡ K.as_source sink.old }
{
    write_all(sink, kept.as_slice())?;
    kept.clear();
    Ok(())
}
