ghost use Rattle.std.specs.Prelude.{◌≡◌, OnOk, OnErr};
ghost use Rattle.wan_edge.specs.Streams.{Appends, AppendsPart, Rose, SinkSteps};

use crate::{Failed, Sink};

/// Writes all the bytes, by as many calls as the sink wants.
pub fn write_all<K: Sink>(sink: &mut K, bytes: &[u8]) -> Result<(), Failed>
    ensures all { OnOk result
        (Appends (K.told sink.old).written bytes.now (K.told sink.new).written) }
    ensures part { OnErr result
        (AppendsPart (K.told sink.old).written bytes.now (K.told sink.new).written) }
    ensures cause { OnErr result (Rose (K.told sink.old).faults (K.told sink.new).faults) }
    ensures step { SinkSteps (K.told sink.old) (K.told sink.new) }
    ensures apart { K.as_source sink.new ≡ K.as_source sink.old }
{
    let mut done = 0;
    while done < bytes.len() {
        done += sink.write(&bytes[done..])?;
    }
    Ok(())
}
