ghost use Rattle.std.specs.Prelude.{◌≡◌, IsErrOf};
ghost use Rattle.wan_edge.specs.Streams.{Rose};
ghost use Rattle.text_commands.specs.Reading.{ReadsInput};

use crate::command_end::CommandEnd;
use rollout_rules::MOST_INPUT;
use std::alloc::Global;
use wan_edge::{Nums8, Source, read_all};

/// Reads all that the source has left, up to the limit of an input.
pub fn read_input<S: Source>(alloc: Global, source: &mut S) -> Result<Nums8, CommandEnd>
    ensures read { ReadsInput (S.told source.old) result (S.told source.new) }
    ensures cause { IsErrOf result CommandEnd.ReadFault
        → Rose (S.told source.old).faults (S.told source.new).faults }
{
    Ok(read_all(alloc, source, MOST_INPUT)?)
}
