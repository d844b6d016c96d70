ghost use Rattle.std.specs.Prelude.{◌≡◌, ◌<◌, ◌^◌, length, IsErrOf};
ghost use Rattle.wan_edge.specs.Streams.{Rose, SourceSteps};
ghost use Rattle.wan_edge.specs.ReadAll.{ReadsMore, ReadsToEnd};

use crate::{Failed, Nums8, Source};
use std::alloc::{AllocError, Global};
use std::cmp::min;
use std::vec;

/// How many bytes one call reads at most.
const BUFFER: usize = 65_536;

/// Why a source was not read to its end.
#[derive(Clone, Copy, Debug, PartialEq, Eq)]
pub enum ReadFault {
    /// The source failed.
    Failed,
    /// It has more bytes than the limit.
    TooLong,
    /// No memory was found.
    Memory,
}

impl From<Failed> for ReadFault {
    ghost use Rattle.wan_edge.specs.declared.reading.ReadFault.TheVariants as fault;

    ghost from_gives = { λ _ e. e ≡ fault.Failed };

    fn from(_: Failed) -> Self {
        ReadFault::Failed
    }
}

impl From<AllocError> for ReadFault {
    ghost use Rattle.wan_edge.specs.declared.reading.ReadFault.TheVariants as fault;

    ghost from_gives = { λ _ e. e ≡ fault.Memory };

    fn from(_: AllocError) -> Self {
        ReadFault::Memory
    }
}

/// Reads a source to its end, where that comes after at most `most` bytes. Of a longer one it reads
/// one byte more than that.
pub fn read_all<S: Source>(alloc: Global, source: &mut S, most: usize) -> Result<Nums8, ReadFault>
    requires { most < 2 ^ 63 }
    ensures read { ReadsToEnd most (S.told source.old) result (S.told source.new) }
    ensures cause { IsErrOf result ReadFault.Failed
        → Rose (S.told source.old).faults (S.told source.new).faults }
    ensures step { SourceSteps (S.told source.old) (S.told source.new) }
    ensures apart { S.as_sink source.new ≡ S.as_sink source.old }
{
    let mut buffer = vec![in alloc; 0; min(BUFFER, most + 1)]?;
    let mut bytes = Nums8::new(alloc);
    let mut room = most + 1;
    while room > 0 {
        let fits = min(buffer.len(), room);
        let n = read_more(source, &mut buffer[..fits], &mut bytes)?;
        if n == 0 {
            return Ok(bytes);
        }
        room -= n;
    }
    Err(ReadFault::TooLong)
}

// Adds the source's next bytes, as many as it gives for this buffer, and says how many.
fn read_more<S: Source>(
    source: &mut S,
    buffer: &mut [u8],
    bytes: &mut Nums8,
) -> Result<usize, ReadFault>
    requires { 0 < length buffer.old }
    ensures read { ReadsMore (length buffer.old) (S.told source.old) bytes.old result bytes.new
        (S.told source.new) }
    ensures cause { IsErrOf result ReadFault.Failed
        → Rose (S.told source.old).faults (S.told source.new).faults }
    ensures step { SourceSteps (S.told source.old) (S.told source.new) }
    ensures apart { S.as_sink source.new ≡ S.as_sink source.old }
{
    let n = source.read(buffer)?;
    bytes.extend_from_slice(&buffer[..n])?;
    Ok(n)
}
