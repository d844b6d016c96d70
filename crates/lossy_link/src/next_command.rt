ghost use Rattle.std.specs.Prelude.{◌≡◌, ℕ, ◌<◌, ◌≤◌, List, length, take, IfNone};
ghost use Rattle.lossy_link.specs.Incoming.{Advances, GoesOnAs};

use wire_frames::{Command, CommandReader};

/// Takes bytes up to the end of one command, and says how many and which of which migration it is. Where the bytes are no
/// commands any more, it takes them all.
pub(crate) fn next_command(
    reader: &mut CommandReader,
    piece: &[u8],
) -> (usize, Option<(u32, Command)>)
    requires { 0 < length piece.now }
    ensures some { 0 < result.0 }
    ensures within { result.0 ≤ length piece.now }
    ensures all { IfNone result.1 (result.0 ≡ length piece.now) }
    ensures advances { (rest : List ℕ)
        → GoesOnAs reader.old.live reader.old.kept rest
        → Advances rest (take result.0 piece.now) result.1 reader.new }
{
    if !reader.live() {
        return (piece.len(), None);
    }
    match reader.feed(piece) {
        Ok(given) => given,
        Err(_) => (piece.len(), None),
    }
}
