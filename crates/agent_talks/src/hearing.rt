//! One read of a guest whose commands may name a term.
ghost use Rattle.std.specs.Prelude.{◌≡◌, ◌≢◌, ◌<◌, ◌≤◌, length, Some, IsTrue};
ghost use Rattle.agent_talks.specs.Serving.{HearsBytes, HearsGuest, IsCutTermed};
ghost use Rattle.fenced_wire.specs.Reading.{all_kept};
ghost use Rattle.switch_agent.specs.ReadStates.{most};
ghost use Rattle.switch_agent.specs.declared.serve_fault.ServeFault.TheVariants as fault;
ghost use Rattle.wan_edge.specs.Streams.{IsAtEnd, Rose};

use crate::serve::serve_piece;
use crate::{Heard, Talk};
use fenced_agent::FencedAgent;
use fenced_wire::TermedReader;
use switch_agent::{ServeFault, read_some};
use wan_edge::Guest;

/// How many bytes one call reads at most.
const BUFFER: usize = 4_096;

/// Reads the guest once, and carries out and answers each command that ends in what came, in order, by the
/// rule of terms: one of a lower term than the floor changes nothing, and the answer to one that names a term
/// tells the floor. A command that is cut off where the guest has ended is dropped.
pub fn serve_read<G: Guest>(agent: &mut FencedAgent, guest: &mut G, talk: Talk) -> Heard
    ensures heard { HearsGuest agent.old agent.new talk (G.Source.told guest.old)
        (G.Source.told guest.new) result (G.Sink.told guest.old).written
        (G.Sink.told guest.new).written }
    ensures some { 0 < talk.room }
    ensures read_cause { result.served.fault ≡ Some fault.Read
        → Rose (G.Source.told guest.old).faults (G.Source.told guest.new).faults }
    ensures write_cause { result.served.fault ≡ Some fault.Write
        → Rose (G.Sink.told guest.old).faults (G.Sink.told guest.new).faults }
{
    let mut buffer = [0; BUFFER];
    serve_into(agent, guest, talk, &mut buffer)
}

// The same, by what comes into a buffer.
fn serve_into<G: Guest>(
    agent: &mut FencedAgent,
    guest: &mut G,
    talk: Talk,
    buffer: &mut [u8],
) -> Heard
    requires place { 0 < length buffer.old }
    ensures heard { HearsGuest agent.old agent.new talk (G.Source.told guest.old)
        (G.Source.told guest.new) result (G.Sink.told guest.old).written
        (G.Sink.told guest.new).written }
    ensures some { 0 < talk.room }
    ensures read_cause { result.served.fault ≡ Some fault.Read
        → Rose (G.Source.told guest.old).faults (G.Source.told guest.new).faults }
    ensures write_cause { result.served.fault ≡ Some fault.Write
        → Rose (G.Sink.told guest.old).faults (G.Sink.told guest.new).faults }
{
    let (reader, room) = talk.into_parts();
    match read_some(guest, room, buffer) {
        Ok(n) => serve_some(agent, guest, reader, room, &buffer[..n]),
        Err(_) => Heard::last(Some(ServeFault::Read)),
    }
}

// Carries out and answers the commands that end in these bytes, which were read; none of them is the end.
fn serve_some<G: Guest>(
    agent: &mut FencedAgent,
    guest: &mut G,
    reader: TermedReader,
    room: usize,
    piece: &[u8],
) -> Heard
    requires live { IsTrue reader.live }
    requires cut { IsCutTermed (all_kept reader) }
    requires within { length piece.now ≤ room }
    requires few { room ≤ most }
    requires end { length piece.now ≡ 0 → IsAtEnd (G.Source.told guest.old).left }
    ensures hears { HearsBytes agent.old agent.new (record { kept = all_kept reader; room = room })
        piece.now result (G.Source.told guest.old).left (G.Sink.told guest.old).written
        (G.Sink.told guest.new).written }
    ensures unfailed { result.served.fault ≢ Some fault.Read }
    ensures write_cause { result.served.fault ≡ Some fault.Write
        → Rose (G.Sink.told guest.old).faults (G.Sink.told guest.new).faults }
    ensures unread { G.Source.told guest.new ≡ G.Source.told guest.old }
{
    let mut reader = reader;
    if piece.is_empty() {
        return Heard::last(None);
    }
    let served = serve_piece(agent, guest, &mut reader, piece);
    Heard::behind(served, reader, room - piece.len())
}
