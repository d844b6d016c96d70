//! One read of a guest.
ghost use Rattle.std.specs.Prelude.{◌≡◌, ◌≢◌, ◌<◌, ◌≤◌, length, Some, IfOk, IsTrue, OnErr};
ghost use Rattle.switch_agent.specs.Serving.{HearsBytes, HearsGuest};
ghost use Rattle.switch_agent.specs.ReadStates.{most};
ghost use Rattle.switch_agent.specs.declared.serve_fault.ServeFault.TheVariants as fault;
ghost use Rattle.wan_edge.specs.Frames.{IsCutCommand};
ghost use Rattle.wan_edge.specs.Streams.{FailsToRead, IsAtEnd, Reads, Rose};

use crate::serve::serve_piece;
use crate::{Agent, GuestRead, ReadState, ServeFault};
use wan_edge::{Failed, Guest};
use wire_frames::CommandReader;

/// How many bytes one call reads at most.
const BUFFER: usize = 4_096;

/// Reads the guest once, and carries out and answers each command that ends in what came, in order. A
/// command that is cut off where the guest has ended is dropped.
pub fn serve_read<G: Guest>(agent: &mut Agent, guest: &mut G, talk: ReadState) -> GuestRead
    ensures heard { HearsGuest agent.old agent.new talk (G.Source.told guest.old)
        (G.Source.told guest.new) result (G.Sink.told guest.old).written
        (G.Sink.told guest.new).written }
    ensures some { 0 < talk.room }
    ensures read_cause { result.served.fault ≡ Some fault.Read
        → Rose (G.Source.told guest.old).faults (G.Source.told guest.new).faults }
    ensures write_cause { result.served.fault ≡ Some fault.Write
        → Rose (G.Sink.told guest.old).faults (G.Sink.told guest.new).faults }
{
    let mut buffer = [0; BUFFER];
    serve_into(agent, guest, talk, &mut buffer)
}

// The same, by what comes into a buffer.
fn serve_into<G: Guest>(
    agent: &mut Agent,
    guest: &mut G,
    talk: ReadState,
    buffer: &mut [u8],
) -> GuestRead
    requires place { 0 < length buffer.old }
    ensures heard { HearsGuest agent.old agent.new talk (G.Source.told guest.old)
        (G.Source.told guest.new) result (G.Sink.told guest.old).written
        (G.Sink.told guest.new).written }
    ensures some { 0 < talk.room }
    ensures read_cause { result.served.fault ≡ Some fault.Read
        → Rose (G.Source.told guest.old).faults (G.Source.told guest.new).faults }
    ensures write_cause { result.served.fault ≡ Some fault.Write
        → Rose (G.Sink.told guest.old).faults (G.Sink.told guest.new).faults }
{
    let (reader, room) = talk.into_parts();
    match read_some(guest, room, buffer) {
        Ok(n) => serve_some(agent, guest, reader, room, &buffer[..n]),
        Err(_) => GuestRead::last(Some(ServeFault::Read)),
    }
}

/// Reads some of the next bytes of a guest into the front of the buffer, no more than this many, and says
/// how many; 0 is the end.
pub fn read_some<G: Guest>(guest: &mut G, room: usize, buffer: &mut [u8]) -> Result<usize, Failed>
    requires some { 0 < room }
    requires place { 0 < length buffer.old }
    ensures within { IfOk result (λ n. (n ≤ room) × (n ≤ length buffer.old)) }
    ensures given { IfOk result
        (λ n. Reads n buffer.new (G.Source.told guest.old) (G.Source.told guest.new)) }
    ensures nothing { OnErr result
        (FailsToRead (G.Source.told guest.old) (G.Source.told guest.new)) }
    ensures unwritten { G.Sink.told guest.new ≡ G.Sink.told guest.old }
{
    let fits = room.min(buffer.len());
    guest.read(&mut buffer[..fits])
}

// Carries out and answers the commands that end in these bytes, which were read; none of them is the end.
fn serve_some<G: Guest>(
    agent: &mut Agent,
    guest: &mut G,
    reader: CommandReader,
    room: usize,
    piece: &[u8],
) -> GuestRead
    requires live { IsTrue reader.live }
    requires cut { IsCutCommand reader.kept }
    requires within { length piece.now ≤ room }
    requires few { room ≤ most }
    requires end { length piece.now ≡ 0 → IsAtEnd (G.Source.told guest.old).left }
    ensures hears { HearsBytes agent.old agent.new (record { kept = reader.kept; room = room })
        piece.now result (G.Source.told guest.old).left (G.Sink.told guest.old).written
        (G.Sink.told guest.new).written }
    ensures unfailed { result.served.fault ≢ Some fault.Read }
    ensures write_cause { result.served.fault ≡ Some fault.Write
        → Rose (G.Sink.told guest.old).faults (G.Sink.told guest.new).faults }
    ensures unread { G.Source.told guest.new ≡ G.Source.told guest.old }
{
    let mut reader = reader;
    if piece.is_empty() {
        return GuestRead::last(None);
    }
    let served = serve_piece(agent, guest, &mut reader, piece);
    GuestRead::behind(served, reader, room - piece.len())
}
