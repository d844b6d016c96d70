ghost use Rattle.std.specs.Prelude.{◌≡◌, ◌<◌, ◌≤◌, ◌++◌, [], length, take, None, Some, IfSome, IsTrue};
ghost use Rattle.agent_talks.specs.Serving.{CarriesOut, IsCutTermed};
ghost use Rattle.fenced_agent.specs.Frames.{IsTermedCommand, termed_bytes};
ghost use Rattle.fenced_wire.specs.Reading.{all_kept};
ghost use Rattle.switch_agent.specs.Serving.{IsOwnFault};
ghost use Rattle.switch_agent.specs.declared.serve_fault.ServeFault.TheVariants as fault;
ghost use Rattle.wan_edge.specs.Streams.{Rose, SinkSteps};

use crate::reply::carry_out;
use fenced_agent::FencedAgent;
use fenced_wire::{TermedFrame, TermedReader};
use switch_agent::{ServeFault, Served};
use wan_edge::{Guest, write_all};

/// Carries out and answers the commands that end in the piece, in order.
pub(crate) fn serve_piece<G: Guest>(
    agent: &mut FencedAgent,
    guest: &mut G,
    reader: &mut TermedReader,
    piece: &[u8],
) -> Served
    requires live { IsTrue reader.old.live }
    requires cut { IsCutTermed (all_kept reader.old) }
    ensures carried { CarriesOut agent.old agent.new (all_kept reader.old ++ piece.now) result
        (λ rest. rest ≡ all_kept reader.new) (G.Sink.told guest.old).written
        (G.Sink.told guest.new).written }
    ensures few { result.commands ≤ length piece.now }
    ensures own { IfSome result.fault IsOwnFault }
    ensures live { result.fault ≡ None → IsTrue reader.new.live }
    ensures cut { result.fault ≡ None → IsCutTermed (all_kept reader.new) }
    ensures write_cause { result.fault ≡ Some fault.Write
        → Rose (G.Sink.told guest.old).faults (G.Sink.told guest.new).faults }
    ensures writes { SinkSteps (G.Sink.told guest.old) (G.Sink.told guest.new) }
    ensures unread { G.Source.told guest.new ≡ G.Source.told guest.old }
{
    let mut commands = 0;
    let mut rest = piece;
    while !rest.is_empty() {
        let (n, served) = serve_next(agent, guest, reader, rest);
        commands += served.commands;
        if let Some(fault) = served.fault {
            let fault = Some(fault);
            return Served { commands, fault };
        }
        rest = &rest[n..];
    }
    Served {
        commands,
        fault: None,
    }
}

// Carries out and answers the first command that ends in the piece, and says how many bytes it took.
fn serve_next<G: Guest>(
    agent: &mut FencedAgent,
    guest: &mut G,
    reader: &mut TermedReader,
    piece: &[u8],
) -> (usize, Served)
    requires live { IsTrue reader.old.live }
    requires some { 0 < length piece.now }
    ensures taken { (0 < result.0) × (result.0 ≤ length piece.now) }
    ensures carried { CarriesOut agent.old agent.new
        (all_kept reader.old ++ take result.0 piece.now) result.1
        (λ rest. rest ≡ all_kept reader.new)
        (G.Sink.told guest.old).written (G.Sink.told guest.new).written }
    ensures few { result.1.commands ≤ 1 }
    ensures own { IfSome result.1.fault IsOwnFault }
    ensures live { result.1.fault ≡ None → IsTrue reader.new.live }
    ensures cut { result.1.fault ≡ None → IsCutTermed (all_kept reader.new) }
    ensures write_cause { result.1.fault ≡ Some fault.Write
        → Rose (G.Sink.told guest.old).faults (G.Sink.told guest.new).faults }
    ensures writes { SinkSteps (G.Sink.told guest.old) (G.Sink.told guest.new) }
    ensures unread { G.Source.told guest.new ≡ G.Source.told guest.old }
{
    match reader.feed(piece) {
        Ok((n, Some(frame))) => (n, answer(agent, guest, &frame)),
        Ok((n, None)) => (
            n,
            Served {
                commands: 0,
                fault: None,
            },
        ),
        Err(fault) => {
            let fault = Some(ServeFault::Frame(fault));
            (piece.len(), Served { commands: 0, fault })
        }
    }
}

// Carries out a command and answers it.
fn answer<G: Guest>(agent: &mut FencedAgent, guest: &mut G, frame: &TermedFrame) -> Served
    requires { IsTermedCommand frame.now }
    ensures carried { CarriesOut agent.old agent.new (termed_bytes frame.now) result
        (λ rest. rest ≡ []) (G.Sink.told guest.old).written (G.Sink.told guest.new).written }
    ensures few { result.commands ≤ 1 }
    ensures own { IfSome result.fault IsOwnFault }
    ensures write_cause { result.fault ≡ Some fault.Write
        → Rose (G.Sink.told guest.old).faults (G.Sink.told guest.new).faults }
    ensures writes { SinkSteps (G.Sink.told guest.old) (G.Sink.told guest.new) }
    ensures unread { G.Source.told guest.new ≡ G.Source.told guest.old }
{
    let reply = match carry_out(agent, frame) {
        Ok(reply) => reply,
        Err(_) => {
            let fault = Some(ServeFault::Memory);
            return Served { commands: 0, fault };
        }
    };
    let fault = match write_all(guest, reply.bytes()) {
        Ok(()) => None,
        Err(_) => Some(ServeFault::Write),
    };
    Served { commands: 1, fault }
}
