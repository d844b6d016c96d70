//! The command `agent`, over the guests of a fleet.

ghost use Rattle.std.specs.Prelude.{◌≡◌, ◌≢◌, Ok, IfOk};
ghost use Rattle.agent_service.specs.Services.{guests_of};
ghost use Rattle.wan_edge.specs.Streams.{Rose};
ghost use Rattle.wan_edge.specs.Fleets.{PortsStay};
ghost use Rattle.swanroll_top.specs.Agents.{EndsOwn, RunsAgent, service_line};
ghost use Rattle.text_commands.specs.Runs.{Follows};

use agent_service::{Service, ServiceFault, serve_guests};
use lists::{Memory, Text};
use std::alloc::Global;
use text_commands::{CommandEnd, write_text};
use wan_edge::{Fleet, Sink};

/// One agent serves this many guests of the fleet, up to 64 at once and under one floor, or fewer where no more
/// come, and a line says how many were served or refused, how many commands were carried out, and how many were
/// refused.
pub fn agent<K: Sink, F: Fleet>(
    alloc: Global,
    guests: u32,
    fleet: &mut F,
    sink: &mut K,
) -> CommandEnd
    ensures runs { RunsAgent (record { source = F.Guest.Source.told; sink = F.Guest.Sink.told })
        guests (guests_of (F.told fleet.old)) (guests_of (F.told fleet.new)) result
        (K.told sink.old).written (K.told sink.new).written }
    ensures guest_fault { result ≡ CommandEnd.GuestFault
        → Rose (F.told fleet.old).faults (F.told fleet.new).faults }
    ensures write_fault { result ≡ CommandEnd.WriteFault
        → Rose (K.told sink.old).faults (K.told sink.new).faults }
    ensures visiting { (F.told fleet.new).visiting ≡ (F.told fleet.old).visiting }
    ensures ports { PortsStay (F.told fleet.old) (F.told fleet.new) }
    ensures others { (result ≢ CommandEnd.Usage)
        × (result ≢ CommandEnd.ReadFault)
        × (result ≢ CommandEnd.DiskFault) }
{
    match serve_guests(alloc, fleet, guests) {
        Ok(service) => write_service(alloc, &service, sink),
        Err(ServiceFault::Fleet) => CommandEnd::GuestFault,
        Err(ServiceFault::Memory) => CommandEnd::OutOfMemory,
    }
}

pub(crate) fn write_service<K: Sink>(alloc: Global, service: &Service, sink: &mut K) -> CommandEnd
    ensures own { EndsOwn result }
    ensures follows { Follows (Ok (service_line service.now)) result (K.told sink.old).written
        (K.told sink.new).written }
    ensures cause { result ≡ CommandEnd.WriteFault
        → Rose (K.told sink.old).faults (K.told sink.new).faults }
{
    match line_of(alloc, service) {
        Ok(line) => write_text(sink, line.as_str()),
        Err(_) => CommandEnd::OutOfMemory,
    }
}

fn line_of(alloc: Global, service: &Service) -> Result<Text, Memory>
    ensures { IfOk result (λ text. text ≡ service_line service.now) }
{
    let guests = service.guests;
    let commands = service.commands;
    let refused = service.refused;
    let line = format!(in alloc;
        "agent: guests {guests}, commands {commands}, refused {refused}\n"
    )?;
    Ok(Text::from(line))
}
