//! The command `agent` over a file that keeps what it holds.
ghost use Rattle.std.specs.Prelude.{◌≡◌, ◌⊎◌, IfOk, IfSome, drop, option_map};
ghost use Rattle.wan_edge.specs.Fleets.{PortsStay};
ghost use Rattle.agent_service.specs.KeptServices.{MayBeLeft};
ghost use Rattle.agent_service.specs.Services.{guests_of};
ghost use Rattle.disk_model.specs.Moments.{LeavesOnly};
ghost use Rattle.order_policy.specs.Named.{answers_in};
ghost use Rattle.swanroll_top.specs.KeptAgents.{IsServed, KeepsAgent, guests_in, kept_status};
ghost use Rattle.swanroll_top.specs.Words.{asked, asked_by};

use crate::agent::write_service;
use crate::kept_end::KeptEnd;
use crate::top::Ended;
use crate::words::{Command, command_of};
use agent_service::{KeepFault, keep_guests};
use agent_state::StateFault;
use disk_mirror::Openable;
use order_policy::{Policies, Policy};
use std::alloc::Global;
use text_commands::{CommandEnd, Line, Unread, out_of_memory, words_of};
use wan_edge::{Fleet, Sink, write_all};

// How many bytes the file of an agent may have when it is opened.
const STATE_ROOM: u64 = 2_147_483_648;

/// How many guests the arguments of the program, of which the first is its own name, ask an agent to
/// serve; None where they ask for something else.
pub fn guests_asked(
    arguments: &Result<Vec<String>, Unread>,
    policies: &Policies<Policy>,
) -> Option<u32>
    ensures { IfOk arguments.now
        (λ all. result ≡ guests_in (asked_by (answers_in policies.now) (drop 1 all.items))) }
{
    match arguments {
        Ok(arguments) => guests_of(command_of(words_of(arguments.as_slice()), policies)),
        Err(_) => None,
    }
}

fn guests_of(command: Option<Command<'_>>) -> Option<u32>
    ensures { result ≡ guests_in (option_map asked command.entry) }
{
    match command {
        Some(Command::Agent(guests)) => Some(guests),
        _ => None,
    }
}

/// One agent, which holds what the file on this disk says, serves this many guests of the fleet, several at
/// once, or fewer where no more come, and a line says what came of it, as without a file. What a read of commands changes,
/// and the floor that it raised, is on the disk as one batch before its answers go out. The statuses are those of an agent without a
/// file, and two more: 8, the disk failed; 10, the file is none of an agent's, or is damaged.
pub fn keep_agent<K: Sink, D: Openable, F: Fleet>(
    alloc: Global,
    guests: u32,
    sink: &mut K,
    notes: &mut K,
    mut disk: D,
    fleet: &mut F,
) -> Ended<D>
    ensures keeps { KeepsAgent D.told (record {
      source = F.Guest.Source.told;
      sink = F.Guest.Sink.told;
    }) disk result.disk
        (guests_of (F.told fleet.old)) (guests_of (F.told fleet.new)) guests result.status
        (K.told sink.old).written (K.told sink.new).written }
    ensures visiting { (F.told fleet.new).visiting ≡ (F.told fleet.old).visiting }
    ensures ports { PortsStay (F.told fleet.old) (F.told fleet.new) }
{
    match disk.open(STATE_ROOM) {
        Ok(()) => keep_opened(alloc, guests, sink, notes, disk, fleet),
        Err(_) => Ended {
            status: tell(alloc, notes, KeptEnd::State(StateFault::Disk)),
            disk,
        },
    }
}

fn keep_opened<K: Sink, D: Openable, F: Fleet>(
    alloc: Global,
    guests: u32,
    sink: &mut K,
    notes: &mut K,
    mut disk: D,
    fleet: &mut F,
) -> Ended<D>
    ensures any_moment { IfSome (D.told disk).bytes
        (λ image. LeavesOnly D.told disk result.disk (MayBeLeft (D.told disk).may_leave image)) }
    ensures served { result.status ≡ 0
        → IsServed D.told (record {
          source = F.Guest.Source.told;
          sink = F.Guest.Sink.told;
        }) disk result.disk
        (guests_of (F.told fleet.old)) (guests_of (F.told fleet.new)) guests
        (K.told sink.old).written (K.told sink.new).written }
    ensures visiting { (F.told fleet.new).visiting ≡ (F.told fleet.old).visiting }
    ensures ports { PortsStay (F.told fleet.old) (F.told fleet.new) }
{
    let ending = serve(alloc, guests, sink, &mut disk, fleet);
    let status = tell(alloc, notes, ending);
    Ended { status, disk }
}

fn serve<K: Sink, D: Openable, F: Fleet>(
    alloc: Global,
    guests: u32,
    sink: &mut K,
    disk: &mut D,
    fleet: &mut F,
) -> KeptEnd
    ensures any_moment { IfSome (D.told disk.old).bytes
        (λ image. LeavesOnly D.told disk.old disk.new
        (MayBeLeft (D.told disk.old).may_leave image)) }
    ensures served { kept_status result ≡ 0
        → IsServed D.told (record {
          source = F.Guest.Source.told;
          sink = F.Guest.Sink.told;
        }) disk.old disk.new
        (guests_of (F.told fleet.old)) (guests_of (F.told fleet.new)) guests
        (K.told sink.old).written (K.told sink.new).written }
    ensures visiting { (F.told fleet.new).visiting ≡ (F.told fleet.old).visiting }
    ensures ports { PortsStay (F.told fleet.old) (F.told fleet.new) }
{
    match keep_guests(alloc, fleet, disk, guests) {
        Ok(service) => KeptEnd::Ended(write_service(alloc, &service, sink)),
        Err(KeepFault::Fleet) => KeptEnd::Ended(CommandEnd::GuestFault),
        Err(KeepFault::NoRoom) => KeptEnd::Ended(CommandEnd::OutOfMemory),
        Err(KeepFault::State(why)) => KeptEnd::State(why),
    }
}

// Writes the line of an ending, and answers its status; without memory for the line, that of want of it.
fn tell<K: Sink>(alloc: Global, notes: &mut K, ending: KeptEnd) -> u8
    ensures { (result ≡ kept_status ending) ⊎ (result ≡ 12) }
{
    let line = ending.line(alloc);
    let status = ending.status();
    drop(ending);
    match line {
        Ok(line) => {
            write_line(notes, &line);
            status
        }
        Err(_) => {
            write_line(notes, &out_of_memory());
            12
        }
    }
}

fn write_line<K: Sink>(notes: &mut K, line: &Line) {
    let _ = write_all(notes, line.as_str().as_bytes());
}
