//! The serving of one guest, whose bytes are standard input.
use crate::printing::{print_number, print_words};
use anyhow::Result;
use lossy_link::MemoryGuest;
use std::alloc::Global;
use std::io::Read;
use switch_agent::{Agent, ReadState, ServeFault, Served, serve_read};
use wan_edge::{MemorySink, MemorySource, Nums8, Turns};
use wire_frames::FrameFault;

/// Prints the answers' bytes, how many commands were carried out, and why it ended.
pub(crate) fn measure(rt: &HostRuntime) -> Result<()> {
    let mut guest = all_input(rt)?;
    let served = serve_anew(rt.alloc(), &mut guest);
    let printed = print_answers(rt, &guest);
    drop(guest);
    printed?;
    println!(rt; "commands {}", served.commands)?;
    print(rt, served.fault)
}

// The guest that says what standard input has.
fn all_input(rt: &HostRuntime) -> Result<MemoryGuest> {
    let alloc = rt.alloc();
    let source = MemorySource::new(all_bytes(rt)?, Turns::new(alloc));
    Ok(MemoryGuest::new(source, MemorySink::new(alloc, Turns::new(alloc))))
}

fn serve_anew(alloc: Global, guest: &mut MemoryGuest) -> Served {
    let mut agent = Agent::new(alloc);
    let served = serve(&mut agent, guest);
    drop(agent);
    served
}

fn print_answers(rt: &HostRuntime, guest: &MemoryGuest) -> Result<()> {
    let answers = hex::encode(rt.alloc(), guest.written())?;
    println!(rt; "{answers}")?;
    Ok(())
}

// Reads the guest until there is no more of it to read. It says 100,000,000 bytes at most.
fn serve(agent: &mut Agent, guest: &mut MemoryGuest) -> Served {
    let mut commands: u64 = 0;
    let mut talk = ReadState::new();
    for _ in 0..u64::MAX {
        let heard = serve_read(agent, guest, talk);
        commands = commands.saturating_add(heard.served.commands);
        let fault = heard.served.fault;
        match heard.talk {
            Some(next) => talk = next,
            None => return Served { commands, fault },
        }
    }
    let fault = Some(ServeFault::Long);
    Served { commands, fault }
}

fn all_bytes(rt: &HostRuntime) -> Result<Nums8> {
    let mut given = Vec::new(rt.alloc());
    rt.stdin().read_to_end(&mut given)?;
    let mut bytes = Nums8::new(rt.alloc());
    bytes.extend_from_slice(&given)?;
    Ok(bytes)
}

fn print(rt: &HostRuntime, fault: Option<ServeFault>) -> Result<()> {
    match fault {
        None => print_words(rt, "none"),
        Some(ServeFault::Frame(fault)) => print_frame_fault(rt, fault),
        Some(ServeFault::Read) => print_words(rt, "read"),
        Some(ServeFault::Write) => print_words(rt, "write"),
        Some(ServeFault::Long) => print_words(rt, "long"),
        Some(ServeFault::Memory) => print_words(rt, "memory"),
    }
}

fn print_frame_fault(rt: &HostRuntime, fault: FrameFault) -> Result<()> {
    match fault {
        FrameFault::Kind(byte) => print_number(rt, "frame kind", u64::from(byte)),
        FrameFault::Count(byte) => print_number(rt, "frame count", u64::from(byte)),
    }
}
