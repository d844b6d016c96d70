//! A guest that fails: what it was answered before, and what the agent holds then.
use lossy_link::MemoryGuest;
use std::alloc::Global;
use std::test::Fail;
use switch_agent::{Agent, ReadState, ServeFault, Served, serve_read};
use wan_edge::{MemorySink, MemorySource, Nums8, Turns};

// Operations 1 and 2 of item 3 in migration 0. An answer has 13 bytes.
fn commands() -> &'static [u8] {
    b"M\0\0\0\0\0\0\0\x03\0\0\0\x01\0\0\0\x02\x01\0\0\0\0\0\0\0\x06M\0\0\0\0\0\0\0\x03\0\0\0\x02\0\0\0\x02\x01\0\0\0\0\0\0\0\x05"
}

// A guest that says these, of whom the reads and the writes with these numbers fail.
fn failing(alloc: Global, reads: &[u64], writes: &[u64]) -> Result<MemoryGuest, Fail> {
    let mut bytes = Nums8::new(alloc);
    bytes.extend_from_slice(commands())?;
    let mut failing_reads = Turns::new(alloc);
    failing_reads.extend_from_slice(reads)?;
    let mut failing_writes = Turns::new(alloc);
    failing_writes.extend_from_slice(writes)?;
    Ok(MemoryGuest::new(
        MemorySource::new(bytes, failing_reads),
        MemorySink::new(alloc, failing_writes),
    ))
}

// What comes of the first read of a guest, and of the second where there is one: all commands, and the fault.
fn read_twice(agent: &mut Agent, guest: &mut MemoryGuest) -> Served {
    let first = serve_read(agent, guest, ReadState::new());
    let commands = first.served.commands;
    let fault = first.served.fault;
    match first.talk {
        Some(talk) => Served {
            commands,
            fault: serve_read(agent, guest, talk).served.fault,
        },
        None => Served { commands, fault },
    }
}

// How serving the guest ends, and how many bytes it was answered.
fn serve_guest(alloc: Global, guest: MemoryGuest) -> (Served, usize, bool) {
    let mut agent = Agent::new(alloc);
    let mut guest = guest;
    let served = read_twice(&mut agent, &mut guest);
    let holds = agent.content(3) == Some([5].as_slice());
    (served, guest.written().len(), holds)
}

#[test]
fn what_came_before_a_failing_read_was_answered(rt: HostRuntime) -> Result<(), Fail> {
    let guest = failing(rt.alloc(), &[1], &[])?;
    let fault = Some(ServeFault::Read);
    assert_eq!(rt;
        serve_guest(rt.alloc(), guest),
        (Served { commands: 2, fault }, 26, true)
    );
    Ok(())
}

#[test]
fn what_a_failing_write_was_to_answer_is_held(rt: HostRuntime) -> Result<(), Fail> {
    let guest = failing(rt.alloc(), &[], &[1])?;
    let fault = Some(ServeFault::Write);
    assert_eq!(rt;
        serve_guest(rt.alloc(), guest),
        (Served { commands: 2, fault }, 13, true)
    );
    Ok(())
}
