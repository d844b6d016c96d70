//! Guests whose commands name terms, read by one agent.

use agent_talks::{Talk, serve_read};
use fenced_agent::FencedAgent;
use lossy_link::MemoryGuest;
use std::alloc::Global;
use std::test::Fail;
use switch_agent::{Agent, ServeFault, Served};
use wan_edge::{MemorySink, MemorySource, Nums8, Turns};
use wire_frames::FrameFault;

// A probe of term 2, a command without a term, one of term 2, and a late one of term 1, each of item 0.
const PROBE: &[u8] = b"F\0\0\0\x02M\0\0\0\0\0\0\0\0\0\0\0\0\0\0\0\x01\x01\0\0\0\0\0\0\0\0";

const PLAIN: &[u8] = b"M\0\0\0\0\0\0\0\0\0\0\0\x01\0\0\0\x01\x01\0\0\0\0\0\0\0\0";

const OWN: &[u8] = b"F\0\0\0\x02M\0\0\0\0\0\0\0\0\0\0\0\x01\0\0\0\x01\x01\0\0\0\0\0\0\0\0";

const LATE: &[u8] = b"F\0\0\0\x01M\0\0\0\0\0\0\0\0\0\0\0\x02\0\0\0\x01\x01\0\0\0\0\0\0\0\0";

// A guest that says this.
fn guest(alloc: Global, says: &[&[u8]]) -> Result<MemoryGuest, Fail> {
    let mut bytes = Nums8::new(alloc);
    for said in says {
        bytes.extend_from_slice(said)?;
    }
    Ok(MemoryGuest::new(
        MemorySource::new(bytes, Turns::new(alloc)),
        MemorySink::new(alloc, Turns::new(alloc)),
    ))
}

// Whether a read of a guest comes to this.
fn is_served(agent: &mut FencedAgent, guest: &mut MemoryGuest, served: Served) -> bool {
    let heard = serve_read(agent, guest, Talk::new());
    let is_served = heard.served == served;
    drop(heard);
    is_served
}

// Whether a new agent, once a guest has said this, has told it that, and has this floor.
fn serves(
    alloc: Global,
    says: &[&[u8]],
    served: Served,
    told: &[u8],
    floor: u32,
) -> Result<bool, Fail> {
    let mut guest = guest(alloc, says)?;
    let mut agent = FencedAgent::new(Agent::new(alloc));
    let is_served = is_served(&mut agent, &mut guest, served);
    let is_told = guest.written() == told;
    let is_raised = agent.floor() == floor;
    drop(agent);
    drop(guest);
    Ok(is_served && is_told && is_raised)
}

// What a guest that says this is told by an agent.
fn told_by(
    agent: &mut FencedAgent,
    alloc: Global,
    says: &[&[u8]],
    told: &[u8],
) -> Result<bool, Fail> {
    let mut guest = guest(alloc, says)?;
    drop(serve_read(agent, &mut guest, Talk::new()));
    let is_told = guest.written() == told;
    drop(guest);
    Ok(is_told)
}

fn both_are_told(agent: &mut FencedAgent, alloc: Global) -> Result<bool, Fail> {
    let first = told_by(agent, alloc, &[PROBE], FENCED)?;
    let second = told_by(agent, alloc, &[PLAIN, LATE], BEHIND)?;
    Ok(first && second)
}

fn two_guests_are_told(alloc: Global) -> Result<bool, Fail> {
    let mut agent = FencedAgent::new(Agent::new(alloc));
    let told = both_are_told(&mut agent, alloc);
    drop(agent);
    told
}

// The answers to all four frames, to the probe alone, to a plain command and a late one after it, and to the plain one.
const ALL: &[u8] =
    b"F\0\0\0\x02N\0\0\0\0\0\0\0\0\0\0\0\0N\0\0\0\0\0\0\0\0\0\0\0\0F\0\0\0\x02N\0\0\0\0\0\0\0\0\0\0\0\x01F\0\0\0\x02N\0\0\0\0\0\0\0\0\0\0\0\x01";

const FENCED: &[u8] = b"F\0\0\0\x02N\0\0\0\0\0\0\0\0\0\0\0\0";

const BEHIND: &[u8] = b"N\0\0\0\0\0\0\0\0\0\0\0\0F\0\0\0\x02N\0\0\0\0\0\0\0\0\0\0\0\0";

const APPLIED: &[u8] = b"N\0\0\0\0\0\0\0\0\0\0\0\x01";

fn none_is_wrong(commands: u64) -> Served {
    Served {
        commands,
        fault: None,
    }
}

// One command was carried out, and the byte F begins none.
fn broken_by_a_head() -> Served {
    Served {
        commands: 1,
        fault: Some(ServeFault::Frame(FrameFault::Kind(0x46))),
    }
}

#[test]
fn a_fenced_agent_answers_each_frame_in_its_form(rt: HostRuntime) -> Result<(), Fail> {
    assert!(rt;
        serves(
            rt.alloc(),
            &[PROBE, PLAIN, OWN, LATE],
            none_is_wrong(4),
            ALL,
            2
        )?
    );
    Ok(())
}

#[test]
fn a_floor_that_one_guest_raised_holds_for_the_other(rt: HostRuntime) -> Result<(), Fail> {
    assert!(rt; two_guests_are_told(rt.alloc())?);
    Ok(())
}

#[test]
fn what_is_no_command_behind_a_term_raises_no_floor(rt: HostRuntime) -> Result<(), Fail> {
    let says = &[PLAIN, b"F\0\0\0\x03F"];
    assert!(rt; serves(rt.alloc(), says, broken_by_a_head(), APPLIED, 0)?);
    Ok(())
}
