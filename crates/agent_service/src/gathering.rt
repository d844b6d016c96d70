//! What one read of commands makes of an agent in memory: the answers, and the batch for its disk.
ghost use Rattle.std.specs.Prelude.{◌≡◌, ◌≢◌, ◌<◌, ◌≤◌, ◌++◌, ◌^◌, [], length, take, None, Some, IfOk, IfSome, IsTrue, OnOk, if◌then◌else◌};
ghost use Rattle.agent_service.specs.Keeping.{Stores, StoresAll, raised};
ghost use Rattle.agent_talks.specs.Serving.{CarriesOut, IsCutTermed, reply_bytes};
ghost use Rattle.fenced_agent.specs.Agents.{fenced_holding};
ghost use Rattle.fenced_agent.specs.Frames.{IsTermedCommand, fence_bytes, termed_bytes};
ghost use Rattle.fenced_wire.specs.Reading.{all_kept};
ghost use Rattle.switch_agent.specs.Serving.{IsOwnFault};
ghost use Rattle.switch_agent.specs.declared.serve_fault.ServeFault.TheVariants as fault;
ghost use Rattle.wan_edge.specs.Frames.{command_bytes};

use agent_talks::{Reply, carry_out, takes};
use fenced_agent::FencedAgent;
use fenced_wire::{TermedFrame, TermedReader, write_fence};
use lists::Memory;
use std::alloc::Global;
use switch_agent::{ServeFault, Served};
use wire_frames::{COMMAND_LEN, Command, write_command};

/// The bytes of the answers to a read of commands, and those of the commands that changed something.
#[derive(Drop)]
pub(crate) struct Gathered {
    pub answers: Vec<u8>,
    pub batch: Vec<u8>,
}

impl Gathered {
    pub(crate) fn new(alloc: Global) -> Self
        ensures answers { result.answers.items ≡ [] }
        ensures batch { result.batch.items ≡ [] }
    {
        Gathered {
            answers: Vec::new(alloc),
            batch: Vec::new(alloc),
        }
    }
}

/// Carries out the commands that end in the piece, in memory alone, and makes the batch of what they changed,
/// with the floor in front where it was raised.
pub(crate) fn gather_batch(
    alloc: Global,
    agent: &mut FencedAgent,
    reader: &mut TermedReader,
    piece: &[u8],
    gathered: &mut Gathered,
) -> Result<Served, Memory>
    requires live { IsTrue reader.old.live }
    requires cut { IsCutTermed (all_kept reader.old) }
    requires empty { gathered.old.batch.items ≡ [] }
    ensures carried { IfOk result
        (λ served. CarriesOut agent.old agent.new (all_kept reader.old ++ piece.now) served
        (λ rest. rest ≡ all_kept reader.new) (Some gathered.old.answers.items)
        (Some gathered.new.answers.items)) }
    ensures stored { OnOk result
        (StoresAll (fenced_holding agent.old) (fenced_holding agent.new)
        gathered.new.batch.items) }
    ensures few { IfOk result (λ served. served.commands ≤ length piece.now) }
    ensures own { IfOk result (λ served. IfSome served.fault IsOwnFault) }
    ensures unwritten { IfOk result (λ served. served.fault ≢ Some fault.Write) }
    ensures live { IfOk result (λ served. served.fault ≡ None → IsTrue reader.new.live) }
    ensures cut { IfOk result
        (λ served. served.fault ≡ None → IsCutTermed (all_kept reader.new)) }
{
    let before = agent.floor();
    let served = gather(agent, reader, piece, gathered)?;
    put_floor(alloc, before, agent.floor(), &mut gathered.batch)?;
    Ok(served)
}

// Puts the floor in front of a batch, where it was raised.
fn put_floor(alloc: Global, before: u32, now: u32, batch: &mut Vec<u8>) -> Result<(), Memory>
    ensures put { OnOk result
        (batch.new.items ≡ fence_bytes (raised before now) ++ batch.old.items) }
    ensures small { now < 2 ^ 32 }
{
    if now == before {
        return Ok(());
    }
    let mut whole = Vec::new(alloc);
    whole.extend_from_slice(&write_fence(now))?;
    whole.extend_from_slice(batch.as_slice())?;
    *batch = whole;
    Ok(())
}

// Carries out the commands that end in the piece, in memory alone.
#[tactic(auto, using(crate::proofs::Batching::stores_none))]
fn gather(
    agent: &mut FencedAgent,
    reader: &mut TermedReader,
    piece: &[u8],
    gathered: &mut Gathered,
) -> Result<Served, Memory>
    requires live { IsTrue reader.old.live }
    requires cut { IsCutTermed (all_kept reader.old) }
    ensures carried { IfOk result
        (λ served. CarriesOut agent.old agent.new (all_kept reader.old ++ piece.now) served
        (λ rest. rest ≡ all_kept reader.new) (Some gathered.old.answers.items)
        (Some gathered.new.answers.items)) }
    ensures stored { OnOk result
        (Stores (fenced_holding agent.old) (fenced_holding agent.new) gathered.old.batch.items
        gathered.new.batch.items) }
    ensures few { IfOk result (λ served. served.commands ≤ length piece.now) }
    ensures own { IfOk result (λ served. IfSome served.fault IsOwnFault) }
    ensures unwritten { IfOk result (λ served. served.fault ≢ Some fault.Write) }
    ensures live { IfOk result (λ served. served.fault ≡ None → IsTrue reader.new.live) }
    ensures cut { IfOk result (λ served. served.fault ≡ None → IsCutTermed (all_kept reader.new)) }
{
    let mut commands = 0;
    let mut rest = piece;
    while !rest.is_empty() {
        let next = gather_next(agent, reader, rest, gathered)?;
        commands += next.1.commands;
        if let Some(fault) = next.1.fault {
            let fault = Some(fault);
            return Ok(Served { commands, fault });
        }
        rest = &rest[next.0..];
    }
    Ok(Served {
        commands,
        fault: None,
    })
}

// Carries out the first command that ends in the piece, and says how many bytes it took.
fn gather_next(
    agent: &mut FencedAgent,
    reader: &mut TermedReader,
    piece: &[u8],
    gathered: &mut Gathered,
) -> Result<(usize, Served), Memory>
    requires live { IsTrue reader.old.live }
    requires some { 0 < length piece.now }
    ensures taken { IfOk result (λ next. (0 < next.0) × (next.0 ≤ length piece.now)) }
    ensures carried { IfOk result
        (λ next. CarriesOut agent.old agent.new
        (all_kept reader.old ++ take next.0 piece.now) next.1 (λ rest. rest ≡ all_kept reader.new)
        (Some gathered.old.answers.items) (Some gathered.new.answers.items)) }
    ensures stored { OnOk result
        (Stores (fenced_holding agent.old) (fenced_holding agent.new) gathered.old.batch.items
        gathered.new.batch.items) }
    ensures few { IfOk result (λ next. next.1.commands ≤ 1) }
    ensures own { IfOk result (λ next. IfSome next.1.fault IsOwnFault) }
    ensures unwritten { IfOk result (λ next. next.1.fault ≢ Some fault.Write) }
    ensures live { IfOk result (λ next. next.1.fault ≡ None → IsTrue reader.new.live) }
    ensures cut { IfOk result (λ next. next.1.fault ≡ None → IsCutTermed (all_kept reader.new)) }
{
    match reader.feed(piece) {
        Ok((n, Some(frame))) => {
            let served = carry(agent, &frame, gathered)?;
            Ok((n, served))
        }
        Ok((n, None)) => Ok((
            n,
            Served {
                commands: 0,
                fault: None,
            },
        )),
        Err(fault) => {
            let fault = Some(ServeFault::Frame(fault));
            Ok((piece.len(), Served { commands: 0, fault }))
        }
    }
}

// Carries out a command.
fn carry(
    agent: &mut FencedAgent,
    frame: &TermedFrame,
    gathered: &mut Gathered,
) -> Result<Served, Memory>
    requires { IsTermedCommand frame.now }
    ensures carried { IfOk result
        (λ served. CarriesOut agent.old agent.new (termed_bytes frame.now) served
        (λ rest. rest ≡ []) (Some gathered.old.answers.items)
        (Some gathered.new.answers.items)) }
    ensures stored { OnOk result
        (Stores (fenced_holding agent.old) (fenced_holding agent.new) gathered.old.batch.items
        gathered.new.batch.items) }
    ensures few { IfOk result (λ served. served.commands ≤ 1) }
    ensures own { IfOk result (λ served. IfSome served.fault IsOwnFault) }
    ensures unwritten { IfOk result (λ served. served.fault ≢ Some fault.Write) }
{
    let takes = takes(agent, frame);
    match carry_out(agent, frame) {
        Ok(reply) => {
            add_carried(gathered, &reply, takes, frame.frame())?;
            Ok(Served {
                commands: 1,
                fault: None,
            })
        }
        Err(_) => Ok(Served {
            commands: 0,
            fault: Some(ServeFault::Memory),
        }),
    }
}

// Adds what a command brings that was carried out: its answer, and its bytes where it changed what is held.
fn add_carried(
    gathered: &mut Gathered,
    reply: &Reply,
    takes: bool,
    command: &(u32, Command),
) -> Result<(), Memory>
    ensures answers { OnOk result
        (gathered.new.answers.items ≡ gathered.old.answers.items ++ reply_bytes reply.now) }
    ensures batch { OnOk result
        (gathered.new.batch.items
        ≡ (if takes
        then gathered.old.batch.items ++ command_bytes command.now
        else gathered.old.batch.items)) }
{
    add_answer(gathered, reply)?;
    add_change(gathered, takes, command)?;
    Ok(())
}

// Adds the bytes of an answer.
fn add_answer(gathered: &mut Gathered, reply: &Reply) -> Result<(), Memory>
    ensures answers { OnOk result
        (gathered.new.answers.items ≡ gathered.old.answers.items ++ reply_bytes reply.now) }
    ensures batch { gathered.new.batch.items ≡ gathered.old.batch.items }
{
    gathered.answers.extend_from_slice(reply.bytes())?;
    Ok(())
}

// Adds the bytes of a command that changed something.
fn add_change(gathered: &mut Gathered, takes: bool, command: &(u32, Command)) -> Result<(), Memory>
    ensures batch { OnOk result
        (gathered.new.batch.items
        ≡ (if takes
        then gathered.old.batch.items ++ command_bytes command.now
        else gathered.old.batch.items)) }
    ensures answers { gathered.new.answers.items ≡ gathered.old.answers.items }
{
    if takes {
        let mut frame = [0; COMMAND_LEN];
        let len = write_command(&command.1, command.0, &mut frame);
        gathered.batch.extend_from_slice(&frame[..len])?;
    }
    Ok(())
}
