//! The batches of a part that was read, put into an agent.
ghost use Rattle.std.specs.Prelude.{◌≡◌, ◌<◌, ◌+◌, None, true, length, drop, take, IfErr, IfOk, IfSome, OnOk};
ghost use Rattle.agent_state.specs.Opened as opened;
ghost use Rattle.agent_state.specs.Opened.{BeginsWith, HasFloor, IsMidway, Restores, RestoresBatch, Walks};
ghost use Rattle.agent_state.specs.Stored.{nothing_yet};
ghost use Rattle.fenced_agent.specs.Agents.{fenced_holding, restored};

use crate::fault::StateFault;
use disk_model::bytes::{byte_in, from_place, number_of_4};
use fenced_agent::FencedAgent;
use fenced_wire::{FENCE_LEN, write_fence};
use lists::Memory;
use wire_frames::{Command, CommandReader};

const OPEN_GATE: u8 = 0x47;

/// Puts each batch of a part into an agent that holds nothing, and finds the gate after them.
pub(crate) fn walk(part: &[u8], agent: &mut FencedAgent) -> Result<usize, StateFault>
    requires some { 0 < length part.now }
    requires nothing { fenced_holding agent.old ≡ nothing_yet }
    ensures walks { IfOk result (λ gate. Walks part.now gate (fenced_holding agent.new)) }
    ensures ends { IfOk result (λ gate. opened.batch_at part.now gate ≡ None) }
    ensures stops { IfErr result IsMidway }
{
    let mut gate = 0;
    let mut number = 0;
    while let Some(size) = batch_at(part, gate) {
        let batch = piece(part, gate + 5, size);
        if !restore_batch(batch, agent)? {
            return Err(StateFault::Damaged(number));
        }
        gate += 5 + size;
        number = next_number(number);
    }
    Ok(gate)
}

// How many bytes the batch after a gate has, where the gate is open and the batch whole.
fn batch_at(part: &[u8], gate: usize) -> Option<usize>
    requires { gate < length part.now }
    ensures size { result ≡ opened.batch_at part.now gate }
    ensures within { IfSome result (λ size. gate + 5 + size < length part.now) }
{
    let rest = from_place(part, gate + 1);
    let size = number_of_4(rest) as usize;
    if byte_in(part, gate) == OPEN_GATE && 4 + size < rest.len() {
        Some(size)
    } else {
        None
    }
}

// So many bytes from a place on.
fn piece(bytes: &[u8], place: usize, size: usize) -> &[u8]
    requires { place + size < length bytes.now }
    ensures { result.now ≡ take size (drop place bytes.now) }
{
    &bytes[place..place + size]
}

fn next_number(number: u32) -> u32 {
    number.saturating_add(1)
}

// Puts a batch into an agent, and says whether its bytes are those of a floor and of commands.
#[tactic(auto, using(crate::proofs::Walked::restores_plain, crate::proofs::Walked::restores_under))]
fn restore_batch(bytes: &[u8], agent: &mut FencedAgent) -> Result<bool, Memory>
    ensures { IfOk result
        (λ whole. whole ≡ true
        → RestoresBatch (fenced_holding agent.old) (fenced_holding agent.new) bytes.now) }
{
    let Some(floor) = floor_in(bytes) else {
        let whole = restore_all(bytes, agent)?;
        return Ok(whole);
    };
    agent.restore_floor(floor);
    let behind = from_place(bytes, FENCE_LEN);
    let whole = restore_all(behind, agent)?;
    Ok(whole)
}

// The floor in front of these bytes, where one stands there.
#[tactic(auto, using(crate::proofs::Walked::has_floor))]
fn floor_in(bytes: &[u8]) -> Option<u32>
    ensures { IfSome result (λ floor. HasFloor floor bytes.now) }
{
    let floor = number_of_4(from_place(bytes, 1));
    let front = write_fence(floor);
    if bytes.len() < FENCE_LEN {
        return None;
    }
    if bytes[..FENCE_LEN] == front[..] {
        return Some(floor);
    }
    None
}

// Puts the commands of a batch into an agent, and says whether its bytes are those of commands.
#[tactic(auto, using(crate::proofs::Walked::restores_none, crate::proofs::Walked::restores_all))]
fn restore_all(bytes: &[u8], agent: &mut FencedAgent) -> Result<bool, Memory>
    ensures { IfOk result
        (λ whole. whole ≡ true
        → Restores (fenced_holding agent.old) (fenced_holding agent.new) bytes.now) }
{
    let mut rest = bytes;
    while !rest.is_empty() {
        let Some(found) = first_command(rest) else {
            return Ok(false);
        };
        restore_found(agent, &found)?;
        rest = &rest[found.0..];
    }
    Ok(true)
}

// Puts a command that was found, of this migration, into an agent.
fn restore_found(agent: &mut FencedAgent, found: &(usize, u32, Command)) -> Result<(), Memory>
    ensures { OnOk result
        (fenced_holding agent.new
        ≡ restored (fenced_holding agent.old) (found.now.1, found.now.2)) }
{
    agent.restore(found.1, &found.2)?;
    Ok(())
}

// The command at the front of these bytes, its migration, and how many bytes it has.
fn first_command(bytes: &[u8]) -> Option<(usize, u32, Command)>
    ensures { IfSome result (λ found. BeginsWith bytes.now found.0 (found.1, found.2)) }
{
    let mut reader = CommandReader::new();
    match reader.feed(bytes) {
        Ok((taken, Some((migration, command)))) => Some((taken, migration, command)),
        _ => None,
    }
}
