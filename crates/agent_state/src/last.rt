//! The floor of an agent and the commands that it carried out last, as bytes.
ghost use Rattle.std.specs.Prelude.{◌≡◌, ◌++◌, ◌<◌, ◌^◌, nat_eq, All, IfOk, OnOk};
ghost use Rattle.std.specs.List.{IsDistinct, flat_map};
ghost use Rattle.std.specs.Map.{keys_of};
ghost use Rattle.agent_state.specs.Stored.{AddsBytes, AreBytes, IsBatch, kept_floor, last_batch, last_commands, last_of};
ghost use Rattle.fenced_agent.specs.Frames.{fence_bytes};
ghost use Rattle.wan_edge.specs.Frames.{IsCommand, command_bytes};

use fenced_agent::FencedAgent;
use fenced_wire::write_fence;
use lists::Memory;
use std::alloc::Global;
use switch_agent::Agent;
use wire_frames::{COMMAND_LEN, Command, write_command};

/// The bytes of the floor, where it isn't 0, and of the command of each item that was carried out last.
pub(crate) fn last_bytes(alloc: Global, agent: &FencedAgent) -> Result<Vec<u8>, Memory>
    ensures bytes { IfOk result (λ bytes. IsBatch (last_batch agent.now) bytes.items) }
    ensures apart { IsDistinct nat_eq (keys_of agent.now.items) }
{
    agent.keeps_few_items();
    let mut bytes = floor_bytes(alloc, agent.floor())?;
    add_lasts(&mut bytes, agent.agent())?;
    Ok(bytes)
}

// The bytes of a floor that isn't 0.
fn floor_bytes(alloc: Global, floor: u32) -> Result<Vec<u8>, Memory>
    ensures bytes { IfOk result (λ bytes. bytes.items ≡ fence_bytes (kept_floor floor)) }
    ensures small { floor < 2 ^ 32 }
{
    let mut bytes = Vec::new(alloc);
    if floor == 0 {
        return Ok(bytes);
    }
    bytes.extend_from_slice(&write_fence(floor))?;
    Ok(bytes)
}

// Adds the bytes of the command of each item that was carried out last.
fn add_lasts(bytes: &mut Vec<u8>, agent: &Agent) -> Result<(), Memory>
    ensures { OnOk result (AddsBytes (last_commands agent.now) bytes.old.items bytes.new.items) }
{
    agent.keeps_few_items();
    let mut place = 0;
    while let Some(entry) = agent.entry_at(place) {
        add_last(bytes, entry.0, &entry.1)?;
        place += 1;
    }
    Ok(())
}

// Adds the bytes of an item's command, where one was carried out.
fn add_last(bytes: &mut Vec<u8>, item: u32, last: &Option<(u32, Command)>) -> Result<(), Memory>
    ensures bytes { OnOk result
        (bytes.new.items ≡ bytes.old.items ++ flat_map command_bytes (last_of item last.now)) }
    ensures fit { AreBytes (last_of item last.now)
        (flat_map command_bytes (last_of item last.now)) }
{
    match last {
        Some((migration, command)) => add_command(bytes, *migration, &of_item(item, command)),
        None => Ok(()),
    }
}

fn of_item(item: u32, command: &Command) -> Command
    ensures { result ≡ record command.now { item = item } }
{
    Command { item, ..*command }
}

fn add_command(bytes: &mut Vec<u8>, migration: u32, command: &Command) -> Result<(), Memory>
    ensures bytes { OnOk result
        (bytes.new.items ≡ bytes.old.items ++ command_bytes (migration, command.now)) }
    ensures fits { IsCommand (migration, command.now) }
{
    fits_frame(migration, command);
    let mut frame = [0; COMMAND_LEN];
    let len = write_command(command, migration, &mut frame);
    bytes.extend_from_slice(&frame[..len])?;
    Ok(())
}

// A command has a frame, whatever its migration.
fn fits_frame(migration: u32, command: &Command)
    ensures { IsCommand (migration, command.now) }
{
    fit_numbers(migration, command.item, command.number, command.scale);
    fit_rates(&command.rates);
}

// The numbers of a frame are within their widths.
fn fit_numbers(migration: u32, item: u32, number: u32, scale: u32)
    ensures migration { migration < 2 ^ 32 }
    ensures item { item < 2 ^ 32 }
    ensures number { number < 2 ^ 32 }
    ensures scale { scale < 2 ^ 32 }
{}

// And so is each rate.
fn fit_rates(rates: &[u64])
    ensures { All (λ rate. rate < 2 ^ 64) rates.now }
{
    let _ = rates.len();
}
