//! Commands over bytes in memory: read in pieces, carried out, and answered.
ghost use Rattle.std.specs.Prelude.{◌<◌};

use crate::checksum::Checksum;
use anyhow::{Result, bail, ensure};
use std::alloc::{AllocError, Global};
use switch_agent::Agent;
use wire_frames::{COMMAND_LEN, Command, CommandReader, write_answer, write_command};

/// So many commands over so many items, whose bytes come in pieces of one length, so many times.
#[derive(Drop)]
pub(crate) struct Load {
    items: u32,
    commands: u32,
    piece: u32,
    times: u32,
    ghost some_items: { 0 < items },
    ghost some_bytes: { 0 < piece },
}

impl Load {
    pub(crate) fn new(items: u32, commands: u32, piece: u32, times: u32) -> Result<Self> {
        ensure!(items > 0, "at least one item");
        ensure!(piece > 0, "at least one byte a piece");
        Ok(Load {
            items,
            commands,
            piece,
            times,
        })
    }
}

/// What came of the commands.
#[derive(Drop)]
struct Tally {
    commands: u64,
    answers: Checksum,
}

/// Makes the bytes once, and reads them from the first to the last each time, with a new reader and a
/// new agent. Prints how many commands there were in all, and a checksum of the answers.
pub(crate) fn measure(rt: &HostRuntime, load: &Load) -> Result<()> {
    let bytes = all_bytes(rt.alloc(), load)?;
    let tally = tally_of(rt.alloc(), &bytes, load);
    drop(bytes);
    let tally = tally?;
    let sum = tally.answers.value();
    println!(rt; "commands {}, checksum {sum:016x}", tally.commands)?;
    Ok(())
}

fn tally_of(alloc: Global, bytes: &[u8], load: &Load) -> Result<Tally> {
    let mut tally = Tally {
        commands: 0,
        answers: Checksum::new(),
    };
    for _time in 0..load.times {
        answer_all(alloc, bytes, load, &mut tally)?;
    }
    Ok(tally)
}

fn all_bytes(alloc: Global, load: &Load) -> Result<Vec<u8>, AllocError> {
    let mut bytes = Vec::new(alloc);
    for nth in 0..load.commands {
        let mut out = [0; COMMAND_LEN];
        let migration = nth_migration(nth, load.commands);
        let n = write_command(&nth_command(nth, load.items), migration, &mut out);
        bytes.extend_from_slice(&out[..n])?;
    }
    Ok(bytes)
}

// The items take turns, and the numbers of each rise by one.
fn nth_command(nth: u32, items: u32) -> Command
    requires some { 0 < items }
    requires room { nth < 4294967295 }
{
    let rate = u64::from(nth);
    Command {
        item: nth % items,
        number: nth / items + 1,
        scale: 2,
        count: 2,
        rates: [rate, rate, 0, 0, 0, 0, 0, 0, 0, 0, 0, 0, 0, 0, 0, 0],
    }
}

// The first half is of migration 1, and the rest of migration 2.
fn nth_migration(nth: u32, commands: u32) -> u32 {
    if nth < commands / 2 { 1 } else { 2 }
}

fn answer_all(alloc: Global, bytes: &[u8], load: &Load, tally: &mut Tally) -> Result<()> {
    let mut agent = Agent::new(alloc);
    let answered = answer_pieces(&mut agent, bytes, load, tally);
    drop(agent);
    answered
}

fn answer_pieces(agent: &mut Agent, bytes: &[u8], load: &Load, tally: &mut Tally) -> Result<()> {
    let mut reader = CommandReader::new();
    for piece in bytes.chunks(load.piece as usize) {
        answer_piece(agent, &mut reader, piece, tally)?;
    }
    Ok(())
}

// Carries out and answers the commands that end in the piece.
fn answer_piece(
    agent: &mut Agent,
    reader: &mut CommandReader,
    piece: &[u8],
    tally: &mut Tally,
) -> Result<()> {
    let mut rest = piece;
    while reader.live() && !rest.is_empty() {
        let n = match reader.feed(rest) {
            Ok((n, Some((migration, command)))) => {
                let (held, answer) = agent.apply(migration, &command)?;
                tally.answers.add(&write_answer(&answer, held));
                tally.commands = tally.commands.wrapping_add(1);
                n
            }
            Ok((n, None)) => n,
            Err(_) => bail!("the bytes are no commands"),
        };
        rest = &rest[n..];
    }
    Ok(())
}
