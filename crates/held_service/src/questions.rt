//! The questions about items, as bytes.
ghost use Rattle.std.specs.Prelude.{◌≡◌, ◌<◌, ◌^◌, ◌++◌, All, IfOk, OnOk};
ghost use Rattle.wan_edge.specs.Frames.{command_bytes};
ghost use Rattle.held_service.specs.Questions as spec;

use lists::Memory;
use std::alloc::Global;
use wan_edge::Nums8;
use wire_frames::{COMMAND_LEN, Command, write_command};

/// The bytes of the questions of a migration about these items, one after the other.
pub(crate) fn question_bytes(alloc: Global, migration: u32, items: &[u32]) -> Result<Nums8, Memory>
    ensures { IfOk result (λ bytes. bytes ≡ spec.question_bytes migration items.now) }
{
    let mut bytes = Nums8::new(alloc);
    for &item in items {
        add_question(migration, item, &mut bytes)?;
    }
    Ok(bytes)
}

fn add_question(migration: u32, item: u32, bytes: &mut Nums8) -> Result<(), Memory>
    ensures { OnOk result (bytes.new ≡ bytes.old ++ command_bytes (spec.question migration item)) }
{
    let command = question(item);
    let mut frame = [0; COMMAND_LEN];
    let len = write_command(&command, migration, &mut frame);
    bytes.extend_from_slice(&frame[..len])?;
    Ok(())
}

// What is asked about an item: a command with number 0, which no switch applies in any migration. It has the
// least content that there is.
fn question(item: u32) -> Command
    ensures { result ≡ spec.question_of item }
{
    Command {
        item,
        number: 0,
        scale: 1,
        count: 1,
        rates: [0; 16],
    }
}

/// The migration and the number of each item fit into a frame.
pub(crate) fn fit_frames(migration: u32, items: &[u32])
    ensures migration { migration < 2 ^ 32 }
    ensures items { All (λ n. n < 2 ^ 32) items.now }
{
    let _ = items.len();
}
