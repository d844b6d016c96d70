//! Commands go out, each with a term in front.
ghost use Rattle.std.specs.Prelude.{◌≡◌, ◌<◌, ◌≤◌, [], ◌∷◌, ◌++◌, length, take, IfOk, IsTrue, OnErr, OnOk};
ghost use Rattle.wan_edge.specs.Frames.{command_bytes};
ghost use Rattle.fenced_ports.specs.Framing.{Frames, Sends, SendsFront, with_terms};

use crate::unsent::Unsent;
use fenced_wire::write_fence;
use lists::Memory;
use wan_edge::Port;
use wire_frames::{COMMAND_LEN, Command, CommandReader, write_command};

/// Sends the whole commands that end in these bytes, each with the term in front and all in one call, and keeps
/// what stands after them.
pub(crate) fn send_framed<T: Port>(
    port: &mut T,
    term: u32,
    reader: &mut CommandReader,
    frames: &mut Vec<u8>,
    from: &[u8],
) -> Result<(), Unsent>
    requires { IsTrue reader.old.live }
    ensures ok { OnOk result
        (Sends term reader.old.kept from.now (T.told port.old).offered (T.told port.new).offered
        reader.new.kept) }
    ensures err { OnErr result
        (SendsFront term reader.old.kept from.now (T.told port.old).offered
        (T.told port.new).offered) }
    ensures unheard { (T.told port.new).heard ≡ (T.told port.old).heard }
    ensures live { OnOk result (IsTrue reader.new.live) }
{
    frame_all(reader, term, from, frames)?;
    port.offer(frames.as_slice())?;
    Ok(())
}

// Puts the whole commands that end in these bytes in the place of what stood in `out`.
fn frame_all(
    reader: &mut CommandReader,
    term: u32,
    from: &[u8],
    out: &mut Vec<u8>,
) -> Result<(), Unsent>
    requires { IsTrue reader.old.live }
    ensures ok { OnOk result
        (Frames term (record { kept = reader.old.kept; out = [] }) from.now
        (record { kept = reader.new.kept; out = out.new.items })) }
    ensures live { OnOk result (IsTrue reader.new.live) }
{
    out.clear();
    frame_each(reader, term, from, out)
}

// Adds them.
#[tactic(auto, using(crate::proofs::Framed::frames_whole))]
fn frame_each(
    reader: &mut CommandReader,
    term: u32,
    from: &[u8],
    out: &mut Vec<u8>,
) -> Result<(), Unsent>
    requires { IsTrue reader.old.live }
    ensures ok { OnOk result
        (Frames term (record { kept = reader.old.kept; out = out.old.items }) from.now
        (record { kept = reader.new.kept; out = out.new.items })) }
    ensures live { OnOk result (IsTrue reader.new.live) }
{
    let mut rest = from;
    while !rest.is_empty() {
        let n = frame_next(reader, term, rest, out)?;
        rest = &rest[n..];
    }
    Ok(())
}

// Adds the command that ends first in a piece, if one does, and says how many bytes that took.
fn frame_next(
    reader: &mut CommandReader,
    term: u32,
    piece: &[u8],
    out: &mut Vec<u8>,
) -> Result<usize, Unsent>
    requires live { IsTrue reader.old.live }
    requires some { 0 < length piece.now }
    ensures taken { IfOk result (λ n. (0 < n) × (n ≤ length piece.now)) }
    ensures ok { IfOk result
        (λ n. Frames term (record { kept = reader.old.kept; out = out.old.items })
        (take n piece.now) (record { kept = reader.new.kept; out = out.new.items })) }
    ensures live { OnOk result (IsTrue reader.new.live) }
{
    let (n, found) = reader.feed(piece)?;
    match found {
        Some(frame) => {
            add_framed(&frame, term, out)?;
            Ok(n)
        }
        None => Ok(n),
    }
}

// Adds a command with the term in front.
#[tactic(auto, using(crate::proofs::Framed::one_added))]
fn add_framed(frame: &(u32, Command), term: u32, out: &mut Vec<u8>) -> Result<(), Memory>
    ensures { OnOk result (out.new.items ≡ out.old.items ++ with_terms term (frame.now ∷ [])) }
{
    out.extend_from_slice(&write_fence(term))?;
    add_command(frame, out)?;
    Ok(())
}

fn add_command(frame: &(u32, Command), out: &mut Vec<u8>) -> Result<(), Memory>
    ensures { OnOk result (out.new.items ≡ out.old.items ++ command_bytes frame.now) }
{
    let mut bytes = [0; COMMAND_LEN];
    let len = write_command(&frame.1, frame.0, &mut bytes);
    out.extend_from_slice(&bytes[..len])?;
    Ok(())
}
