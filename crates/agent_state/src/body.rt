//! The bytes of a batch after its gate, and of a part with one batch.
ghost use Rattle.std.specs.Prelude.{◌≡◌, ◌<◌, ◌^◌, ◌∷◌, ◌++◌, [], length, IfOk};
ghost use Rattle.agent_state.specs.Batches.{batch_body};
ghost use Rattle.disk_model.specs.Numbers.{bytes_4};
ghost use Rattle.agent_state.specs.Stored.{part_bytes};

use lists::Memory;
use std::alloc::{AllocError, Global};

const OPEN_GATE: u8 = 0x47;

// How many bytes a batch has at most.
const MOST_BATCH: usize = 1_000_000_000;

/// A batch and a closed gate after it.
#[tactic(auto, unfolding(disk_model::specs::Numbers::bytes_4))]
pub(crate) fn body_of(alloc: Global, batch: &[u8]) -> Result<Vec<u8>, Memory>
    ensures few { IfOk result (λ _. length batch.now < 2 ^ 32) }
    ensures is { IfOk result (λ body. body.items ≡ batch_body batch.now ++ 0 ∷ []) }
{
    if batch.len() > MOST_BATCH {
        return Err(AllocError);
    }
    let mut body = Vec::new(alloc);
    body.extend_from_slice(&(batch.len() as u32).to_be_bytes())?;
    body.extend_from_slice(batch)?;
    body.extend_from_slice(&[0])?;
    Ok(body)
}

/// A part with this one batch, and a closed gate after it.
pub(crate) fn part_of(alloc: Global, batch: &[u8]) -> Result<Vec<u8>, Memory>
    ensures few { IfOk result (λ _. length batch.now < 2 ^ 32) }
    ensures is { IfOk result (λ part. part.items ≡ part_bytes batch.now) }
{
    let body = body_of(alloc, batch)?;
    let mut part = Vec::new(alloc);
    part.push(OPEN_GATE)?;
    part.extend_from_slice(body.as_slice())?;
    Ok(part)
}
