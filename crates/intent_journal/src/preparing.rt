ghost use Rattle.std.specs.Prelude.{◌≡◌, ◌+◌, ◌*◌, ◌<◌, ◌≤◌, ◌^◌, length, vec_capacity, IfErr, IfOk};
ghost use Rattle.dependency_graph.specs.Graph.{op_total};
ghost use Rattle.intent_journal.specs.Images.{blank_most};
ghost use Rattle.intent_journal.specs.Phases.{kept_of};
ghost use Rattle.intent_journal.specs.Faults.{IsMemory};

use crate::digest::Digest;
use crate::fault::JournalFault;
use crate::new_part::NewPart;
use dependency_graph::Graph;
use rollout_rules::Entry;
use std::alloc::Global;

// The most bytes of a part, and the most numbers that the start of a journal which is made may have.
const LARGEST_PART: u64 = 1_000_000_000;

const MOST_NUMBERS: usize = 74_980;

/// What memory is taken for before the first write: the new part, and the room of later appends.
#[derive(Drop)]
pub(crate) struct Prepared {
    pub part: NewPart,
    /// How many entries the list may come to.
    pub most: u32,
    pub body: Vec<u8>,
}

/// Takes the memory for a journal with this start and list.
#[tactic(auto, unfolding(crate::specs::Images::blank_most))]
pub(crate) fn prepare(
    alloc: Global,
    graph: &Graph,
    digest: &Digest,
    start: &[u32],
    list: &[Entry],
) -> Result<Prepared, JournalFault>
    ensures part { IfOk result
        (λ p. p.part
        ≡ record {
          kept = kept_of digest.now start.now list.now;
          size = 45 + 4 * length start.now + 28 * op_total graph.now.rollout;
        }) }
    ensures most { IfOk result (λ p. p.most ≡ 2 * op_total graph.now.rollout) }
    ensures small { IfOk result (λ p. p.most < 2 ^ 32) }
    ensures fits { IfOk result (λ p. length list.now ≤ p.most) }
    ensures few { IfOk result (λ p. 80 + 4 * length start.now ≤ blank_most) }
    ensures room { IfOk result (λ p. 5 + 9 * p.most ≤ vec_capacity p.body) }
    ensures err { IfErr result IsMemory }
{
    let operations = graph.op_total();
    let size = 45 + 4 * start.len() as u128 + 28 * u128::from(operations);
    if size > u128::from(LARGEST_PART) || start.len() > MOST_NUMBERS {
        return Err(JournalFault::Memory);
    }
    let most = 2 * operations;
    if list.len() > most as usize {
        return Err(JournalFault::Memory);
    }
    let body = Vec::with_capacity(alloc, 5 + 9 * most as usize)?;
    let part = NewPart::new(alloc, digest, start, list, u64::from(operations))?;
    Ok(Prepared { part, most, body })
}
