ghost use Rattle.std.specs.Prelude.{◌≡◌, ◌+◌, ◌*◌, ◌<◌, ◌≤◌, ◌^◌, [], ◌∷◌, ◌++◌, length, IfOk};
ghost use Rattle.intent_journal.specs.Entries.{entry_rows};
ghost use Rattle.disk_model.specs.Numbers.{bytes_4};
ghost use Rattle.intent_journal.specs.Parts.{batch_body, number_bytes};
ghost use Rattle.intent_journal.specs.Phases.{IsPlanned, kept_of};
ghost use Rattle.intent_journal.specs.States.{AreSmall};

use crate::body::fill;
use crate::digest::Digest;
use lists::Memory;
use rollout_rules::Entry;
use std::alloc::Global;
use std::marker::Model;

/// A part of the second format as it is to be written: its bytes up to its first gate, which is closed,
/// and its size.
#[derive(Drop)]
pub(crate) struct NewPart {
    bytes: Vec<u8>,
    size: u64,
}

impl Model for NewPart {
    ghost use Rattle.intent_journal.specs.Phases.{IsPlanned, Planned, planned};

    ghost Value = { Planned };

    ghost view = { λ p. planned p.size p.bytes.items };

    ghost invariant = { λ p. IsPlanned (planned p.size p.bytes.items) p.bytes.items };
}

impl NewPart {
    /// A part with this digest, start and list, and with room for the entries of as many operations.
    pub fn new(
        alloc: Global,
        digest: &Digest,
        starts: &[u32],
        entries: &[Entry],
        operations: u64,
    ) -> Result<NewPart, Memory>
        requires entries { 9 * length entries.now ≤ 28 * operations }
        requires size { 45 + 4 * length starts.now + 28 * operations ≤ 1000000000 }
        ensures { IfOk result
            (λ part. part
            ≡ record {
              kept = kept_of digest.now starts.now entries.now;
              size = 45 + 4 * length starts.now + 28 * operations;
            }) }
    {
        let list = list_bytes(alloc, entries)?;
        let mut bytes = head_bytes(alloc, digest, starts)?;
        bytes.extend_from_slice(list.as_slice())?;
        Ok(NewPart {
            bytes,
            size: 45 + 4 * starts.len() as u64 + 28 * operations,
        })
    }

    /// The bytes up to the first gate, which is closed.
    pub fn bytes(&self) -> &[u8]
        ensures { IsPlanned self.now result.now }
    {
        self.bytes.as_slice()
    }

    /// How many bytes the part may come to.
    pub fn size(&self) -> u64
        ensures size { result ≡ self.now.size }
        ensures small { result ≤ 1000000000 }
    {
        self.size
    }
}

// The count of a list, its entries and a closed gate.
fn list_bytes(alloc: Global, entries: &[Entry]) -> Result<Vec<u8>, Memory>
    requires { 9 * length entries.now ≤ 1000000000 }
    ensures { IfOk result (λ list. list.items ≡ batch_body (entry_rows entries.now) ++ 0 ∷ []) }
{
    let mut list = Vec::with_capacity(alloc, 5 + 9 * entries.len())?;
    fill(&mut list, entries);
    Ok(list)
}

// What stands in front of the count: the digest, the migration and the numbers of the start.
#[tactic(auto, unfolding(disk_model::specs::Numbers::bytes_4))]
fn head_bytes(alloc: Global, digest: &Digest, starts: &[u32]) -> Result<Vec<u8>, Memory>
    requires { length starts.now < 2 ^ 32 }
    ensures head { IfOk result
        (λ head. head.items
        ≡ digest.now.bytes
        ++ (bytes_4 digest.now.migration
        ++ (bytes_4 (length starts.now) ++ number_bytes starts.now))) }
    ensures digest { IfOk result (λ head. length digest.now.bytes ≡ 32) }
    ensures migration { IfOk result (λ head. digest.now.migration < 2 ^ 32) }
    ensures small { IfOk result (λ head. AreSmall starts.now) }
{
    let mut head = Vec::new(alloc);
    head.extend_from_slice(&digest.bytes)?;
    head.extend_from_slice(&digest.migration.to_be_bytes())?;
    head.extend_from_slice(&(starts.len() as u32).to_be_bytes())?;
    let mut rest = starts;
    while let [start, later @ ..] = rest {
        head.extend_from_slice(&start.to_be_bytes())?;
        rest = later;
    }
    Ok(head)
}
