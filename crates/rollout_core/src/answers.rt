ghost use Rattle.std.specs.Prelude.{◌≡◌, ◌==◌, ◌&&◌, nat_le};
ghost use Rattle.std.specs.List.{list_any};
ghost use Rattle.rollout_rules.specs.World as world;

use rollout_rules::{Entry, Given, Op};

/// Whether each Done of a batch has an answer of the migration handed over that covers it.
pub(crate) fn all_answered(migration: u32, handed: &[Given], batch: &[Entry]) -> bool
    ensures { result ≡ world.all_answered migration handed.now batch.now }
{
    for entry in batch {
        if !is_answered(migration, handed, *entry) {
            return false;
        }
    }
    true
}

fn is_answered(migration: u32, handed: &[Given], entry: Entry) -> bool
    ensures { result ≡ world.is_answered migration handed.now entry }
{
    match entry {
        Entry::Begin(_) => true,
        Entry::Done(op) => is_covered(migration, handed, op),
    }
}

fn is_covered(migration: u32, answers: &[Given], op: Op) -> bool
    ensures { result
        ≡ list_any (λ a. (a.item == op.item)
        && (a.held.migration == migration)
        && nat_le op.number a.held.number) answers.now }
{
    answers.iter().any(|answer| {
        answer.item == op.item
            && answer.held.migration == migration
            && op.number <= answer.held.number
    })
}
