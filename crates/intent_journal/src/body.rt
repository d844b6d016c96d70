ghost use Rattle.std.specs.Prelude.{◌≡◌, ◌+◌, ◌*◌, ◌<◌, ◌≤◌, ◌^◌, [], ◌∷◌, ◌++◌, length, vec_capacity};
ghost use Rattle.intent_journal.specs.Entries.{entry_rows, op_bytes, row_of};
ghost use Rattle.disk_model.specs.Numbers.{bytes_4};
ghost use Rattle.intent_journal.specs.Parts.{batch_body};

use rollout_rules::{Entry, Op};

/// Fills the room of an append with the bytes of a batch after its gate: how many entries, each of them,
/// and a closed gate. It takes no memory.
pub(crate) fn fill(body: &mut Vec<u8>, batch: &[Entry])
    requires room { 5 + 9 * length batch.now ≤ vec_capacity body.old }
    requires few { length batch.now < 2 ^ 32 }
    ensures bytes { body.new.items ≡ batch_body (entry_rows batch.now) ++ 0 ∷ [] }
    ensures capacity { vec_capacity body.old ≤ vec_capacity body.new }
{
    body.clear();
    put_bytes(body, &number_bytes(batch.len() as u32));
    let mut rest = batch;
    while let [entry, later @ ..] = rest {
        put_entry(body, entry);
        rest = later;
    }
    put_bytes(body, &[0]);
}

// Adds the nine bytes of an entry.
#[tactic(auto, using(crate::proofs::Rows::row_in_turn))]
fn put_entry(body: &mut Vec<u8>, entry: &Entry)
    requires { length body.old.items + 9 ≤ vec_capacity body.old }
    ensures bytes { body.new.items ≡ body.old.items ++ row_of entry.now }
    ensures capacity { vec_capacity body.old ≤ vec_capacity body.new }
{
    let (kind, op) = parts(entry);
    put_bytes(body, &[kind]);
    put_bytes(body, &number_bytes(op.item));
    put_bytes(body, &number_bytes(op.number));
}

// The kind of an entry, as a byte, and its operation.
fn parts(entry: &Entry) -> (u8, Op)
    ensures { row_of entry.now ≡ result.0 ∷ op_bytes result.1 }
{
    match entry {
        Entry::Begin(op) => (1, *op),
        Entry::Done(op) => (2, *op),
    }
}

#[tactic(auto, unfolding(disk_model::specs::Numbers::bytes_4))]
fn number_bytes(number: u32) -> [u8; 4]
    ensures { result ≡ bytes_4 number }
{
    number.to_be_bytes()
}

// Adds bytes, for which there is room.
fn put_bytes(body: &mut Vec<u8>, bytes: &[u8])
    requires { length body.old.items + length bytes.now ≤ vec_capacity body.old }
    ensures bytes { body.new.items ≡ body.old.items ++ bytes.now }
    ensures capacity { vec_capacity body.old ≤ vec_capacity body.new }
{
    if body.extend_from_slice(bytes).is_err() {
        unreachable!()
    }
}
