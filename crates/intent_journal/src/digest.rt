ghost use Rattle.std.specs.Prelude.{◌≡◌};
ghost use Rattle.intent_journal.specs.Digests.{digest_bytes};

use sha2::{Digest as Hash, Sha256};

/// What a journal knows its rollout by: a digest of the problem and the plan, and the migration's number.
#[derive(Clone, Copy, Debug, PartialEq, Eq)]
pub struct Digest {
    pub bytes: [u8; 32],
    pub migration: u32,
}

/// The digest of the canonical texts of a problem and of a plan: SHA-256 of the first text, a line feed
/// and the second.
pub fn digest_of(problem: &str, plan: &str, migration: u32) -> Digest
    ensures bytes { result.bytes ≡ digest_bytes problem.now plan.now }
    ensures migration { result.migration ≡ migration }
{
    let mut hash = Sha256::new();
    hash.update(problem.as_bytes());
    hash.update(b"\n".as_slice());
    hash.update(plan.as_bytes());
    Digest {
        bytes: hash.finalize(),
        migration,
    }
}
