ghost use Rattle.std.specs.Prelude.{◌++◌};
ghost use Rattle.sha2.specs.Hashers.{Holds256};
ghost use Rattle.sha2.specs.Sha256.{sha256};
ghost use Rattle.rollout_report.specs.Hashed.{Hashes, Hashes-chain, Hashes-nothing, Hashes-utf8};

use sha2::{Digest as Hash, Sha256};
use text_writer::Pieces;

/// A text that is pushed piece by piece, of which only the digest is kept (SHA-256, FIPS 180-4).
#[derive(Drop)]
pub(crate) struct HashedText {
    hash: Sha256,
}

impl HashedText {
    ghost use Rattle.std.specs.Prelude.{◌≡◌, ℕ, List, []};
    ghost use Rattle.sha2.specs.Hashers.{Holds256};
    ghost use Rattle.sha2.specs.Sha256.{sha256};

    /// A text without bytes.
    pub(crate) fn new() -> Self
        ensures { Holds256 result.hash [] }
    {
        HashedText {
            hash: Sha256::new(),
        }
    }

    /// The digest of all that was pushed.
    pub(crate) fn finish(self) -> [u8; 32]
        ensures { (m : List ℕ) → Holds256 self.hash m → result ≡ sha256 m }
    {
        let HashedText { hash } = self;
        hash.finalize()
    }
}

impl Pieces for HashedText {
    ghost pushes = { Hashes };

    fn push_str(&mut self, piece: &str) {
        self.hash.update(piece.as_bytes());
    }

    ghost nothing_pushed = { Hashes-nothing };

    ghost pushed_further = { Hashes-chain };

    ghost pushed_utf8 = { Hashes-utf8 };
}
