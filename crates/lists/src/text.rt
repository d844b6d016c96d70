ghost use Rattle.std.specs.Prelude.{◌≡◌, [], ◌++◌, IfOk, OnOk, OnErr};

use std::alloc::{AllocError, Global};
use std::marker::Model;

/// A text, which contracts see as the list of its bytes.
#[derive(Debug, Drop)]
pub struct Text {
    string: String,
}

impl Model for Text {
    ghost use Rattle.std.specs.Prelude.{List, ℕ, string_bytes};

    ghost Value = { List ℕ };

    ghost view = { λ t. string_bytes t.string };
}

impl From<String> for Text {
    ghost use Rattle.std.specs.Prelude.{string_bytes};

    ghost from_gives = { λ string text. text ≡ string_bytes string };

    fn from(string: String) -> Text {
        Text { string }
    }
}

impl Text {
    pub fn new(alloc: Global) -> Self
        ensures { result ≡ [] }
    {
        Text {
            string: String::new(alloc),
        }
    }

    /// A text with room for so many bytes, so that it isn't moved until it has more. An Err is lack of memory.
    pub fn with_capacity(alloc: Global, bytes: usize) -> Result<Self, AllocError>
        ensures { IfOk result (λ text. text ≡ []) }
    {
        Ok(Text {
            string: String::with_capacity(alloc, bytes)?,
        })
    }

    /// Adds a piece at the end. Lack of memory changes nothing.
    pub fn push_str(&mut self, piece: &str) -> Result<(), AllocError>
        ensures ok { OnOk result (self.new ≡ self.old ++ piece.now) }
        ensures err { OnErr result (self.new ≡ self.old) }
    {
        self.string.push_str(piece)
    }

    pub fn as_str(&self) -> &str
        ensures { result.now ≡ self.now }
    {
        self.string.as_str()
    }
}
