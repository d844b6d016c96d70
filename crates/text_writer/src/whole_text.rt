ghost use Rattle.std.specs.Prelude.{◌≡◌, [], Some, IfOk};
ghost use Rattle.text_writer.specs.Kept.{AddsText, AddsText-nothing, AddsText-chain, AddsText-utf8};

use crate::Pieces;
use lists::{Memory, Text};
use std::alloc::Global;
use std::marker::Model;

/// A text in memory, made of pieces, unless memory runs out.
#[derive(Debug, Drop)]
pub struct WholeText {
    text: Text,
    refused: bool,
}

impl Model for WholeText {
    ghost use Rattle.std.specs.Prelude.{List, ℕ, Option, Some, None, if◌then◌else◌};

    ghost Value = { Option (List ℕ) };

    ghost view = { λ w. if w.refused then None else Some w.text };
}

impl WholeText {
    /// A text with room for so many bytes, so that it isn't moved until it has more. An Err is lack of memory.
    pub fn with_capacity(alloc: Global, bytes: usize) -> Result<Self, Memory>
        ensures { IfOk result (λ whole. whole ≡ Some []) }
    {
        Ok(WholeText {
            text: Text::with_capacity(alloc, bytes)?,
            refused: false,
        })
    }

    /// The text, unless memory ran out.
    pub fn finish(self) -> Result<Text, Memory>
        ensures { IfOk result (λ text. self ≡ Some text) }
    {
        let WholeText { text, refused } = self;
        if refused {
            drop(text);
            return Err(Memory);
        }
        Ok(text)
    }
}

impl Pieces for WholeText {
    ghost pushes = { AddsText };

    fn push_str(&mut self, piece: &str) {
        if !self.refused {
            self.refused = self.text.push_str(piece).is_err();
        }
    }

    ghost nothing_pushed = { AddsText-nothing };

    ghost pushed_further = { AddsText-chain };

    ghost pushed_utf8 = { AddsText-utf8 };
}
