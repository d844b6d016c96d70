//! The term of a controller.
ghost use Rattle.std.specs.Prelude.{◌≡◌, ◌<◌};

use std::marker::Model;

/// A term of a controller that can be told from one without a term: it is 1 at the least.
#[derive(Drop)]
pub(crate) struct Term {
    number: u32,
}

impl Model for Term {
    ghost use Rattle.std.specs.Prelude.{ℕ, ◌<◌};

    ghost Value = { ℕ };

    ghost view = { λ t. t.number };

    ghost invariant = { λ t. 0 < t.number };
}

impl Term {
    pub(crate) fn new(number: u32) -> Self
        requires { 0 < number }
        ensures { result ≡ number }
    {
        Term { number }
    }

    /// Its number.
    pub(crate) fn number(&self) -> u32
        ensures number { result ≡ self.now }
        ensures some { 0 < result }
    {
        self.number
    }
}
