//! The rule of a gate's word, and what each step on it tells.
use crate::gate::crossing::Crossing;
use logbook::{Gain, Plain, Play, Rule};

/// What the word says of the crossings so far.
pub struct Law;

impl Rule<Crossing, u64> for Law {
    ghost use Rattle.std.specs.Prelude.{[]};
    ghost use base.Fml.{ftrue};
    ghost use Rattle.lossy_link.specs.Gates.{IsGate};

    ghost holds = { λ cells crossings. IsGate cells crossings };

    ghost first = { [] };

    ghost hinted = { λ n crossings. Unit {0} };

    ghost shows = { λ crossings. [] };

    ghost keeps = { λ names crossings. ftrue };

    ghost moves = { λ ask before after answer. Unit {0} };
}

/// The halves trade nothing.
pub struct Nothing;

impl Gain<Crossing, u64> for Nothing {
    ghost use base.Fml.{ftrue};

    ghost after = { λ names about answer. ftrue };
}

/// A look at the word.
pub struct Look;

impl Play<Crossing, u64> for Look {
    ghost use Rattle.lossy_link.specs.Gates.{Looks};

    ghost then = { Looks };
}

/// A half comes in or goes out.
pub struct Cross;

impl Play<Crossing, u64> for Cross {
    ghost use Rattle.lossy_link.specs.Gates.{Crosses};

    ghost then = { Crosses };
}

impl Plain<Crossing, Crossing, u64> for Cross {
    ghost use Rattle.std.specs.Prelude.{None};

    ghost ask = { λ crossing. crossing };

    ghost state = { λ crossing. None };
}
