ghost use Rattle.std.specs.Prelude.{◌≡◌, [], true, false, not, IfOk, IsFalse};
ghost use mathlib.Core.List.{IsPrefix};
ghost use Rattle.lossy_link.specs.Gates.{after_word, crossing, half_word, have_met, inside_at, is_inside, word_of};

mod crossing;
mod law;

use crate::gate::crossing::Crossing;
use crate::gate::law::{Cross, Law, Look, Nothing};
use lists::Memory;
use logbook::{Offer, Seen, Start, Word};
use std::alloc::Global;
use std::marker::Model;
use std::sync::Arc;

// What the gate's word says: who is inside a hear, or that both were at once.
const NOBODY: u64 = 0;

const FIRST: u64 = 1;

const SECOND: u64 = 2;

const OPEN: u64 = 3;

// How often a hear looks whether the other half comes.
const LOOKS: u32 = 1_000_000;

/// One half of a gate, which is open for good once both halves were inside a hear at once.
///
/// All crossings of the gate have one order; a half has seen a beginning of it, and what other threads do
/// after that is not known.
#[derive(Drop)]
pub struct Gate {
    word: Arc<Word<Crossing, u64, Law>, Global>,
    seen: Seen<Crossing, u64, Law>,
    second: bool,
}

impl Model for Gate {
    ghost use Rattle.std.specs.Prelude.{◌≡◌};
    ghost use Rattle.std.specs.Arc.{arc_value};
    ghost use Rattle.lossy_link.specs.Gates.{Half, word_in};

    ghost Value = { Half };

    ghost view = { λ g. record { gate = g.seen.book; second = g.second; seen = g.seen.log } };

    ghost invariant = { λ g. arc_value g.word ≡ word_in g.seen.book };
}

impl Gate {
    /// The two halves of a gate that nobody has come to yet.
    pub fn new(alloc: Global) -> Result<(Gate, Gate), Memory>
        ensures first { IfOk result
            (λ halves. halves.0 ≡ record { gate = halves.1.gate; second = false; seen = [] }) }
        ensures second { IfOk result
            (λ halves. halves.1 ≡ record { gate = halves.1.gate; second = true; seen = [] }) }
    {
        let (seen, mut pen, _spare) = Seen::open(Start::alone(), NOBODY, 0);
        let word = Arc::new(alloc, Word::tracked(NOBODY, &mut pen))?;
        let first = Gate {
            word: Arc::try_clone(&word)?,
            seen: seen.again(),
            second: false,
        };
        let second = Gate {
            word,
            seen,
            second: true,
        };
        Ok((first, second))
    }

    /// Comes in, looks whether the other half is inside too, up to so many times, and goes out where it has
    /// not met it. Where the gate is open it is so at the first look.
    pub(crate) fn meet(&mut self) -> bool
        ensures met { result ≡ have_met self.new.seen }
        ensures alone { IsFalse result
            → is_inside (not self.new.second) (inside_at self.new.seen) ≡ false }
        ensures seen { IsPrefix self.old.seen self.new.seen }
        ensures half { (self.new.gate ≡ self.old.gate) × (self.new.second ≡ self.old.second) }
    {
        for _look in 0..LOOKS {
            if self.look() {
                return true;
            }
        }
        self.leave()
    }

    // Comes in where nobody is inside, and says whether the two have met.
    fn look(&mut self) -> bool
        ensures met { result ≡ have_met self.new.seen }
        ensures alone { IsFalse result
            → is_inside (not self.new.second) (inside_at self.new.seen) ≡ false }
        ensures seen { IsPrefix self.old.seen self.new.seen }
        ensures half { (self.new.gate ≡ self.old.gate) × (self.new.second ≡ self.old.second) }
    {
        let mut word = self.find();
        if word == NOBODY {
            word = self.cross(NOBODY, half(self.second), true);
        }
        self.join(word)
    }

    // Goes out, unless the two have met.
    fn leave(&mut self) -> bool
        ensures met { result ≡ have_met self.new.seen }
        ensures alone { IsFalse result
            → is_inside (not self.new.second) (inside_at self.new.seen) ≡ false }
        ensures seen { IsPrefix self.old.seen self.new.seen }
        ensures half { (self.new.gate ≡ self.old.gate) × (self.new.second ≡ self.old.second) }
    {
        let word = self.cross(half(self.second), NOBODY, false);
        self.join(word)
    }

    // Where the other half was found inside, comes in and opens the gate, and says whether it is open.
    fn join(&mut self, word: u64) -> bool
        requires { word_of self.old.seen ≡ word }
        ensures met { result ≡ have_met self.new.seen }
        ensures alone { IsFalse result
            → is_inside (not self.new.second) (inside_at self.new.seen) ≡ false }
        ensures seen { IsPrefix self.old.seen self.new.seen }
        ensures half { (self.new.gate ≡ self.old.gate) × (self.new.second ≡ self.old.second) }
    {
        let other = half(!self.second);
        if word != other {
            return word == OPEN;
        }
        self.cross(other, OPEN, true) == OPEN
    }

    // What the word says now.
    fn find(&mut self) -> u64
        ensures word { result ≡ word_of self.new.seen }
        ensures seen { IsPrefix self.old.seen self.new.seen }
        ensures half { (self.new.gate ≡ self.old.gate) × (self.new.second ≡ self.old.second) }
    {
        let crossing = Crossing {
            second: self.second,
            enters: false,
        };
        let mut offer: Offer<Crossing, u64, Law, Nothing> = self
            .seen
            .plain::<Nothing, Crossing, Cross>(&crossing);
        self.word.load::<Look, Nothing>(&mut self.seen, &mut offer)
    }

    // Crosses, where the word is the one expected, and says what the word is then.
    fn cross(&mut self, old: u64, new: u64, enters: bool) -> u64
        requires { after_word old (crossing self.old.second enters) ≡ new }
        ensures word { result ≡ word_of self.new.seen }
        ensures other { result ≡ old → old ≡ new }
        ensures seen { IsPrefix self.old.seen self.new.seen }
        ensures half { (self.new.gate ≡ self.old.gate) × (self.new.second ≡ self.old.second) }
    {
        let crossing = Crossing {
            second: self.second,
            enters,
        };
        let mut offer: Offer<Crossing, u64, Law, Nothing> = self
            .seen
            .plain::<Nothing, Crossing, Cross>(&crossing);
        let mut pen = self.seen.no_pen();
        let found = self
            .word
            .compare_exchange::<Cross, Nothing>(old, new, &mut self.seen, &mut offer, &mut pen);
        if found == old { new } else { found }
    }
}

// How the word says that this half alone is inside.
fn half(second: bool) -> u64
    ensures { result ≡ half_word second }
{
    if second { SECOND } else { FIRST }
}
