ghost use Rattle.std.specs.Prelude.{◌≡◌, ◌<◌, IfOk};
ghost use Rattle.case_gen.specs.Draws.{after_draws, drawn, seeded};

use lists::Memory;
use rand_core::SeedableRng;
use rand_core::utils::NextWord;
use rand_pcg::Lcg64Xsh32;
use std::marker::Model;

/// Draws, one after the other: each is the next 32-bit word of one generator, modulo a bound.
#[derive(Debug, Drop)]
pub struct Draws {
    generator: Lcg64Xsh32,
}

impl Model for Draws {
    ghost use Rattle.rand_pcg.specs.Lcg.{Lcg};

    ghost Value = { Lcg };

    ghost view = { λ d. d.generator };
}

impl Draws {
    /// The draws of a seed, before the first one.
    pub fn new(seed: u64) -> Self
        ensures { result ≡ seeded seed }
    {
        Draws {
            generator: Lcg64Xsh32::seed_from_u64(seed),
        }
    }

    /// The same draws once more, from the next one on.
    pub fn copied(&self) -> Result<Draws, Memory>
        ensures { IfOk result (λ draws. draws ≡ self.now) }
    {
        Ok(Draws {
            generator: self.generator.clone()?,
        })
    }

    /// The next draw below a bound. It takes one word, also below 1.
    #[tactic(auto, unfolding(crate::specs::Draws::drawn, crate::specs::Draws::after_draws, rand_pcg::specs::Lcg::state_after))]
    pub fn draw(&mut self, below: u32) -> u32
        requires some { 0 < below }
        ensures value { result ≡ drawn self.old 0 below }
        ensures one_word { self.new ≡ after_draws self.old 1 }
        ensures less { result < below }
    {
        self.generator.next_word() % below
    }
}
