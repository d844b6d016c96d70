ghost use Rattle.std.specs.Prelude.{◌≡◌};
ghost use Rattle.case_gen.specs.Draws.{after_draws};
ghost use Rattle.case_gen.specs.Trips.{rate_drawn, rates_drawn};

use crate::draws::Draws;
use std::marker::Model;

/// The old and the new rate of a tunnel. Where a rate is `None`, the tunnel isn't installed.
#[derive(Clone, Copy, Debug, Drop)]
pub(crate) struct Rates {
    pub(crate) old: Option<u64>,
    pub(crate) new: Option<u64>,
}

impl Model for Rates {
    ghost use Rattle.case_gen.specs.Trips as trips;

    ghost Value = { trips.Rates };

    ghost view = { λ r. record { old = r.old; new = r.new } };

    ghost inverse = { λ r. record { old = r.old; new = r.new } };
}

impl Rates {
    /// Draws the old rate, and then the new one.
    pub(crate) fn draw(draws: &mut Draws) -> Rates
        ensures value { result ≡ rates_drawn draws.old }
        ensures two_words { draws.new ≡ after_draws draws.old 2 }
    {
        let old = draw_rate(draws);
        let new = draw_rate(draws);
        Rates { old, new }
    }
}

fn draw_rate(draws: &mut Draws) -> Option<u64>
    ensures value { result ≡ rate_drawn draws.old }
    ensures one_word { draws.new ≡ after_draws draws.old 1 }
{
    let rate = draws.draw(1_101);
    if rate > 1_000 {
        return None;
    }
    Some(u64::from(rate))
}
