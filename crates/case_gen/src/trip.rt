ghost use Rattle.std.specs.Prelude.{◌≡◌, ◌*◌, ◌≤◌, IfOk, OnOk};
ghost use Rattle.case_gen.specs.Draws.{after_draws};
ghost use Rattle.case_gen.specs.Trips.{trip_drawn, trips_drawn};

use crate::draws::Draws;
use crate::rates::Rates;
use lists::Memory;
use std::alloc::Global;
use std::marker::Model;

/// What a flow of a trial draws: where it starts, how many steps of two switches it goes, and the rates
/// of its two tunnels.
#[derive(Clone, Copy, Debug, Drop)]
pub(crate) struct Trip {
    pub(crate) start: u32,
    pub(crate) steps: u32,
    pub(crate) first: Rates,
    pub(crate) second: Rates,
}

impl Model for Trip {
    ghost use Rattle.case_gen.specs.Trips as trips;

    ghost Value = { trips.Trip };

    ghost view = { λ t. record {
      start = t.start;
      steps = t.steps;
      first = t.first;
      second = t.second;
    } };

    ghost inverse = { λ t. record {
      start = t.start;
      steps = t.steps;
      first = t.first;
      second = t.second;
    } };
}

impl Trip {
    /// Draws a trip round a ring of so many switches.
    pub(crate) fn draw(switches: u32, draws: &mut Draws) -> Trip
        requires { 3 ≤ switches }
        ensures value { result ≡ trip_drawn draws.old switches }
        ensures six_words { draws.new ≡ after_draws draws.old 6 }
    {
        let start = draws.draw(switches);
        let steps = 1 + draws.draw(8.min((switches - 1) / 2));
        let first = Rates::draw(draws);
        let second = Rates::draw(draws);
        Trip {
            start,
            steps,
            first,
            second,
        }
    }
}

/// Draws the trips of so many flows, one after the other.
pub(crate) fn draw_trips(
    alloc: Global,
    switches: u32,
    flows: u32,
    draws: &mut Draws,
) -> Result<Vec<Trip>, Memory>
    requires { 3 ≤ switches }
    ensures value { IfOk result (λ trips. trips.items ≡ trips_drawn draws.old switches flows) }
    ensures behind { OnOk result (draws.new ≡ after_draws draws.old (6 * flows)) }
{
    let mut trips = Vec::new(alloc);
    for _flow in 0..flows {
        trips.push(Trip::draw(switches, draws))?;
    }
    Ok(trips)
}
