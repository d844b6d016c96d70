//! What is drawn for the events of a trial.
ghost use Rattle.std.specs.Prelude.{◌≡◌, ◌<◌, length, IsTrue};
ghost use Rattle.sim_run.specs.Trials.{act_for, any_of, new_one_of, next_act};

use crate::acts::Rehearsal;
use crate::plain::Plain;
use case_gen::Draws;
use rollout_rules::Act;

/// Draws the act of the next event; none where there is nothing that it could be done with. A controller
/// that is down starts, and nothing is drawn.
pub(crate) fn next_act(rehearsal: &Rehearsal<Plain>, draws: &mut Draws) -> Option<Act>
    requires live { IsTrue rehearsal.now.live }
    requires sent { length rehearsal.now.state.world.sent < 4294967296 }
    requires given { length rehearsal.now.state.world.given < 4294967296 }
    ensures chosen { result
        ≡ (next_act rehearsal.now.rollout.problem rehearsal.now.state.world draws.old).chosen }
    ensures left { draws.new
        ≡ (next_act rehearsal.now.rollout.problem rehearsal.now.state.world draws.old).left }
{
    if !rehearsal.is_up() {
        return Some(Act::Start);
    }
    let number = draws.draw(100);
    act_for(rehearsal, number, draws)
}

/// The act for a number below 100.
fn act_for(rehearsal: &Rehearsal<Plain>, number: u32, draws: &mut Draws) -> Option<Act>
    requires live { IsTrue rehearsal.now.live }
    requires sent { length rehearsal.now.state.world.sent < 4294967296 }
    requires given { length rehearsal.now.state.world.given < 4294967296 }
    ensures chosen { result
        ≡ (act_for rehearsal.now.rollout.problem rehearsal.now.state.world draws.old
        number).chosen }
    ensures left { draws.new
        ≡ (act_for rehearsal.now.rollout.problem rehearsal.now.state.world draws.old number).left }
{
    if number < 25 {
        Some(Act::Round)
    } else if number < 50 {
        Some(Act::Send(any_of(rehearsal.flying_count(), draws)?))
    } else if number < 72 {
        Some(Act::Deliver(new_one_of(rehearsal.sent_count(), draws)?))
    } else if number < 94 {
        Some(Act::Hand(new_one_of(rehearsal.given_count(), draws)?))
    } else if number < 96 {
        Some(Act::CrashLost)
    } else if number < 98 {
        Some(Act::CrashKept)
    } else {
        Some(Act::Stop)
    }
}

/// Any of so many, by its number. Where there are none, nothing is drawn.
fn any_of(count: usize, draws: &mut Draws) -> Option<u32>
    requires { count < 4294967296 }
    ensures place { result ≡ (any_of draws.old count).place }
    ensures left { draws.new ≡ (any_of draws.old count).left }
{
    if count == 0 {
        return None;
    }
    Some(draws.draw(count as u32))
}

/// One of the last 64 of so many, by its number. Where there are none, nothing is drawn.
fn new_one_of(count: usize, draws: &mut Draws) -> Option<u32>
    requires { count < 4294967296 }
    ensures place { result ≡ (new_one_of draws.old count).place }
    ensures left { draws.new ≡ (new_one_of draws.old count).left }
{
    if count == 0 {
        return None;
    }
    let count = count as u32;
    let back = draws.draw(64.min(count));
    Some(count - 1 - back)
}
