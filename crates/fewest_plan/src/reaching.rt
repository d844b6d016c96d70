ghost use Rattle.std.specs.Prelude.{◌≡◌, ℕ, ◌+◌, ◌-◌, ◌*◌, ◌^◌, ◌<◌, ◌≤◌, length, slice_index, slice_set};
ghost use Rattle.rollout_rules.specs.declared.limits.TheConstants.{LARGEST_SCALE};
ghost use Rattle.rollout_rules.specs.Network.{IsNetwork};
ghost use Rattle.plan_check.specs.Parts.{GrownBy};
ghost use Rattle.fewest_plan.specs.Growth as growth;
ghost use Rattle.fewest_plan.specs.Greedy as spec;

use crate::gain::Gain;
use wan_model::Problem;

/// A flow goes on as far as the room on the links lets it, and what it grows by is added to their sums.
pub(crate) fn move_flow(
    problem: &Problem,
    scale: u32,
    tops: &mut [u128],
    gains: &[Gain],
    shares: &mut [u64],
    f: usize,
)
    requires scale { scale ≤ LARGEST_SCALE }
    requires flow { f < length shares.old }
    requires share { slice_index shares.old f ≤ scale }
    requires gains { growth.AreGains problem.now gains.now }
    requires count { length tops.old ≡ length problem.now.links }
    requires small { (k : ℕ) → k < length tops.old → slice_index tops.old k < 2 ^ 64 }
    ensures shares { shares.new
        ≡ slice_set shares.old f
        (slice_index shares.old f
        + spec.reach problem.now scale tops.old gains.now (scale - slice_index shares.old f)) }
    ensures tops { GrownBy tops.old tops.new
        (growth.gained gains.now
        (spec.reach problem.now scale tops.old gains.now (scale - slice_index shares.old f)))
        (length gains.now * 2 ^ 64) }
{
    let left = u64::from(scale) - shares[f];
    let far = reach(problem, scale, tops, gains, left);
    add_gains(tops, gains, far);
    shares[f] += far;
}

// How many parts of its way a flow may go on.
fn reach(problem: &Problem, scale: u32, tops: &[u128], gains: &[Gain], left: u64) -> u64
    requires scale { scale ≤ LARGEST_SCALE }
    requires gains { growth.AreGains problem.now gains.now }
    requires count { length tops.now ≡ length problem.now.links }
    ensures value { result ≡ spec.reach problem.now scale tops.now gains.now left }
    ensures most { result ≤ left }
    ensures network { IsNetwork problem.now }
{
    let mut far = u128::from(left);
    let _links = problem.links();
    for i in 0..gains.len() {
        far = far.min(lets(problem, scale, tops, gains[i]));
    }
    far as u64
}

// The same by one link.
fn lets(problem: &Problem, scale: u32, tops: &[u128], gain: Gain) -> u128
    requires scale { scale ≤ LARGEST_SCALE }
    requires gain { growth.IsGain problem.now gain }
    requires count { length tops.now ≡ length problem.now.links }
    ensures { result ≡ spec.lets problem.now scale tops.now gain }
{
    let link = gain.link as usize;
    let capacity = u128::from(problem.capacity(link)) * u128::from(scale);
    capacity.saturating_sub(tops[link]) / gain.growth
}

// Adds what so many parts add.
fn add_gains(tops: &mut [u128], gains: &[Gain], far: u64)
    requires known { (i : ℕ)
        → i < length gains.now
        → (growth.gain_at gains.now i).link < length tops.old }
    requires small { (i : ℕ)
        → i < length gains.now
        → (growth.gain_at gains.now i).growth * far < 2 ^ 64 }
    requires tops { (k : ℕ) → k < length tops.old → slice_index tops.old k < 2 ^ 64 }
    ensures { GrownBy tops.old tops.new (growth.gained gains.now far)
        (length gains.now * 2 ^ 64) }
{
    for i in 0..gains.len() {
        let gain = gains[i];
        tops[gain.link as usize] += gain.growth * u128::from(far);
    }
}
