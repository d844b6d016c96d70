ghost use Rattle.std.specs.Prelude.{◌≡◌, ◌<◌};
ghost use Rattle.rollout_rules.specs.declared.limits.TheConstants.{MOST_STAGES};
ghost use Rattle.plan_check.specs.FirstBroken as first;

use rollout_rules::Spot;

/// A clause that a plan breaks: its number, the stage, what it speaks of, what stands there, and what is
/// wanted.
#[derive(Clone, Copy, Debug, Drop, PartialEq, Eq)]
pub struct Broken {
    pub clause: u8,
    pub stage: u32,
    pub spot: Spot,
    pub found: u128,
    pub wanted: u128,
}

pub(crate) fn breaks(clause: u8, s: usize, spot: Spot, found: u128, wanted: u128) -> Broken
    requires { s < MOST_STAGES }
    ensures { result ≡ first.breaks clause s spot found wanted }
{
    Broken {
        clause,
        stage: s as u32,
        spot,
        found,
        wanted,
    }
}
