ghost use Rattle.std.specs.Prelude.{◌≡◌, ◌<◌, ◌≤◌, nat_le, Some, None, if◌then◌else◌};
ghost use Rattle.rollout_rules.specs.declared.limits.TheConstants.{LARGEST_SCALE};
ghost use Rattle.step_lp.specs.Points as points;

use fraction_lp::{Fraction, greatest_common_divisor};
use rollout_rules::LARGEST_SCALE;

/// The least common denominator of some fractions. None exactly where it exceeds the largest scale.
pub(crate) fn common_bottom(fractions: &[Fraction]) -> Option<u32>
    ensures { result ≡ points.within_scale (points.common_bottom 1 fractions.now) }
{
    let mut common = 1;
    for fraction in fractions {
        common = lcm(common, *fraction)?;
    }
    Some(common)
}

/// The least common multiple of a scale and a fraction's denominator. None exactly where it exceeds the
/// largest scale.
fn lcm(scale: u32, fraction: Fraction) -> Option<u32>
    requires some { 0 < scale }
    requires most { scale ≤ LARGEST_SCALE }
    ensures { result ≡ points.within_scale (points.lcm scale fraction.bottom) }
{
    let scale = u128::from(scale);
    let bottom = fraction.bottom() as u128;
    if bottom > u128::from(LARGEST_SCALE) {
        return None;
    }
    let multiple = scale / greatest_common_divisor(scale, bottom) * bottom;
    if multiple > u128::from(LARGEST_SCALE) {
        return None;
    }
    Some(multiple as u32)
}
