ghost use Rattle.std.specs.Prelude.{◌≡◌};
ghost use Rattle.named_policies.specs.Saying.{ceiling_in};

use rollout_rules::MOST_STAGES;
use text_commands::number_in;

/// A ceiling of 1 to 19 decimal digits, up to the greatest number of stages. Any other word says none.
pub fn ceiling_in(word: &str) -> Option<u32>
    ensures { result ≡ ceiling_in word.now }
{
    match number_in(word) {
        Some(number) if number <= MOST_STAGES as u32 => Some(number),
        _ => None,
    }
}
