ghost use Rattle.std.specs.Prelude.{◌≡◌, if◌then◌else◌};
ghost use Rattle.rollout_rules.specs.Agent as agent;

use rollout_rules::Held;

/// The pair that every switch holds of every item at first.
pub(crate) const FIRST_PAIR: Held = Held {
    migration: 0,
    number: 0,
};

/// The pair that a switch holds after a command, where it held another: that of the command, if it is the
/// next one by the agent rule.
pub fn pair_after(held: Held, asked: Held) -> Held
    ensures { result ≡ (if agent.is_next_command held asked then asked else held) }
{
    if is_next_command(held, asked) {
        asked
    } else {
        held
    }
}

/// Whether an operation is the next after the pair held: the next number of its migration, or any of a
/// later one.
fn is_next_command(held: Held, asked: Held) -> bool
    ensures { result ≡ agent.is_next_command held asked }
{
    (asked.migration == held.migration && asked.number.checked_sub(1) == Some(held.number))
        || (held.migration < asked.migration && asked.number >= 1)
}

/// Whether a pair is at most another, by migration and then number.
pub(crate) fn is_at_most(a: Held, b: Held) -> bool
    ensures { result ≡ agent.is_at_most a b }
{
    a.migration < b.migration || (a.migration == b.migration && a.number <= b.number)
}
