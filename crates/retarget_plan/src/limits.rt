//! Which number of the problem that is left is the first above its limit.
ghost use Rattle.std.specs.Prelude.{◌≡◌, ◌<◌, ◌≤◌, length, nat_le};
ghost use Rattle.rollout_rules.specs.declared.limits.TheConstants.{MOST_LINKS, MOST_TUNNELS};
ghost use Rattle.retarget_plan.specs.Leaving as leaving;

use crate::unleft::{Row, Unleft};
use rollout_rules::{LARGEST_CAPACITY, LARGEST_RATE};

/// The first capacity, the first old rate or the first new one that is above its limit.
pub(crate) fn first_large(
    capacities: &[u64],
    old: &[Option<u64>],
    new: &[Option<u64>],
) -> Option<Unleft>
    requires capacities { length capacities.now ≤ MOST_LINKS }
    requires old { length old.now ≤ MOST_TUNNELS }
    requires new { length new.now ≤ MOST_TUNNELS }
    ensures { result ≡ leaving.first_large capacities.now old.now new.now }
{
    match first_of_old(capacities, old) {
        Some(cause) => Some(cause),
        None => first_rate(Row::NewRates, new),
    }
}

fn first_of_old(capacities: &[u64], old: &[Option<u64>]) -> Option<Unleft>
    requires capacities { length capacities.now ≤ MOST_LINKS }
    requires old { length old.now ≤ MOST_TUNNELS }
    ensures { result ≡ leaving.first_of_old capacities.now old.now }
{
    match first_capacity(capacities) {
        Some(cause) => Some(cause),
        None => first_rate(Row::OldRates, old),
    }
}

fn first_capacity(capacities: &[u64]) -> Option<Unleft>
    requires { length capacities.now ≤ MOST_LINKS }
    ensures { result ≡ leaving.first_capacity capacities.now }
{
    for l in 0..capacities.len() {
        if let Some(cause) = large_capacity(capacities, l) {
            return Some(cause);
        }
    }
    None
}

fn large_capacity(capacities: &[u64], l: usize) -> Option<Unleft>
    requires few { length capacities.now ≤ MOST_LINKS }
    requires link { l < length capacities.now }
    ensures { result ≡ leaving.large_capacity capacities.now l }
{
    let found = capacities[l];
    if is_within(found, LARGEST_CAPACITY) {
        return None;
    }
    Some(Unleft::TooLarge {
        row: Row::Capacities,
        place: l as u32,
        found,
    })
}

fn first_rate(row: Row, rates: &[Option<u64>]) -> Option<Unleft>
    requires { length rates.now ≤ MOST_TUNNELS }
    ensures { result ≡ leaving.first_rate row rates.now }
{
    for t in 0..rates.len() {
        if let Some(cause) = large_rate(row, rates, t) {
            return Some(cause);
        }
    }
    None
}

fn large_rate(row: Row, rates: &[Option<u64>], t: usize) -> Option<Unleft>
    requires few { length rates.now ≤ MOST_TUNNELS }
    requires tunnel { t < length rates.now }
    ensures { result ≡ leaving.large_rate row rates.now t }
{
    let rate = rates[t];
    let found = rate.unwrap_or(0);
    if is_within(found, LARGEST_RATE) {
        return None;
    }
    Some(Unleft::TooLarge {
        row,
        place: t as u32,
        found,
    })
}

fn is_within(found: u64, limit: u64) -> bool
    ensures { result ≡ nat_le found limit }
{
    found <= limit
}
