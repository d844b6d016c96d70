//! The values that a target is made of, each read at its place.
ghost use Rattle.std.specs.Prelude.{◌≡◌, ◌≤◌, IfOk};
ghost use Rattle.serde_json.specs.Events.{items_len};
ghost use Rattle.json_data.specs.View.{view, items_view};
ghost use Rattle.rollout_rules.specs.Network.{IsRate};
ghost use Rattle.target_json.specs.Results.{Reads, ReadsAs};
ghost use Rattle.target_json.specs.Grammar.{list_in, member_in, number_in, rate_at, row_in, text_in, whole_in};

use crate::fault::{TargetFault, Wrong};
use crate::key::TargetKey;
use crate::place::TargetPlace;
use json_data::{Element, Elements};
use rollout_rules::LARGEST_RATE;

/// An object's value at a key.
#[tactic(auto, unfolding(crate::specs::Grammar::member_in))]
pub(crate) fn member<'t, 'a>(
    object: TargetPlace,
    key: TargetKey,
    value: &Element<'t, 'a>,
) -> Result<Element<'t, 'a>, TargetFault>
    ensures { ReadsAs view result (member_in object key (view value.now)) }
{
    if !value.is_object() {
        return Err(TargetFault::At(object, Wrong::Kind));
    }
    value
        .get(key.as_str())
        .ok_or(TargetFault::At(object, Wrong::Missing(key)))
}

/// The elements of a list, of which there are at most so many.
#[tactic(auto, using(crate::proofs::Steps::steps), unfolding(crate::specs::Grammar::list_in))]
pub(crate) fn list_of<'t, 'a>(
    place: TargetPlace,
    most: usize,
    value: &Element<'t, 'a>,
) -> Result<Elements<'t, 'a>, TargetFault>
    ensures list { ReadsAs items_view result (list_in place most (view value.now)) }
    ensures most { IfOk result (λ s. items_len (items_view s) ≤ most) }
{
    let elements = value.as_array().ok_or(TargetFault::At(place, Wrong::Kind))?;
    let count = elements.len();
    if count > most {
        return Err(TargetFault::At(place, Wrong::Above(count as u64, most as u64)));
    }
    Ok(elements)
}

/// The elements of a list, of which there are just so many.
#[tactic(auto, using(crate::proofs::Steps::steps), unfolding(crate::specs::Grammar::row_in))]
pub(crate) fn row_of<'t, 'a>(
    place: TargetPlace,
    count: usize,
    value: &Element<'t, 'a>,
) -> Result<Elements<'t, 'a>, TargetFault>
    ensures list { ReadsAs items_view result (row_in place count (view value.now)) }
    ensures count { IfOk result (λ s. items_len (items_view s) ≡ count) }
{
    let elements = list_of(place, count, value)?;
    let found = elements.len();
    if found < count {
        return Err(TargetFault::At(place, Wrong::Below(found as u64, count as u64)));
    }
    Ok(elements)
}

/// The text that a value is.
#[tactic(auto, unfolding(crate::specs::Grammar::text_in))]
pub(crate) fn text_of<'a>(
    place: TargetPlace,
    value: &Element<'_, 'a>,
) -> Result<&'a str, TargetFault>
    ensures { ReadsAs (λ s. s.now) result (text_in place (view value.now)) }
{
    value.as_str().ok_or(TargetFault::At(place, Wrong::Kind))
}

/// The rate that a value is, or `None` for null.
#[tactic(auto, using(crate::proofs::Steps::steps), unfolding(crate::specs::Grammar::rate_at))]
pub(crate) fn rate_of(
    place: TargetPlace,
    value: &Element<'_, '_>,
) -> Result<Option<u64>, TargetFault>
    ensures rate { Reads result (rate_at place (view value.now)) }
    ensures most { IfOk result IsRate }
{
    if value.is_null() {
        return Ok(None);
    }
    Ok(Some(number(place, LARGEST_RATE, value)?))
}

/// The whole number that a value is, which is at most so large.
#[tactic(auto, using(crate::proofs::Steps::steps), unfolding(crate::specs::Grammar::number_in))]
pub(crate) fn number(
    place: TargetPlace,
    most: u64,
    value: &Element<'_, '_>,
) -> Result<u64, TargetFault>
    ensures number { Reads result (number_in place most (view value.now)) }
    ensures most { IfOk result (λ n. n ≤ most) }
{
    let number = whole(place, value)?;
    if number > most {
        return Err(TargetFault::At(place, Wrong::Above(number, most)));
    }
    Ok(number)
}

#[tactic(auto, using(crate::proofs::Steps::steps), unfolding(crate::specs::Grammar::whole_in))]
fn whole(place: TargetPlace, value: &Element<'_, '_>) -> Result<u64, TargetFault>
    ensures { Reads result (whole_in place (view value.now)) }
{
    let number = value
        .as_number()
        .ok_or(TargetFault::At(place, Wrong::Kind))?;
    number
        .as_u64()
        .ok_or(TargetFault::At(place, Wrong::NotWhole))
}
