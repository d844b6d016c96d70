ghost use Rattle.std.specs.Prelude.{◌≤◌, ◌≡◌, length, IfOk};
ghost use Rattle.serde_json.specs.Events.{items_len};
ghost use Rattle.json_data.specs.View.{view, items_view};
ghost use Rattle.rollout_rules.specs.Network.{IsRate};
ghost use Rattle.rollout_rules.specs.declared.limits.TheConstants.{LONGEST_NAME, LARGEST_WIDTH};
ghost use Rattle.problem_json.specs.GrammarResults.{Reads, ReadsAs};
ghost use Rattle.problem_json.specs.GrammarValues.{member_in, list_in, text_in, whole_in, number_in, width_in, list_of, name_of, number_of, rate_of, width_of};

use crate::fault::InputFault;
use crate::key::Key;
use crate::place::Place;
use json_data::{Element, Elements};
use rollout_rules::{LARGEST_RATE, LARGEST_WIDTH, LONGEST_NAME};

/// An object's value at a key.
#[tactic(auto, unfolding(crate::specs::GrammarValues::member_in))]
pub(super) fn member<'t, 'a>(
    object: Place,
    key: Key,
    value: &Element<'t, 'a>,
) -> Result<Element<'t, 'a>, InputFault>
    ensures { ReadsAs view result (member_in object key (view value.now)) }
{
    if !value.is_object() {
        return Err(InputFault::WrongKind(object));
    }
    value
        .get(key.as_str())
        .ok_or(InputFault::Missing(object, key))
}

/// The text that a value is.
#[tactic(auto, unfolding(crate::specs::GrammarValues::text_in))]
pub(super) fn text_of<'a>(place: Place, value: &Element<'_, 'a>) -> Result<&'a str, InputFault>
    ensures { ReadsAs (λ s. s.now) result (text_in place (view value.now)) }
{
    value.as_str().ok_or(InputFault::WrongKind(place))
}

/// The elements of a list at a key, of which there are at most so many.
#[tactic(auto, using(crate::proofs::Steps::steps), unfolding(crate::specs::GrammarValues::list_of, crate::specs::GrammarValues::list_in))]
pub(super) fn list_of<'t, 'a>(
    object: Place,
    key: Key,
    place: Place,
    most: usize,
    value: &Element<'t, 'a>,
) -> Result<Elements<'t, 'a>, InputFault>
    ensures list { ReadsAs items_view result
        (list_of object key place most (view value.now)) }
    ensures most { IfOk result (λ s. items_len (items_view s) ≤ most) }
{
    let list = member(object, key, value)?;
    let elements = list.as_array().ok_or(InputFault::WrongKind(place))?;
    let count = elements.len();
    if count > most {
        return Err(InputFault::TooMany(place, count as u64, most as u64));
    }
    Ok(elements)
}

/// The elements of a list, of which there are at most so many.
#[tactic(auto, using(crate::proofs::Steps::steps), unfolding(crate::specs::GrammarValues::list_in))]
pub(super) fn elements_of<'t, 'a>(
    place: Place,
    most: usize,
    value: &Element<'t, 'a>,
) -> Result<Elements<'t, 'a>, InputFault>
    ensures list { ReadsAs items_view result (list_in place most (view value.now)) }
    ensures most { IfOk result (λ s. items_len (items_view s) ≤ most) }
{
    let elements = value.as_array().ok_or(InputFault::WrongKind(place))?;
    let count = elements.len();
    if count > most {
        return Err(InputFault::TooMany(place, count as u64, most as u64));
    }
    Ok(elements)
}

/// The name of a switch or a flow.
#[tactic(auto, using(crate::proofs::Steps::steps), unfolding(crate::specs::GrammarValues::name_of, crate::specs::GrammarValues::name_in))]
pub(super) fn name_of<'a>(
    object: Place,
    place: Place,
    value: &Element<'_, 'a>,
) -> Result<&'a str, InputFault>
    ensures name { ReadsAs (λ s. s.now) result (name_of object place (view value.now)) }
    ensures short { IfOk result (λ s. length s.now ≤ LONGEST_NAME) }
{
    let name = text_of(place, &member(object, Key::Name, value)?)?;
    if name.len() > LONGEST_NAME {
        return Err(InputFault::TooMany(place, name.len() as u64, LONGEST_NAME as u64));
    }
    Ok(name)
}

/// The whole number at a key, which is at most so large.
#[tactic(auto, using(crate::proofs::Steps::steps), unfolding(crate::specs::GrammarValues::number_of))]
pub(super) fn number_of(
    object: Place,
    key: Key,
    place: Place,
    most: u64,
    value: &Element<'_, '_>,
) -> Result<u64, InputFault>
    ensures number { Reads result (number_of object key place most (view value.now)) }
    ensures most { IfOk result (λ n. n ≤ most) }
{
    number(place, most, &member(object, key, value)?)
}

/// The rate at a key, or `None` where the tunnel isn't installed.
#[tactic(auto, using(crate::proofs::Steps::steps), unfolding(crate::specs::GrammarValues::rate_of, crate::specs::GrammarValues::rate_in))]
pub(super) fn rate_of(
    object: Place,
    key: Key,
    place: Place,
    value: &Element<'_, '_>,
) -> Result<Option<u64>, InputFault>
    ensures rate { Reads result (rate_of object key place (view value.now)) }
    ensures most { IfOk result IsRate }
{
    let rate = member(object, key, value)?;
    if rate.is_null() {
        return Ok(None);
    }
    Ok(Some(number(place, LARGEST_RATE, &rate)?))
}

/// How many entries a tunnel takes in each table on its path: 1 in format 1, which has no key for it.
#[tactic(auto, using(crate::proofs::Steps::steps), unfolding(crate::specs::GrammarValues::width_of))]
pub(super) fn width_of(
    object: Place,
    place: Place,
    format: u32,
    value: &Element<'_, '_>,
) -> Result<u32, InputFault>
    ensures width { Reads result (width_of object place format (view value.now)) }
    ensures some { IfOk result (λ n. 1 ≤ n) }
    ensures most { IfOk result (λ n. n ≤ LARGEST_WIDTH) }
    ensures plain { IfOk result (λ n. format ≡ 1 → n ≡ 1) }
{
    if format == 1 {
        return Ok(1);
    }
    width(place, &member(object, Key::Width, value)?)
}

#[tactic(auto, using(crate::proofs::Steps::steps), unfolding(crate::specs::GrammarValues::width_in))]
fn width(place: Place, value: &Element<'_, '_>) -> Result<u32, InputFault>
    ensures width { Reads result (width_in place (view value.now)) }
    ensures some { IfOk result (λ n. 1 ≤ n) }
    ensures most { IfOk result (λ n. n ≤ LARGEST_WIDTH) }
{
    let width = number(place, u64::from(LARGEST_WIDTH), value)?;
    if width < 1 {
        return Err(InputFault::WidthZero(place));
    }
    Ok(width as u32)
}

/// The whole number that a value is, which is at most so large.
#[tactic(auto, using(crate::proofs::Steps::steps), unfolding(crate::specs::GrammarValues::number_in))]
pub(super) fn number(place: Place, most: u64, value: &Element<'_, '_>) -> Result<u64, InputFault>
    ensures number { Reads result (number_in place most (view value.now)) }
    ensures most { IfOk result (λ n. n ≤ most) }
{
    let number = whole(place, value)?;
    if number > most {
        return Err(InputFault::TooLarge(place, number, most));
    }
    Ok(number)
}

/// The whole number that a value is.
#[tactic(auto, using(crate::proofs::Steps::steps), unfolding(crate::specs::GrammarValues::whole_in))]
pub(super) fn whole(place: Place, value: &Element<'_, '_>) -> Result<u64, InputFault>
    ensures { Reads result (whole_in place (view value.now)) }
{
    let number = value.as_number().ok_or(InputFault::WrongKind(place))?;
    number.as_u64().ok_or(InputFault::NotWhole(place))
}
