ghost use Rattle.std.specs.Prelude.{◌≡◌, ◌≤◌, ◌+◌, ◌-◌, ◌*◌, IfOk, List, ℕ, [], drop, length};
ghost use Rattle.serde_json.specs.Data.{unsigned};
ghost use Rattle.serde_json.specs.View.{number_view};
ghost use Rattle.json_data.specs.Nodes.{entry, entry_of, entries, first, behind, first_of, piece, front};
ghost use Rattle.json_data.specs.Nodes as nodes;
ghost use Rattle.json_data.specs.declared.spot.Spot.TheVariants as a_spot;

use crate::node::Node;
use crate::texts::Texts;
use crate::unread::Unread;
use serde_json::Number;

/// A node in 12 bytes: a text is named by its place, where it stands in what is read.
#[derive(Clone, Copy, Drop)]
pub(crate) enum Spot {
    Null,
    Bool(bool),
    /// A whole number below 2^64, by its upper and its lower 32 bits.
    Whole(u32, u32),
    /// The place of its first byte, and how many bytes it has.
    Text(u32, u32),
    /// How many nodes are in it, and how many elements.
    Array(u32, u32),
    /// How many nodes are in it, and how many members.
    Object(u32, u32),
    /// The node of that number of those that are kept.
    Kept(u32),
}

/// The node that comes first, or null.
#[inline(always)]
pub(crate) fn first<'a>(texts: &Texts<'a>, spots: &[Spot]) -> Node<'a>
    ensures { entry result ≡ first (entries texts.now spots.now) }
{
    if spots.is_empty() {
        Node::Null
    } else {
        node_of(texts, spots[0])
    }
}

#[inline(always)]
fn node_of<'a>(texts: &Texts<'a>, spot: Spot) -> Node<'a>
    ensures { entry result ≡ entry_of texts.now.text.now texts.now.kept.items spot }
{
    match spot {
        Spot::Null => Node::Null,
        Spot::Bool(b) => Node::Bool(b),
        Spot::Whole(high, low) => Node::Number(whole(high, low)),
        Spot::Text(place, size) => Node::Text(piece(texts.text, place as usize, size as usize)),
        Spot::Array(size, count) => Node::Array(size as usize, count as usize),
        Spot::Object(size, count) => Node::Object(size as usize, count as usize),
        Spot::Kept(index) => kept_at(texts.kept.as_slice(), index as usize),
    }
}

#[inline(always)]
fn whole(high: u32, low: u32) -> Number
    ensures { number_view result ≡ unsigned (high * 4294967296 + low) }
{
    Number::from(u64::from(high) * 4_294_967_296 + u64::from(low))
}

/// So many bytes from a place on, or none where they would cut a character.
#[inline(always)]
fn piece<'a>(text: &'a str, place: usize, size: usize) -> &'a str
    ensures { result.now ≡ piece place size text.now }
{
    match text.split_at_checked(place) {
        Some(parts) => front(parts.1, size),
        None => "",
    }
}

#[inline(always)]
fn front<'a>(text: &'a str, size: usize) -> &'a str
    ensures { result.now ≡ front size text.now }
{
    match text.split_at_checked(size) {
        Some(parts) => parts.0,
        None => "",
    }
}

fn kept_at<'a>(kept: &[Node<'a>], index: usize) -> Node<'a>
    ensures { entry result ≡ first_of (drop index kept.now) }
{
    if index < kept.len() {
        kept[index]
    } else {
        Node::Null
    }
}

/// The nodes after the first one.
#[inline(always)]
pub(crate) fn rest<'t>(spots: &'t [Spot]) -> &'t [Spot]
    ensures { result.now ≡ drop 1 spots.now }
{
    past(spots, 1)
}

/// The nodes after the value that comes first.
#[inline(always)]
pub(crate) fn behind<'t>(texts: &Texts<'_>, spots: &'t [Spot]) -> &'t [Spot]
    ensures { entries texts.now result.now ≡ behind (entries texts.now spots.now) }
{
    let inside = rest(spots);
    match first(texts, spots) {
        Node::Array(size, _) => past(inside, size),
        Node::Object(size, _) => past(inside, size),
        Node::Null | Node::Bool(_) | Node::Number(_) | Node::Text(_) => inside,
    }
}

#[inline(always)]
fn past<'t>(spots: &'t [Spot], size: usize) -> &'t [Spot]
    ensures { result.now ≡ drop size spots.now }
{
    &spots[size.min(spots.len())..]
}

/// The node of a text that ends so many bytes before a place.
#[inline(always)]
pub(crate) fn text_spot(content: &str, to: usize, closing: usize) -> Result<Spot, Unread>
    requires { length content.now + closing ≤ to }
    ensures { IfOk result
        (λ s. s ≡ a_spot.Text (to - closing - length content.now) (length content.now)) }
{
    let size = content.len();
    let place = brief(to - closing - size)?;
    let bytes = brief(size)?;
    Ok(Spot::Text(place, bytes))
}

/// The node of a number, where it is a whole one below 2^64.
#[inline(always)]
pub(crate) fn number_spot(number: Number) -> Result<Spot, Unread>
    ensures { IfOk result
        (λ s. (text : List ℕ) → entry_of text [] s ≡ nodes.Number (number_view number)) }
{
    match number.as_u64() {
        Some(n) => Ok(whole_spot(n)),
        None => Err(Unread::NotPlain),
    }
}

#[inline(always)]
fn whole_spot(n: u64) -> Spot
    ensures { (text : List ℕ) → entry_of text [] result ≡ nodes.Number (unsigned n) }
{
    Spot::Whole((n / 4_294_967_296) as u32, (n % 4_294_967_296) as u32)
}

/// The same number in 32 bits.
#[inline(always)]
pub(crate) fn brief(n: usize) -> Result<u32, Unread>
    ensures { IfOk result (λ m. m ≡ n) }
{
    if n < 4_294_967_296 {
        return Ok(n as u32);
    }
    Err(Unread::Memory)
}
