ghost use Rattle.std.specs.Prelude.{◌≡◌, ◌≤◌, ◌+◌, ◌-◌, List, ℕ, ◌++◌, ◌∷◌, [], IfOk, OnOk, Some, length};
ghost use Rattle.serde_json.specs.Data.{Data};
ghost use Rattle.serde_json.specs.Read.{read as data_in};
ghost use Rattle.serde_json.specs.View.{number_view};
ghost use Rattle.json.specs.Token.{begin_array, begin_object};
ghost use Rattle.json.specs.Reads.{token_of};
ghost use Rattle.json_data.specs.Growth.{GrowsByValue};
ghost use Rattle.json_data.specs.Nodes.{value_at, spotted, entry_of};
ghost use Rattle.json_data.specs.Nodes as entries;
ghost use Rattle.json_data.specs.declared.spot.Spot.{Spot};
ghost use Rattle.json_data.specs.declared.spot.Spot.TheVariants as a_spot;
ghost use Rattle.json_data.specs.Plain.{IsValueAt, IsPlaced};

use crate::number::number_of;
use crate::plain_token::{closes_array, closes_object, gap_end, key_name, token_at};
use crate::spot::{Spot, brief, number_spot, text_spot};
use crate::unread::Unread;
use json::Token;
use serde_json::Number;
use std::alloc::Global;

/// How deep arrays and objects may nest.
const MOST_DEPTH: usize = 127;

/// The nodes of a plain text, each string of which stays where it stands.
pub(crate) fn read_plain<'a>(alloc: Global, text: &'a str) -> Result<Vec<Spot>, Unread>
    ensures { IfOk result
        (λ nodes. data_in text.now ≡ Some (value_at (spotted text.now nodes.items))) }
{
    let mut nodes = Vec::new(alloc);
    let first = token_at(text, 0, false)?;
    let end = plain_value(text, first.0, first.1, MOST_DEPTH, &mut nodes)?;
    let last = gap_end(text, end);
    if last == text.len() {
        return Ok(nodes);
    }
    Err(Unread::NotPlain)
}

/// Appends the nodes of the value that begins with a token, which ends at a place, and answers where the value
/// ends. Arrays and objects may nest `depth` deep.
#[cycle(plain)]
#[inline(always)]
fn plain_value<'a>(
    text: &'a str,
    token: Token<'a>,
    from: usize,
    depth: usize,
    nodes: &mut Vec<Spot>,
) -> Result<usize, Unread>
    requires { (from ≤ length text.now) × IsPlaced text.now (token_of token) from }
    ensures ok { IfOk result (λ to. (d : Data) × GrowsByValue d (spotted text.now nodes.old.items)
        (spotted text.now nodes.new.items)
        × IsValueAt text.now from depth (token_of token.entry) d to) }
    ensures ahead { IfOk result (λ to. (from ≤ to) × (to ≤ length text.now)) }
{
    match token {
        Token::String(content) => text_leaf(nodes, content, from),
        Token::Number(written) => match number_of(written) {
            Some(number) => number_leaf(nodes, number, from),
            None => Err(Unread::NotPlain),
        },
        Token::Bool(b) => leaf(nodes, Spot::Bool(b), from),
        Token::Null => leaf(nodes, Spot::Null, from),
        Token::EndObject | Token::EndArray | Token::Key(_) | Token::Bad => { Err(Unread::NotPlain) }
        Token::BeginArray => {
            if depth == 0 {
                return Err(Unread::NotPlain);
            }
            plain_items(text, from, depth - 1, nodes)
        }
        Token::BeginObject => {
            if depth == 0 {
                return Err(Unread::NotPlain);
            }
            plain_members(text, from, depth - 1, nodes)
        }
    }
}

/// Appends a node, and answers the place that it is given.
#[inline(always)]
fn leaf(nodes: &mut Vec<Spot>, spot: Spot, place: usize) -> Result<usize, Unread>
    ensures { IfOk result
        (λ to. (nodes.new.items ≡ nodes.old.items ++ spot ∷ []) × (to ≡ place)) }
{
    nodes.push(spot)?;
    Ok(place)
}

#[inline(always)]
fn add(nodes: &mut Vec<Spot>, spot: Spot) -> Result<(), Unread>
    ensures { OnOk result (nodes.new.items ≡ nodes.old.items ++ spot ∷ []) }
{
    nodes.push(spot)?;
    Ok(())
}

/// Appends the node of a string whose closing quote ends at a place.
#[inline(always)]
fn text_leaf(nodes: &mut Vec<Spot>, content: &str, to: usize) -> Result<usize, Unread>
    requires { length content.now + 1 ≤ to }
    ensures { IfOk result (λ place. (nodes.new.items ≡ nodes.old.items
        ++ a_spot.Text (to - 1 - length content.now) (length content.now) ∷ []) × (place ≡ to)) }
{
    let spot = text_spot(content, to, 1)?;
    leaf(nodes, spot, to)
}

/// Appends the node of a key whose colon ends at a place.
#[inline(always)]
fn add_key(nodes: &mut Vec<Spot>, name: &str, to: usize) -> Result<(), Unread>
    requires { length name.now + 2 ≤ to }
    ensures { OnOk result (nodes.new.items ≡ nodes.old.items
        ++ a_spot.Text (to - 2 - length name.now) (length name.now) ∷ []) }
{
    let spot = text_spot(name, to, 2)?;
    add(nodes, spot)
}

/// Appends the node of a number that ends at a place.
#[inline(always)]
fn number_leaf(nodes: &mut Vec<Spot>, number: Number, to: usize) -> Result<usize, Unread>
    ensures { IfOk result (λ place. (s : Spot) × (nodes.new.items ≡ nodes.old.items ++ s ∷ [])
        × ((text : List ℕ) → entry_of text [] s ≡ entries.Number (number_view number))
        × (place ≡ to)) }
{
    let spot = number_spot(number)?;
    leaf(nodes, spot, to)
}

/// Appends the nodes of an array whose bracket ends at a place.
#[cycle(plain)]
#[inline(never)]
fn plain_items<'a>(
    text: &'a str,
    from: usize,
    depth: usize,
    nodes: &mut Vec<Spot>,
) -> Result<usize, Unread>
    requires { from ≤ length text.now }
    ensures ok { IfOk result (λ to. (d : Data) × GrowsByValue d (spotted text.now nodes.old.items)
        (spotted text.now nodes.new.items)
        × IsValueAt text.now from (depth + 1) begin_array d to) }
    ensures ahead { IfOk result (λ to. (from ≤ to) × (to ≤ length text.now)) }
{
    let first = nodes.len();
    add(nodes, Spot::Null)?;
    let mut count = 0;
    let mut at = from;
    let mut ended = false;
    'items: loop {
        let next = token_at(text, at, ended)?;
        if closes_array(next.0) {
            let size = brief(nodes.len() - first - 1)?;
            let many = brief(count)?;
            nodes[first] = Spot::Array(size, many);
            return Ok(next.1);
        }
        let to = plain_value(text, next.0, next.1, depth, nodes)?;
        at = to;
        ended = true;
        count += 1;
    }
}

/// Appends the nodes of an object whose brace ends at a place.
#[cycle(plain)]
#[inline(never)]
fn plain_members<'a>(
    text: &'a str,
    from: usize,
    depth: usize,
    nodes: &mut Vec<Spot>,
) -> Result<usize, Unread>
    requires { from ≤ length text.now }
    ensures ok { IfOk result (λ to. (d : Data) × GrowsByValue d (spotted text.now nodes.old.items)
        (spotted text.now nodes.new.items)
        × IsValueAt text.now from (depth + 1) begin_object d to) }
    ensures ahead { IfOk result (λ to. (from ≤ to) × (to ≤ length text.now)) }
{
    let first = nodes.len();
    add(nodes, Spot::Null)?;
    let mut count = 0;
    let mut at = from;
    let mut ended = false;
    'members: loop {
        let next = token_at(text, at, ended)?;
        if closes_object(next.0) {
            let size = brief(nodes.len() - first - 1)?;
            let many = brief(count)?;
            nodes[first] = Spot::Object(size, many);
            return Ok(next.1);
        }
        let name = key_name(next.0)?;
        add_key(nodes, name, next.1)?;
        let value = token_at(text, next.1, false)?;
        let to = plain_value(text, value.0, value.1, depth, nodes)?;
        at = to;
        ended = true;
        count += 1;
    }
}
