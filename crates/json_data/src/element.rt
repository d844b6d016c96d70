ghost use Rattle.std.specs.Prelude.{◌≡◌, is_some, option_map};
ghost use Rattle.serde_json.specs.Data.{no_members};
ghost use Rattle.serde_json.specs.Find.{get, get_member, as_null, as_bool, as_number, as_str, as_array, as_object};
ghost use Rattle.serde_json.specs.View.{number_view};
ghost use Rattle.json_data.specs.Nodes.{value_at, members_at, entries};

use crate::elements::Elements;
use crate::node::{Node, is_named};
use crate::spot::{Spot, behind, first, rest};
use crate::texts::Texts;
use serde_json::Number;

/// A value in a document.
#[derive(Clone, Copy, Drop)]
pub struct Element<'t, 'a> {
    texts: &'t Texts<'a>,
    // From its first node on.
    nodes: &'t [Spot],
}

impl<'t, 'a> Element<'t, 'a> {
    ghost use Rattle.json_data.specs.View.{view, items_view};

    #[inline(always)]
    pub(crate) fn first(texts: &'t Texts<'a>, nodes: &'t [Spot]) -> Element<'t, 'a>
        ensures { view result ≡ value_at (entries texts.now nodes.now) }
    {
        Element { texts, nodes }
    }

    /// Whether it is null.
    pub fn is_null(&self) -> bool
        ensures { result ≡ is_some (as_null (view self.now)) }
    {
        matches!(first(self.texts, self.nodes), Node::Null)
    }

    /// Its truth, where it is one.
    pub fn as_bool(&self) -> Option<bool>
        ensures { result ≡ as_bool (view self.now) }
    {
        match first(self.texts, self.nodes) {
            Node::Bool(b) => Some(b),
            _ => None,
        }
    }

    /// Its number, where it is one.
    pub fn as_number(&self) -> Option<Number>
        ensures { option_map number_view result ≡ as_number (view self.now) }
    {
        match first(self.texts, self.nodes) {
            Node::Number(number) => Some(number),
            _ => None,
        }
    }

    /// Its text, where it is one.
    pub fn as_str(&self) -> Option<&'a str>
        ensures { option_map (λ s. s.now) result ≡ as_str (view self.now) }
    {
        match first(self.texts, self.nodes) {
            Node::Text(text) => Some(text),
            _ => None,
        }
    }

    /// Its elements, where it is an array.
    pub fn as_array(&self) -> Option<Elements<'t, 'a>>
        ensures { option_map items_view result ≡ as_array (view self.now) }
    {
        match first(self.texts, self.nodes) {
            Node::Array(_, count) => Some(Elements::first(count, self.texts, rest(self.nodes))),
            _ => None,
        }
    }

    /// Whether it is an object.
    pub fn is_object(&self) -> bool
        ensures { result ≡ is_some (as_object (view self.now)) }
    {
        matches!(first(self.texts, self.nodes), Node::Object(_, _))
    }

    /// The last member of a name, where it is an object that has one.
    pub fn get(&self, name: &str) -> Option<Element<'t, 'a>>
        ensures { option_map view result ≡ get name.now (view self.now) }
    {
        let Node::Object(_, count) = first(self.texts, self.nodes) else {
            return None;
        };
        match find(self.texts, count, rest(self.nodes), name) {
            Some(nodes) => Some(Element::first(self.texts, nodes)),
            None => None,
        }
    }
}

fn find<'t>(texts: &Texts<'_>, count: usize, nodes: &'t [Spot], name: &str) -> Option<&'t [Spot]>
    ensures { option_map (λ ns. value_at (entries texts.now ns.now)) result
        ≡ get_member name.now (members_at count (entries texts.now nodes.now) no_members) }
{
    let mut left = count;
    let mut members = nodes;
    let mut found = None;
    'members: while left > 0 && !members.is_empty() {
        let value = rest(members);
        if is_named(first(texts, members), name) {
            found = Some(value);
        }
        members = behind(texts, value);
        left -= 1;
    }
    found
}
