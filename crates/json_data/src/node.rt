ghost use Rattle.std.specs.Prelude.{◌≡◌};
ghost use Rattle.std.specs.Str.{bytes_eq};
ghost use Rattle.json_data.specs.Nodes.{entry, key_of};

use serde_json::Number;

/// A value, or a key before a member's value. An array and an object come before what is in them, with how
/// many nodes that takes and how many elements or members it is.
#[derive(Clone, Copy, Drop)]
pub(crate) enum Node<'a> {
    Null,
    Bool(bool),
    Number(Number),
    Text(&'a str),
    Array(usize, usize),
    Object(usize, usize),
}

/// Whether a key has that name.
#[inline(always)]
pub(crate) fn is_named(key: Node<'_>, name: &str) -> bool
    ensures { result ≡ bytes_eq (key_of (entry key.entry)) name.now }
{
    match key {
        Node::Text(text) => text == name,
        _ => name.is_empty(),
    }
}
