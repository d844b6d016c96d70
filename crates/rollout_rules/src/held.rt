use lists::Many;

/// How far an item has come at its switch: the migration that it was last moved by, and the number of the
/// operation of that migration that was applied last. Pairs are ordered by migration and then number.
#[derive(Clone, Copy, Debug, PartialEq, Eq)]
pub struct Held {
    pub migration: u32,
    pub number: u32,
}

/// An answer of a switch: an item, and what it holds of it.
#[derive(Clone, Copy, Debug, PartialEq, Eq)]
pub struct Given {
    pub item: u32,
    pub held: Held,
}

/// What switches hold of items, by the items' numbers.
pub type HeldList = Many<Held>;

/// Answers in a row.
pub type GivenList = Many<Given>;
