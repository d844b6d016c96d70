use lists::Many;

/// The operation of an item, numbered from 1.
#[derive(Clone, Copy, Debug, PartialEq, Eq)]
pub struct Op {
    pub item: u32,
    pub number: u32,
}

/// An entry of a history: an operation begun, or done.
#[derive(Clone, Copy, Debug, PartialEq, Eq)]
pub enum Entry {
    Begin(Op),
    Done(Op),
}

/// What a policy sees of an item's next operation: the stage at which the item stands, its operations
/// not yet begun, and the longest chain of operations from this one in which each next one is the same
/// item's next or needs the one before (Dionysus).
#[derive(Clone, Copy, Debug, PartialEq, Eq)]
pub struct OpView {
    pub item: u32,
    pub number: u32,
    pub stage: u32,
    pub left: u32,
    pub chain: u32,
}

/// A history, or a part of one.
pub type EntryList = Many<Entry>;

/// Operations in a row.
pub type OpList = Many<Op>;
