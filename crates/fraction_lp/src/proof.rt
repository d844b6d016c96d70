use crate::FractionList;

/// What shows that no plan has one rate step less than a given number of them.
#[derive(Debug, Drop)]
pub enum Proof {
    /// Nothing: there is no rate step, or one, and rates differ.
    Plain,
    /// A link that doesn't carry the larger of every tunnel's old and new rate, so that one step isn't enough.
    Link(u32),
    /// Multipliers of the rows of the linear program for one step less, which no point satisfies.
    Rows(FractionList),
}
