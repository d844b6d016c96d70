use fraction_lp::{FractionList, Proof};
use wan_model::Plan;

/// Whether fewer rate steps are impossible, and if that isn't shown, why not.
#[derive(Debug, Drop)]
pub enum Least {
    /// What shows it.
    Shown(Proof),
    /// A plan of one rate step, which is valid.
    Fewer(Plan),
    /// A point that satisfies each row of the linear program for one step less.
    Point(FractionList),
    /// That program is for more than 8 steps, or larger than programs are built.
    Wide,
    /// A number left its type in the exchange after so many, or as the multipliers were checked.
    Overflow(u32),
    /// As many exchanges as are made at most didn't come to an end.
    Spent(u32),
    Memory,
}
