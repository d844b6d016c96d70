use crate::Fraction;
use lists::Many;

/// Fractions in a row: a point, or a multiplier for each row.
pub type FractionList = Many<Fraction>;

/// The end of the dictionary method.
#[derive(Debug, Drop)]
pub enum LpAnswer {
    /// A number for each unknown, none negative, at which every row holds.
    Point(FractionList),
    /// Farkas multipliers, one a row: none is negative, the rows times them have no negative
    /// coefficient, and the bounds times them are below 0. So no point is feasible.
    Infeasible(FractionList),
    /// A number left the type in the exchange after so many.
    Overflow(u32),
    /// As many exchanges as are made at most didn't come to an end.
    Spent(u32),
    Memory,
}
