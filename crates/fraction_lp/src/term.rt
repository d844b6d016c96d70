use crate::Fraction;

/// A number of a program with its coefficient.
#[derive(Clone, Copy, Debug, Drop)]
pub(crate) struct Term {
    pub(crate) number: usize,
    pub(crate) coefficient: Fraction,
}
