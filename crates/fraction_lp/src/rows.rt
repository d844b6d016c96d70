ghost use Rattle.std.specs.Prelude.{◌≡◌, [], ◌∷◌, ◌++◌, length, slice_index_or, Some, IfOk, OnOk, OnErr};
ghost use Rattle.fraction_lp.specs.Ratio.{zero_ratio};
ghost use Rattle.fraction_lp.specs.Dictionary.{IsWhole, slack_line};
ghost use Rattle.fraction_lp.specs.Excluding.{entry_in};

use crate::Fraction;
use crate::column::Column;
use crate::line::Line;
use crate::term::Term;
use crate::terms::{coefficient_at, negated_or_zero, negated_terms};
use lists::Memory;
use std::alloc::Global;
use std::marker::Model;

/// Coefficients, and what they times the unknowns may be at most. Kept are the coefficients that aren't
/// 0, negated, as the slack's line has them.
#[derive(Debug, Drop)]
pub(crate) struct Row {
    unknowns: usize,
    terms: Vec<Term>,
    bound: Fraction,
}

impl Model for Row {
    ghost use Rattle.std.specs.Prelude.{◌≡◌};
    ghost use Rattle.fraction_lp.specs.Dictionary.{Row as TheRow, coefficients_of, negated_terms};

    ghost Value = { TheRow };

    ghost view = { λ r. record {
      coefficients = coefficients_of 0 r.unknowns r.terms.items;
      bound = r.bound;
    } };

    ghost invariant = { λ r. negated_terms 0 (coefficients_of 0 r.unknowns r.terms.items)
        ≡ r.terms.items };
}

impl Row {
    fn new(alloc: Global, coefficients: &[Fraction], bound: Fraction) -> Result<Row, Memory>
        ensures { IfOk result
            (λ row. row ≡ record { coefficients = coefficients.now; bound = bound }) }
    {
        Ok(Row {
            unknowns: coefficients.len(),
            terms: negated_terms(alloc, coefficients)?,
            bound,
        })
    }

    /// The line of the row's slack.
    pub(crate) fn slack_line(&self, alloc: Global) -> Result<Line, Memory>
        ensures { IfOk result (λ line. Some line ≡ slack_line self.now) }
    {
        let mut terms = Vec::new(alloc);
        terms.extend_from_slice(self.terms.as_slice())?;
        Ok(Line::new(self.bound, terms))
    }

    /// What the row has for an unknown, or its bound.
    pub(crate) fn entry(&self, column: Column) -> Fraction
        ensures { result ≡ entry_in column self.now }
    {
        match column {
            Column::Unknown(unknown) => self.coefficient(unknown as usize),
            Column::Bounds => self.bound,
        }
    }

    // The coefficient of an unknown.
    fn coefficient(&self, unknown: usize) -> Fraction
        ensures { result ≡ slice_index_or self.now.coefficients unknown zero_ratio }
    {
        negated_or_zero(coefficient_at(unknown, self.terms.as_slice()))
    }
}

/// The rows of a linear program over unknowns that are not negative. A zero takes no memory.
#[derive(Debug, Drop)]
pub struct Rows {
    unknowns: u32,
    rows: Vec<Row>,
}

impl Model for Rows {
    ghost use Rattle.fraction_lp.specs.Dictionary.{Program, HasWholeRows};

    ghost Value = { Program };

    ghost view = { λ r. record { unknowns = r.unknowns; rows = r.rows.items } };

    ghost invariant = { λ r. HasWholeRows r.unknowns r.rows.items };
}

impl Rows {
    pub fn new(alloc: Global, unknowns: u32) -> Rows
        ensures { result ≡ record { unknowns = unknowns; rows = [] } }
    {
        Rows {
            unknowns,
            rows: Vec::new(alloc),
        }
    }

    /// Asks that a row times the unknowns is at most a bound. Lack of memory changes nothing.
    pub fn add(&mut self, row: &[Fraction], bound: Fraction) -> Result<(), Memory>
        requires { length row.now ≡ self.old.unknowns }
        ensures ok { OnOk result
            (self.new
            ≡ record self.old
            { rows = self.old.rows ++ record { coefficients = row.now; bound = bound } ∷ [] }) }
        ensures err { OnErr result (self.new ≡ self.old) }
    {
        let row = Row::new(*self.rows.allocator(), row, bound)?;
        self.rows.push(row)?;
        Ok(())
    }

    pub(crate) fn allocator(&self) -> Global {
        *self.rows.allocator()
    }

    pub(crate) fn unknowns(&self) -> u32
        ensures { result ≡ self.now.unknowns }
    {
        self.unknowns
    }

    pub(crate) fn rows(&self) -> &[Row]
        ensures value { result.now ≡ self.now.rows }
        ensures whole { IsWhole self.now }
    {
        self.rows.as_slice()
    }
}
