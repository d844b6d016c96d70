ghost use Rattle.std.specs.Prelude.{◌≡◌};
ghost use Rattle.fraction_lp.specs.Dictionary.{Line as TheLine, solved_for, put_in_where, coefficient_at, plus_times};
ghost use Rattle.fraction_lp.specs.Steps.{Gives, Leaves};

use crate::Fraction;
use crate::step_fault::StepFault;
use crate::term::Term;
use crate::terms::{add_times, insert_term, over_each, take_term};
use std::marker::Model;
use std::mem;

/// What a basic number is: a constant and a coefficient times each number that isn't basic.
#[derive(Debug, Drop)]
pub(crate) struct Line {
    constant: Fraction,
    terms: Vec<Term>,
}

impl Model for Line {
    ghost use Rattle.fraction_lp.specs.Dictionary.{Line as TheLine};

    ghost Value = { TheLine };

    ghost view = { λ l. record { constant = l.constant; terms = l.terms.items } };
}

impl Line {
    pub(crate) fn new(constant: Fraction, terms: Vec<Term>) -> Line
        ensures { result ≡ record { constant = constant; terms = terms.items } }
    {
        Line { constant, terms }
    }

    pub(crate) fn constant(&self) -> Fraction
        ensures { result ≡ self.now.constant }
    {
        self.constant
    }

    pub(crate) fn terms(&self) -> &[Term]
        ensures { result.now ≡ self.now.terms }
    {
        self.terms.as_slice()
    }

    /// The line of b solved for the number that a term of it has.
    pub(crate) fn solved_for(self, b: usize, term: Term) -> Result<Line, StepFault>
        ensures { Gives result (solved_for b term.number term.coefficient self) }
    {
        let Line {
            constant,
            mut terms,
        } = self;
        let p = term.coefficient;
        let constant = constant.negate().over(p).ok_or(StepFault::Overflow)?;
        take_term(term.number, &mut terms);
        insert_term(
            &mut terms,
            Term {
                number: b,
                coefficient: Fraction::one().negate(),
            },
        )?;
        over_each(p, terms.as_mut_slice())?;
        Ok(Line { constant, terms })
    }

    /// Puts c's line in for c, where c has a term.
    pub(crate) fn put_in(
        &mut self,
        c: usize,
        solved: &Line,
        spare: &mut Vec<Term>,
    ) -> Result<(), StepFault>
        ensures { Leaves result
            (put_in_where solved.now c self.old (coefficient_at c self.old.terms)) self.new }
    {
        let Some(t) = take_term(c, &mut self.terms) else {
            return Ok(());
        };
        self.constant = plus_times(self.constant, t, solved.constant)?;
        spare.clear();
        add_times(t, &self.terms, &solved.terms, spare)?;
        mem::swap(&mut self.terms, spare);
        Ok(())
    }
}

fn plus_times(x: Fraction, t: Fraction, y: Fraction) -> Result<Fraction, StepFault>
    ensures { Gives result (plus_times x t y) }
{
    let added = t.times(y).ok_or(StepFault::Overflow)?;
    x.plus(added).ok_or(StepFault::Overflow)
}
