ghost use Rattle.std.specs.Prelude.{◌≡◌, [], ◌∷◌, ◌++◌, ◌≤◌, length, take, drop, Some, None, IfNone, OnOk, IfOk};
ghost use Rattle.fraction_lp.specs.Dictionary.{with_term, times_each, below, from, add_first, add_times, coefficient_at, negated_or_zero, without, insert_term, over_each, entering, negated_terms};
ghost use Rattle.fraction_lp.specs.Steps.{Leaves, TakesSome, behind};

use crate::Fraction;
use crate::step_fault::StepFault;
use crate::term::Term;
use std::alloc::{AllocError, Global};

/// Adds a term at the end, where its coefficient isn't 0.
fn keep(kept: &mut Vec<Term>, number: usize, coefficient: Fraction) -> Result<(), StepFault>
    ensures { Leaves result (behind kept.old.items (with_term number (Some coefficient) (Some [])))
        kept.new.items }
{
    if !coefficient.is_zero() {
        kept.push(Term {
            number,
            coefficient,
        })
        .map_err(AllocError::from)?;
    }
    Ok(())
}

/// Adds t times each term at the end.
pub(crate) fn times_each(t: Fraction, terms: &[Term], made: &mut Vec<Term>) -> Result<(), StepFault>
    ensures { Leaves result (behind made.old.items (times_each t terms.now)) made.new.items }
{
    for term in terms {
        let coefficient = t.times(term.coefficient).ok_or(StepFault::Overflow)?;
        keep(made, term.number, coefficient)?;
    }
    Ok(())
}

/// How many terms stand before a number.
fn count_below(number: usize, terms: &[Term]) -> usize
    ensures within { result ≤ length terms.now }
    ensures before { take result terms.now ≡ below number terms.now }
    ensures later { drop result terms.now ≡ from number terms.now }
{
    for (place, term) in terms.iter().enumerate() {
        if term.number >= number {
            return place;
        }
    }
    terms.len()
}

/// Adds a term at the end, with t times the first of others added to it where that has its number.
/// Says how many of the others were taken.
fn add_first(
    t: Fraction,
    term: Term,
    others: &[Term],
    made: &mut Vec<Term>,
) -> Result<usize, StepFault>
    ensures { TakesSome result (λ rest. behind made.old.items (add_first t term rest others.now))
        made.new.items others.now }
{
    if let Some(first) = others.first() {
        if first.number == term.number {
            let added = t.times(first.coefficient).ok_or(StepFault::Overflow)?;
            let sum = term.coefficient.plus(added).ok_or(StepFault::Overflow)?;
            keep(made, term.number, sum)?;
            return Ok(1);
        }
    }
    made.push(term).map_err(AllocError::from)?;
    Ok(0)
}

/// Adds terms at the end to which t times each of others is added, by number.
pub(crate) fn add_times(
    t: Fraction,
    terms: &[Term],
    others: &[Term],
    made: &mut Vec<Term>,
) -> Result<(), StepFault>
    ensures { Leaves result (behind made.old.items (add_times t terms.now others.now))
        made.new.items }
{
    let mut rest = others;
    for term in terms {
        let (before, later) = rest.split_at(count_below(term.number, rest));
        times_each(t, before, made)?;
        let taken = add_first(t, *term, later, made)?;
        rest = &later[taken..];
    }
    times_each(t, rest, made)
}

/// Takes a number's term out and gives its coefficient, where it has one.
pub(crate) fn take_term(number: usize, terms: &mut Vec<Term>) -> Option<Fraction>
    ensures coefficient { result ≡ coefficient_at number terms.old.items }
    ensures rest { terms.new.items ≡ without number terms.old.items }
    ensures same { IfNone result (terms.new.items ≡ terms.old.items) }
{
    for place in 0..terms.len() {
        if terms[place].number == number {
            return Some(terms.remove(place).coefficient);
        }
    }
    None
}

/// Puts a term in its place.
pub(crate) fn insert_term(terms: &mut Vec<Term>, term: Term) -> Result<(), AllocError>
    ensures { OnOk result (terms.new.items ≡ insert_term term terms.old.items) }
{
    let place = count_below(term.number, terms);
    terms.insert(place, term)?;
    Ok(())
}

/// Puts each coefficient, negated, over p.
pub(crate) fn over_each(p: Fraction, terms: &mut [Term]) -> Result<(), StepFault>
    ensures { Leaves result (over_each p terms.old) terms.new }
{
    for term in terms.iter_mut() {
        term.coefficient = term
            .coefficient
            .negate()
            .over(p)
            .ok_or(StepFault::Overflow)?;
    }
    Ok(())
}

/// A number's coefficient, where it has a term.
pub(crate) fn coefficient_at(number: usize, terms: &[Term]) -> Option<Fraction>
    ensures { result ≡ coefficient_at number terms.now }
{
    for term in terms {
        if term.number == number {
            return Some(term.coefficient);
        }
    }
    None
}

/// What a number's coefficient in a row is, by that of its term: a term has it negated, and a number
/// without one has 0.
pub(crate) fn negated_or_zero(coefficient: Option<Fraction>) -> Fraction
    ensures { result ≡ negated_or_zero coefficient }
{
    match coefficient {
        Some(coefficient) => coefficient.negate(),
        None => Fraction::zero(),
    }
}

/// The first term with a positive coefficient.
pub(crate) fn entering(terms: &[Term]) -> Option<Term>
    ensures { result ≡ entering terms.now }
{
    for term in terms {
        if term.coefficient.is_above_zero() {
            return Some(*term);
        }
    }
    None
}

/// A row's coefficients negated, without those that are 0.
pub(crate) fn negated_terms(
    alloc: Global,
    coefficients: &[Fraction],
) -> Result<Vec<Term>, AllocError>
    ensures { IfOk result (λ terms. terms.items ≡ negated_terms 0 coefficients.now) }
{
    let mut terms = Vec::new(alloc);
    for (number, coefficient) in coefficients.iter().enumerate() {
        if !coefficient.is_zero() {
            let coefficient = coefficient.negate();
            terms.push(Term {
                number,
                coefficient,
            })?;
        }
    }
    Ok(terms)
}
