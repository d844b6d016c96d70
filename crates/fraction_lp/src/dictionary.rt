ghost use Rattle.std.specs.Prelude.{◌≡◌, ◌+◌, ◌^◌, ◌<◌, ◌≤◌, ◌++◌, map, take, length, vec_len, slice_set, Some, None, IfOk, OnOk};
ghost use Rattle.fraction_lp.specs.Dictionary.{first_dictionary, slack_line, is_lacking, constant_of, leaving, line_at, put_in_each, exchanged, point_of, multiplier, multipliers};
ghost use Rattle.fraction_lp.specs.Steps.{Leaves};

use crate::line::Line;
use crate::rows::Row;
use crate::step_fault::StepFault;
use crate::term::Term;
use crate::terms::{coefficient_at, negated_or_zero};
use crate::{Fraction, FractionList};
use std::alloc::{AllocError, Global};
use std::marker::Model;

/// By number: the line of each basic number.
#[derive(Debug, Drop)]
pub(crate) struct Dictionary {
    lines: Vec<Option<Line>>,
    /// Room for the terms of a line that is being changed.
    spare: Vec<Term>,
}

impl Model for Dictionary {
    ghost use Rattle.fraction_lp.specs.Dictionary.{Dictionary as TheDictionary};

    ghost Value = { TheDictionary };

    ghost view = { λ d. d.lines.items };
}

/// Puts c's line in for c in every line.
fn put_in_each(
    lines: &mut [Option<Line>],
    c: usize,
    solved: &Line,
    spare: &mut Vec<Term>,
) -> Result<(), StepFault>
    ensures { Leaves result (put_in_each solved.now c lines.old) lines.new }
{
    for slot in lines.iter_mut() {
        if let Some(line) = slot {
            line.put_in(c, solved, spare)?;
        }
    }
    Ok(())
}

impl Dictionary {
    /// The first dictionary: every slack is basic.
    pub(crate) fn first(
        alloc: Global,
        unknowns: u32,
        rows: &[Row],
    ) -> Result<Dictionary, AllocError>
        ensures { IfOk result
            (λ d. d ≡ first_dictionary (record { unknowns = unknowns; rows = rows.now })) }
    {
        let mut lines = Vec::new(alloc);
        for _unknown in 0..unknowns {
            lines.push(None)?;
        }
        add_slack_lines(alloc, rows, &mut lines)?;
        Ok(Dictionary {
            lines,
            spare: Vec::new(alloc),
        })
    }

    /// The first basic number with a negative constant.
    pub(crate) fn leaving(&self) -> Option<usize>
        ensures { result ≡ leaving self.now }
    {
        self.lines.iter().position(is_lacking)
    }

    /// The terms of a basic number's line.
    pub(crate) fn terms_at(&self, b: usize) -> &[Term]
        ensures { result.now ≡ (line_at b self.now).terms }
    {
        match self.lines.get(b) {
            Some(Some(line)) => line.terms(),
            _ => &[],
        }
    }

    /// Exchanges b, the number that leaves, and the number of a term of its line.
    pub(crate) fn exchange(&mut self, b: usize, term: Term) -> Result<(), StepFault>
        requires b { leaving self.old ≡ Some b }
        requires c { term.number < length self.old }
        ensures { Leaves result (exchanged b term self.old) self.new }
    {
        exchange_lines(&mut self.lines, &mut self.spare, b, term)
    }

    /// The constants of the basic unknowns, and 0 for the others.
    pub(crate) fn point(&self, alloc: Global, unknowns: u32) -> Result<FractionList, AllocError>
        requires { unknowns ≤ length self.now }
        ensures { IfOk result (λ xs. xs ≡ map constant_of (take unknowns self.now)) }
    {
        constants(alloc, &self.lines[..unknowns as usize])
    }

    /// The multipliers of so many rows, whose slacks begin at a number.
    pub(crate) fn multipliers(
        &self,
        alloc: Global,
        b: usize,
        first: usize,
        rows: usize,
    ) -> Result<FractionList, AllocError>
        requires { first + rows < 2 ^ 64 }
        ensures { IfOk result (λ ys. ys ≡ multipliers b (line_at b self.now).terms first rows) }
    {
        let terms = self.terms_at(b);
        let mut multipliers = FractionList::new(alloc);
        for row in 0..rows {
            multipliers.push(multiplier(b, terms, first + row))?;
        }
        Ok(multipliers)
    }
}

fn exchange_lines(
    lines: &mut Vec<Option<Line>>,
    spare: &mut Vec<Term>,
    b: usize,
    term: Term,
) -> Result<(), StepFault>
    requires b { leaving lines.old.items ≡ Some b }
    requires c { term.number < vec_len lines.old }
    ensures { Leaves result (exchanged b term lines.old.items) lines.new.items }
{
    let c = term.number;
    let line = take_line(lines, b);
    let solved = line.solved_for(b, term)?;
    put_in_each(lines.as_mut_slice(), c, &solved, spare)?;
    lines[c].replace(solved);
    Ok(())
}

/// Takes out the line of a number that is to leave.
fn take_line(lines: &mut Vec<Option<Line>>, b: usize) -> Line
    requires { leaving lines.old.items ≡ Some b }
    ensures line { result ≡ line_at b lines.old.items }
    ensures lines { lines.new.items ≡ slice_set lines.old.items b None }
{
    match lines[b].take() {
        Some(line) => line,
        None => unreachable!(),
    }
}

fn is_lacking(slot: &Option<Line>) -> bool
    ensures { result ≡ is_lacking slot.now }
{
    match slot {
        Some(line) => line.constant().is_below_zero(),
        None => false,
    }
}

fn constant_of(slot: &Option<Line>) -> Fraction
    ensures { result ≡ constant_of slot.now }
{
    match slot {
        Some(line) => line.constant(),
        None => Fraction::zero(),
    }
}

/// 1 for b, and else the slack's coefficient in b's line negated.
fn multiplier(b: usize, terms: &[Term], slack: usize) -> Fraction
    ensures { result ≡ multiplier b terms.now slack }
{
    if slack == b {
        return Fraction::one();
    }
    negated_or_zero(coefficient_at(slack, terms))
}

/// Adds each row's slack as a line.
fn add_slack_lines(
    alloc: Global,
    rows: &[Row],
    lines: &mut Vec<Option<Line>>,
) -> Result<(), AllocError>
    ensures { OnOk result (lines.new.items ≡ lines.old.items ++ map slack_line rows.now) }
{
    for row in rows {
        lines.push(Some(row.slack_line(alloc)?))?;
    }
    Ok(())
}

fn constants(alloc: Global, slots: &[Option<Line>]) -> Result<FractionList, AllocError>
    ensures { IfOk result (λ xs. xs ≡ map constant_of slots.now) }
{
    let mut constants = FractionList::new(alloc);
    for slot in slots {
        constants.push(constant_of(slot))?;
    }
    Ok(constants)
}
