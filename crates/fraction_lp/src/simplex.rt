ghost use Rattle.std.specs.Prelude.{◌≡◌, ◌+◌, length, IfOk};
ghost use Rattle.fraction_lp.specs.Dictionary.{end_of, IsEndUnlessMemory};
ghost use Rattle.fraction_lp.specs.Program.{IsJust};
ghost use Rattle.fraction_lp.specs.Choices.{IsChoice};

use crate::LpAnswer;
use crate::dictionary::Dictionary;
use crate::rows::Rows;
use crate::step_fault::StepFault;
use crate::term::Term;
use crate::terms::entering;
use std::alloc::AllocError;

/// How many exchanges are made at most.
pub const MOST_EXCHANGES: u32 = 1000;

/// What comes next at a dictionary.
#[derive(Debug, Drop)]
pub(crate) enum Choice {
    End(LpAnswer),
    /// A basic number and a term of its line.
    Exchange(usize, Term),
}

/// Looks for a point that satisfies the rows by the dictionary method, with Bland's rule.
pub fn solve(rows: &Rows) -> LpAnswer
    ensures end { IsEndUnlessMemory result (end_of rows.now) }
    ensures just { IsJust rows.now result }
{
    match run(rows) {
        Ok(answer) => answer,
        Err(AllocError) => LpAnswer::Memory,
    }
}

fn run(rows: &Rows) -> Result<LpAnswer, AllocError>
    ensures end { IfOk result (λ answer. answer ≡ end_of rows.now) }
    ensures just { IfOk result (λ answer. IsJust rows.now answer) }
{
    let mut dictionary = Dictionary::first(rows.allocator(), rows.unknowns(), rows.rows())?;
    for made in 0..MOST_EXCHANGES {
        match choose(rows, &dictionary)? {
            Choice::End(answer) => return Ok(answer),
            Choice::Exchange(b, term) => match dictionary.exchange(b, term) {
                Ok(()) => {}
                Err(StepFault::Overflow) => return Ok(LpAnswer::Overflow(made)),
                Err(StepFault::Memory) => return Err(AllocError),
            },
        }
    }
    match choose(rows, &dictionary)? {
        Choice::End(answer) => Ok(answer),
        Choice::Exchange(_, _) => Ok(LpAnswer::Spent(MOST_EXCHANGES)),
    }
}

/// Bland's rule: the first basic number with a negative constant leaves, and the first number with a
/// positive coefficient in its line enters.
fn choose(rows: &Rows, dictionary: &Dictionary) -> Result<Choice, AllocError>
    requires { length dictionary.now ≡ rows.now.unknowns + length rows.now.rows }
    ensures { IfOk result (λ choice. IsChoice choice rows.now dictionary.now) }
{
    let alloc = rows.allocator();
    let Some(b) = dictionary.leaving() else {
        let point = dictionary.point(alloc, rows.unknowns())?;
        return Ok(Choice::End(LpAnswer::Point(point)));
    };
    match entering(dictionary.terms_at(b)) {
        Some(term) => Ok(Choice::Exchange(b, term)),
        None => {
            let unknowns = rows.unknowns() as usize;
            let multipliers = dictionary.multipliers(alloc, b, unknowns, rows.rows().len())?;
            Ok(Choice::End(LpAnswer::Infeasible(multipliers)))
        }
    }
}
