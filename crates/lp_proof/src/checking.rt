ghost use Rattle.std.specs.Prelude.{◌≡◌, ◌<◌, IfOk};
ghost use Rattle.lp_proof.specs.Shown as spec;

use crate::direct::is_overloaded;
use fraction_lp::{FractionList, Proof, excludes};
use lists::Memory;
use scratch_plan::has_equal_rates;
use std::alloc::Global;
use step_lp::{build, cells};
use wan_model::Problem;

/// The rate steps up to which a program may be built for one step less.
const MOST_BUILT: u32 = 9;

/// Whether a proof shows that no plan has `q - 1` rate steps: true exactly where it does and no number
/// on the way leaves its type. Time: the program's rows times its unknowns.
pub fn check_proof(alloc: Global, problem: &Problem, q: u32, proof: &Proof) -> Result<bool, Memory>
    ensures { IfOk result (λ shown. shown ≡ spec.shows_least problem.now q proof.now) }
{
    match proof {
        Proof::Plain => Ok(is_plain(problem, q)),
        Proof::Link(link) => Ok(needs_two(problem, q, *link)),
        Proof::Rows(multipliers) => has_multipliers(alloc, problem, q, multipliers),
    }
}

// Whether nothing is needed to show it.
fn is_plain(problem: &Problem, q: u32) -> bool
    ensures { result ≡ spec.is_plain problem.now q }
{
    q == 0 || q == 1 && !has_equal_rates(problem)
}

// Whether a link shows that one step isn't enough.
fn needs_two(problem: &Problem, q: u32, link: u32) -> bool
    ensures { result ≡ spec.needs_two problem.now q link }
{
    if q != 2 {
        return false;
    }
    if link as usize >= problem.links().len() {
        return false;
    }
    is_overloaded(problem, link)
}

// Whether multipliers exclude the rates of one step less.
fn has_multipliers(
    alloc: Global,
    problem: &Problem,
    q: u32,
    multipliers: &FractionList,
) -> Result<bool, Memory>
    ensures { IfOk result (λ shown. shown ≡ spec.has_multipliers problem.now q multipliers.now) }
{
    if !is_built(problem, q) {
        return Ok(false);
    }
    let rows = build(alloc, problem, q - 1)?;
    Ok(excludes(&rows, multipliers.as_slice()))
}

/// Whether the program for one step less is built: it is for 2 to 8 steps, and not too large.
pub(crate) fn is_built(problem: &Problem, q: u32) -> bool
    ensures { result ≡ spec.is_built problem.now q }
{
    if q < 3 {
        return false;
    }
    if q > MOST_BUILT {
        return false;
    }
    cells(problem, q - 1).is_some()
}
