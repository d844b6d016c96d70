ghost use Rattle.std.specs.Prelude.{◌≡◌, ◌^◌, ◌<◌, ◌≤◌, true, length, slice_index_or, IfOk, if◌then◌else◌};
ghost use Rattle.fraction_lp.specs.Ratio.{zero_ratio};
ghost use Rattle.fraction_lp.specs.Program.{IsFeasible};
ghost use Rattle.step_lp.specs.Program as program;
ghost use Rattle.step_lp.specs.Points as points;

use crate::scale::common_bottom;
use crate::used::{is_used, used_count};
use fraction_lp::{Fraction, FractionList};
use lists::{Many, Memory, Nums};
use scratch_plan::frame;
use std::alloc::Global;
use wan_model::{Plan, Problem};

/// The plan of a point of the program for `q` steps: its rates over their least common denominator,
/// framed. None exactly where that denominator is no scale.
pub fn plan_of(
    alloc: Global,
    problem: &Problem,
    q: u32,
    point: &FractionList,
) -> Result<Option<Plan>, Memory>
    requires least { 2 ≤ q }
    requires most { q ≤ 8 }
    requires point { IsFeasible (program.move_program problem.now q) point.now }
    ensures { IfOk result (λ plan. plan ≡ points.plan_of problem.now q point.now) }
{
    let point = point.as_slice();
    let rates = (q - 1) * used_count(problem);
    let Some(scale) = common_bottom(&point[..rates as usize]) else {
        return Ok(None);
    };
    let rows = rows_between(alloc, problem, q, scale, point)?;
    Ok(Some(frame(alloc, problem, scale, rows.as_slice())?))
}

/// The rates of all tunnels at each stage between, in units of 1/scale.
fn rows_between(
    alloc: Global,
    problem: &Problem,
    q: u32,
    scale: u32,
    point: &[Fraction],
) -> Result<Many<Nums>, Memory>
    requires least { 2 ≤ q }
    requires most { q ≤ 8 }
    requires point { points.HaveRates problem.now q scale point.now }
    ensures { IfOk result (λ rows. rows ≡ points.rows_between problem.now q scale point.now) }
{
    let used = used_count(problem);
    let mut rows = Many::new(alloc);
    for block in 0..q - 1 {
        rows.push(rate_row(alloc, problem, scale, point, block * used)?)?;
    }
    Ok(rows)
}

/// The rates of all tunnels in the block that begins at a number of the point.
fn rate_row(
    alloc: Global,
    problem: &Problem,
    scale: u32,
    point: &[Fraction],
    first: u32,
) -> Result<Nums, Memory>
    requires few { first ≤ 61440 }
    requires point { points.FitsAt problem.now scale point.now first }
    ensures { IfOk result (λ row. row ≡ points.rate_row problem.now scale point.now first) }
{
    let mut row = Nums::new(alloc);
    let mut place = first;
    for tunnel in 0..problem.tunnels().len() as u32 {
        row.push(units_at(problem, scale, point, place, tunnel))?;
        place += u32::from(is_used(problem, tunnel));
    }
    Ok(row)
}

/// The rate of a tunnel whose number has this place in the point, where it is used.
fn units_at(problem: &Problem, scale: u32, point: &[Fraction], place: u32, tunnel: u32) -> u64
    requires tunnel { tunnel < length problem.now.tunnels }
    requires inside { program.used_at problem.now tunnel ≡ true → place < length point.now }
    requires small { program.used_at problem.now tunnel ≡ true
        → points.units_of scale (slice_index_or point.now place zero_ratio) < 2 ^ 64 }
    ensures { result
        ≡ (if program.used_at problem.now tunnel then points.units_of scale
        (slice_index_or point.now place zero_ratio) else 0) }
{
    if is_used(problem, tunnel) {
        units(scale, point[place as usize])
    } else {
        0
    }
}

/// A fraction in units of 1/scale.
fn units(scale: u32, fraction: Fraction) -> u64
    requires { points.units_of scale fraction < 2 ^ 64 }
    ensures { result ≡ points.units_of scale fraction }
{
    let parts = u128::from(scale) / fraction.bottom() as u128;
    (fraction.top().unsigned_abs() * parts) as u64
}
