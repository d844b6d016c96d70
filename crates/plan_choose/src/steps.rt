ghost use Rattle.std.specs.Prelude.{◌≡◌, ◌+◌, ◌≤◌, IfOk};
ghost use Rattle.fraction_lp.specs.Program.{IsFeasible};
ghost use Rattle.plan_check.specs.First.{first_below};
ghost use Rattle.step_lp.specs.Program.{move_program};
ghost use Rattle.step_lp.specs.Points as points;
ghost use Rattle.plan_choose.specs.Choice as spec;

use crate::planned::Planned;
use crate::validity::where_valid;
use fraction_lp::{FractionList, LpAnswer, solve};
use lists::Memory;
use std::alloc::{AllocError, Global};
use step_lp::{build, cells, plan_of};
use wan_model::{Plan, Problem};

/// How many rate steps are tried at most.
const MOST_STEPS: u64 = 8;

/// How many rate steps are tried at most with the least slack 1/k: fewer than scratch takes.
pub(crate) fn most_tried(slack: Option<u64>) -> u32
    ensures value { result ≡ spec.most_tried slack }
    ensures most { result ≤ 8 }
{
    match slack {
        Some(k) => k.saturating_sub(2).min(MOST_STEPS) as u32,
        None => MOST_STEPS as u32,
    }
}

/// The plan of the least number of rate steps, from 2 to `most`, that has one.
pub(crate) fn fewer_steps(
    alloc: Global,
    problem: &Problem,
    most: u32,
) -> Result<Option<Planned>, Memory>
    requires { most ≤ 8 }
    ensures { IfOk result (λ found. found ≡ first_below (most + 1) (spec.step_choice problem.now)) }
{
    for q in 2..most + 1 {
        if let Some(plan) = step_plan(alloc, problem, q)? {
            return Ok(Some(Planned {
                plan,
                rate_steps: q,
            }));
        }
    }
    Ok(None)
}

// The plan of `q` rate steps, where its program is small enough and ends in a point whose plan is valid.
fn step_plan(alloc: Global, problem: &Problem, q: u32) -> Result<Option<Plan>, Memory>
    requires least { 2 ≤ q }
    requires most { q ≤ 8 }
    ensures { IfOk result (λ plan. plan ≡ spec.step_plan problem.now q) }
{
    if cells(problem, q).is_none() {
        return Ok(None);
    }
    let rows = build(alloc, problem, q)?;
    match solve(&rows) {
        LpAnswer::Point(point) => point_plan(alloc, problem, q, &point),
        LpAnswer::Memory => Err(AllocError),
        _ => Ok(None),
    }
}

// The plan of a point, where it is valid.
fn point_plan(
    alloc: Global,
    problem: &Problem,
    q: u32,
    point: &FractionList,
) -> Result<Option<Plan>, Memory>
    requires least { 2 ≤ q }
    requires most { q ≤ 8 }
    requires point { IsFeasible (move_program problem.now q) point.now }
    ensures { IfOk result
        (λ plan. plan ≡ spec.where_valid problem.now (points.plan_of problem.now q point.now)) }
{
    match plan_of(alloc, problem, q, point)? {
        Some(plan) => where_valid(alloc, problem, plan),
        None => Ok(None),
    }
}
