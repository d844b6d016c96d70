ghost use Rattle.std.specs.Prelude.{◌≡◌, ◌-◌, ◌≤◌, ◌==◌, None, [], IsTrue};
ghost use Rattle.rollout_rules.specs.Network.{IsNetwork};
ghost use Rattle.scratch_plan.specs.Frame as frames;
ghost use Rattle.scratch_plan.specs.Refusals.{refusal};
ghost use Rattle.fraction_lp.specs.Program.{IsJust};
ghost use Rattle.fraction_lp.specs.declared.answer.LpAnswer.TheVariants as ends;
ghost use Rattle.step_lp.specs.Program.{move_program};
ghost use Rattle.lp_proof.specs.Shown as shown;
ghost use Rattle.lp_proof.specs.Least as spec;
ghost use Rattle.lp_proof.specs.declared.least.Least.TheVariants as answer;

use crate::checking::is_built;
use crate::direct::first_overloaded;
use crate::least::Least;
use fraction_lp::{FractionList, LpAnswer, Proof, Rows, excludes, solve};
use scratch_plan::frame;
use std::alloc::{AllocError, Global};
use step_lp::build;
use wan_model::Problem;

/// Looks for what shows that no plan has `q - 1` rate steps. Nothing is refused of the problem, and `q` is
/// 0 exactly where no rate differs. Each answer comes exactly where the method comes to it, and is worth
/// what its variant says; lack of memory says nothing.
pub fn prove_least(alloc: Global, problem: &Problem, q: u32) -> Least
    requires free { refusal problem.now ≡ None }
    requires still { (q == 0) ≡ frames.has_equal_rates problem.now }
    ensures value { spec.IsAnswered result (spec.least_of problem.now q) }
    ensures worth { spec.IsWorth problem.now q result }
{
    if q < 2 {
        return Least::Shown(Proof::Plain);
    }
    if q == 2 {
        return by_link(alloc, problem);
    }
    by_program(alloc, problem, q)
}

// Of two steps: a link that is too small for one, or the plan of one step.
fn by_link(alloc: Global, problem: &Problem) -> Least
    requires { refusal problem.now ≡ None }
    ensures value { spec.IsAnswered result (spec.by_link problem.now) }
    ensures worth { spec.IsWorth problem.now 2 result }
{
    match first_overloaded(problem) {
        Some(link) => Least::Shown(Proof::Link(link)),
        None => by_frame(alloc, problem),
    }
}

// The plan of one step, where every link carries it.
fn by_frame(alloc: Global, problem: &Problem) -> Least
    requires network { IsNetwork problem.now }
    requires free { refusal problem.now ≡ None }
    requires carried { spec.first_overloaded problem.now ≡ None }
    ensures value { spec.IsAnswered result (answer.Fewer (frames.frame problem.now 1 [])) }
    ensures worth { spec.IsWorth problem.now 2 result }
{
    match frame(alloc, problem, 1, &[]) {
        Ok(plan) => Least::Fewer(plan),
        Err(AllocError) => Least::Memory,
    }
}

// Of more steps: by the linear program for one step less.
fn by_program(alloc: Global, problem: &Problem, q: u32) -> Least
    requires { 3 ≤ q }
    ensures value { spec.IsAnswered result (spec.by_program problem.now q) }
    ensures worth { spec.IsWorth problem.now q result }
{
    if !is_built(problem, q) {
        return Least::Wide;
    }
    match build(alloc, problem, q - 1) {
        Ok(rows) => by_rows(problem, q, &rows),
        Err(AllocError) => Least::Memory,
    }
}

// By the end of the method on its rows.
fn by_rows(problem: &Problem, q: u32, rows: &Rows) -> Least
    requires built { IsTrue (shown.is_built problem.now q) }
    requires rows { rows.now ≡ move_program problem.now (q - 1) }
    ensures value { spec.IsAnswered result (spec.by_program problem.now q) }
    ensures worth { spec.IsWorth problem.now q result }
{
    let end = solve(rows);
    by_end(problem, q, rows, end)
}

fn by_end(problem: &Problem, q: u32, rows: &Rows, end: LpAnswer) -> Least
    requires built { IsTrue (shown.is_built problem.now q) }
    requires tried { spec.IsTried q }
    requires rows { rows.now ≡ move_program problem.now (q - 1) }
    requires just { IsJust (move_program problem.now (q - 1)) end }
    ensures value { spec.IsAnswered result (spec.by_end problem.now q end) }
    ensures worth { spec.IsWorth problem.now q result }
{
    match end {
        LpAnswer::Point(point) => Least::Point(point),
        LpAnswer::Infeasible(multipliers) => by_multipliers(problem, q, rows, multipliers),
        LpAnswer::Overflow(made) => Least::Overflow(made),
        LpAnswer::Spent(made) => Least::Spent(made),
        LpAnswer::Memory => Least::Memory,
    }
}

// By multipliers, which the check refuses where a number on its way leaves its type.
fn by_multipliers(problem: &Problem, q: u32, rows: &Rows, multipliers: FractionList) -> Least
    requires built { IsTrue (shown.is_built problem.now q) }
    requires tried { spec.IsTried q }
    requires rows { rows.now ≡ move_program problem.now (q - 1) }
    ensures value { spec.IsAnswered result
        (spec.by_end problem.now q (ends.Infeasible multipliers)) }
    ensures worth { spec.IsWorth problem.now q result }
{
    if excludes(rows, multipliers.as_slice()) {
        return Least::Shown(Proof::Rows(multipliers));
    }
    Least::Overflow(0)
}
