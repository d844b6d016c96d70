//! The rollout back.
ghost use Rattle.std.specs.Prelude.{◌≡◌, IfOk};
ghost use Rattle.rollback_plan.specs.Turning.{back_problem, back_plan, back};

use dependency_graph::checked_plan_is_valid;
use lists::{Marks, Memory, Nums};
use std::alloc::Global;
use wan_model::{CheckedPlan, Plan, Problem, Side, Stage, rates_on, with_rates};

/// The rollout back: old and new are exchanged, and the stages stand in reverse order, at the same scale.
/// It is valid, since the plan is. Time: the network and the plan.
pub fn back(alloc: Global, plan: &CheckedPlan) -> Result<CheckedPlan, Memory>
    ensures { IfOk result (λ there. there ≡ back plan.now) }
{
    checked_plan_is_valid(plan);
    let problem = back_problem(alloc, plan.problem())?;
    let stages = back_plan(alloc, plan.plan())?;
    Ok(CheckedPlan::seal(problem, stages))
}

fn back_problem(alloc: Global, problem: &Problem) -> Result<Problem, Memory>
    ensures { IfOk result (λ there. there ≡ back_problem problem.now) }
{
    let old = rates_on(alloc, problem, Side::New)?;
    let new = rates_on(alloc, problem, Side::Old)?;
    with_rates(alloc, problem, old.as_slice(), new.as_slice())
}

fn back_plan(alloc: Global, plan: &Plan) -> Result<Plan, Memory>
    ensures { IfOk result (λ there. there ≡ back_plan plan.now) }
{
    let stages = plan.stages.as_slice();
    let mut there = Plan::new(alloc, plan.scale);
    for s in 0..stages.len() {
        let stage = copy_of(alloc, &stages[stages.len() - 1 - s])?;
        there.add_stage(stage)?;
    }
    Ok(there)
}

fn copy_of(alloc: Global, stage: &Stage) -> Result<Stage, Memory>
    ensures { IfOk result (λ copy. copy ≡ stage.now) }
{
    let mut rates = Nums::new(alloc);
    rates.extend_from_slice(stage.rates.as_slice())?;
    let mut installed = Marks::new(alloc);
    installed.extend_from_slice(stage.installed.as_slice())?;
    Ok(Stage { rates, installed })
}
