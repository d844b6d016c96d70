ghost use Rattle.std.specs.Prelude.{◌≡◌, ◌<◌, ◌≤◌, List, [], ◌∷◌, ◌++◌, map, length, IfOk, OnOk};
ghost use Rattle.rollout_rules.specs.Network.{IsNetwork};
ghost use Rattle.scratch_plan.specs.Frame as spec;
ghost use Rattle.scratch_plan.specs.Groups.{is_in};
ghost use Rattle.scratch_plan.specs.Marks.{is_used};
ghost use Rattle.scratch_plan.specs.Building.{row_on, with_stages, begun};

use crate::group::Group;
use lists::{Marks, Memory, Nums};
use std::alloc::Global;
use wan_model::{Plan, Problem, Side, Stage};

/// The frame of a plan over the rates between: each row has a rate per tunnel, in units of 1/scale, and
/// there is one rate step more than rows. Tunnels go and come in stages of their own, where there are any.
pub fn frame(alloc: Global, problem: &Problem, scale: u32, between: &[Nums]) -> Result<Plan, Memory>
    ensures { IfOk result (λ plan. plan ≡ spec.frame problem.now scale between.now) }
{
    let new = split_row(alloc, problem, Side::New, scale)?;
    let row = new.as_slice();
    let mut plan = begin(alloc, problem, scale)?;
    add_rates(alloc, &mut plan, problem, between)?;
    add_stage(alloc, &mut plan, problem, row, Group::Used)?;
    add_where(alloc, &mut plan, problem, Group::Left, row, Group::Wanted)?;
    Ok(plan)
}

/// The frame without a rate step, at scale 1. It leads to the new split where old and new rates are equal.
pub fn still(alloc: Global, problem: &Problem) -> Result<Plan, Memory>
    ensures { IfOk result (λ plan. plan ≡ spec.still problem.now) }
{
    let new = split_row(alloc, problem, Side::New, 1)?;
    let row = new.as_slice();
    let mut plan = begin(alloc, problem, 1)?;
    add_where(alloc, &mut plan, problem, Group::Left, row, Group::Wanted)?;
    Ok(plan)
}

// The stages before rates move: the old split, idle tunnels gone, new ones there.
pub(crate) fn begin(alloc: Global, problem: &Problem, scale: u32) -> Result<Plan, Memory>
    ensures { IfOk result (λ plan. plan ≡ begun problem.now scale) }
{
    let old = split_row(alloc, problem, Side::Old, scale)?;
    let row = old.as_slice();
    let mut plan = Plan::new(alloc, scale);
    add_stage(alloc, &mut plan, problem, row, Group::WasThere)?;
    add_where(alloc, &mut plan, problem, Group::Idle, row, Group::Kept)?;
    add_where(alloc, &mut plan, problem, Group::Fresh, row, Group::Used)?;
    Ok(plan)
}

// Scale times the rates of a split.
pub(crate) fn split_row(
    alloc: Global,
    problem: &Problem,
    side: Side,
    scale: u32,
) -> Result<Nums, Memory>
    ensures row { IfOk result (λ row. row ≡ row_on side problem.now scale) }
    ensures network { IsNetwork problem.now }
{
    let mut row = Nums::new(alloc);
    for t in 0..problem.tunnels().len() {
        row.push(u64::from(scale) * problem.rate_on(side, t).unwrap_or(0))?;
    }
    Ok(row)
}

fn add_rates(alloc: Global, plan: &mut Plan, problem: &Problem, rows: &[Nums]) -> Result<(), Memory>
    ensures { OnOk result
        (plan.new
        ≡ with_stages plan.old (map (λ row. spec.stage_of problem.now row is_used) rows.now)) }
{
    for row in rows {
        add_stage(alloc, plan, problem, row.as_slice(), Group::Used)?;
    }
    Ok(())
}

pub(crate) fn add_where(
    alloc: Global,
    plan: &mut Plan,
    problem: &Problem,
    test: Group,
    row: &[u64],
    installed: Group,
) -> Result<(), Memory>
    ensures { OnOk result
        (plan.new
        ≡ with_stages plan.old
        (spec.where_any (is_in test) problem.now
        (spec.stage_of problem.now row.now (is_in installed)))) }
{
    if test.is_empty(problem) {
        return Ok(());
    }
    add_stage(alloc, plan, problem, row, installed)
}

pub(crate) fn add_stage(
    alloc: Global,
    plan: &mut Plan,
    problem: &Problem,
    row: &[u64],
    installed: Group,
) -> Result<(), Memory>
    ensures { OnOk result
        (plan.new
        ≡ with_stages plan.old (spec.stage_of problem.now row.now (is_in installed) ∷ [])) }
{
    let mut rates = Nums::new(alloc);
    rates.extend_from_slice(row)?;
    let installed = marks(alloc, problem, installed)?;
    plan.add_stage(Stage { rates, installed })
}

// Adds a stage whose rates these become.
pub(crate) fn add_row(
    alloc: Global,
    plan: &mut Plan,
    problem: &Problem,
    rates: Nums,
    installed: Group,
) -> Result<(), Memory>
    ensures { OnOk result
        (plan.new
        ≡ with_stages plan.old (spec.stage_of problem.now rates (is_in installed) ∷ [])) }
{
    let installed = marks(alloc, problem, installed)?;
    plan.add_stage(Stage { rates, installed })
}

fn marks(alloc: Global, problem: &Problem, installed: Group) -> Result<Marks, Memory>
    ensures { IfOk result (λ marks. marks ≡ map (is_in installed) problem.now.tunnels) }
{
    let mut marks = Marks::new(alloc);
    for t in 0..problem.tunnels().len() {
        marks.push(installed.has(problem, t))?;
    }
    Ok(marks)
}
