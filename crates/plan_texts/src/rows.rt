//! What is taken of links and tables, stage by stage.
ghost use Rattle.std.specs.Prelude.{◌≡◌, ◌+◌, ◌<◌, ◌≤◌, [], length, slice_index, slice_index_or, IfOk};
ghost use Rattle.plan_texts.specs.Rows as spec;
ghost use Rattle.plan_texts.specs.Rows.{IsChecked, ahead_of, cell};

use crate::sums::{Sums, link_sums, table_sums};
use lists::{Many, Memory};
use std::alloc::Global;
use wan_model::{Plan, Problem};

/// By stage, what is taken of each link or table there, and at most in the step from there on.
#[derive(Drop)]
pub(crate) struct Rows {
    pub(crate) taken: Many<Sums>,
    pub(crate) most: Many<Sums>,
}

/// Those of the links.
pub(crate) fn all_links(alloc: Global, problem: &Problem, plan: &Plan) -> Result<Rows, Memory>
    requires { IsChecked problem.now plan.now }
    ensures taken { IfOk result (λ rows. rows.taken ≡ spec.link_rows problem.now plan.now 0) }
    ensures most { IfOk result (λ rows. rows.most ≡ spec.link_rows problem.now plan.now 1) }
{
    let taken = link_rows(alloc, problem, plan, 0)?;
    let most = link_rows(alloc, problem, plan, 1)?;
    Ok(Rows { taken, most })
}

/// Those of the tables.
pub(crate) fn all_tables(alloc: Global, problem: &Problem, plan: &Plan) -> Result<Rows, Memory>
    requires { IsChecked problem.now plan.now }
    ensures taken { IfOk result (λ rows. rows.taken ≡ spec.table_rows problem.now plan.now 0) }
    ensures most { IfOk result (λ rows. rows.most ≡ spec.table_rows problem.now plan.now 1) }
{
    let taken = table_rows(alloc, problem, plan, 0)?;
    let most = table_rows(alloc, problem, plan, 1)?;
    Ok(Rows { taken, most })
}

/// By stage what is taken of each link at the stage or at the one so far ahead.
fn link_rows(
    alloc: Global,
    problem: &Problem,
    plan: &Plan,
    ahead: usize,
) -> Result<Many<Sums>, Memory>
    requires checked { IsChecked problem.now plan.now }
    requires few { ahead ≤ 1 }
    ensures { IfOk result (λ rows. rows ≡ spec.link_rows problem.now plan.now ahead) }
{
    let mut rows = Many::new(alloc);
    for s in 0..plan.stages.as_slice().len() {
        let next = stage_ahead(plan, s, ahead);
        let row = link_sums(alloc, problem, plan, s, next)?;
        rows.push(row)?;
    }
    Ok(rows)
}

/// The same of each table.
fn table_rows(
    alloc: Global,
    problem: &Problem,
    plan: &Plan,
    ahead: usize,
) -> Result<Many<Sums>, Memory>
    requires checked { IsChecked problem.now plan.now }
    requires few { ahead ≤ 1 }
    ensures { IfOk result (λ rows. rows ≡ spec.table_rows problem.now plan.now ahead) }
{
    let mut rows = Many::new(alloc);
    for s in 0..plan.stages.as_slice().len() {
        let next = stage_ahead(plan, s, ahead);
        let row = table_sums(alloc, problem, plan, s, next)?;
        rows.push(row)?;
    }
    Ok(rows)
}

/// The stage that is so far ahead of another, or the last.
fn stage_ahead(plan: &Plan, s: usize, ahead: usize) -> usize
    requires stage { s < length plan.now.stages }
    requires few { ahead ≤ 1 }
    ensures value { result ≡ ahead_of plan.now ahead s }
    ensures inside { result < length plan.now.stages }
{
    let last = plan.last_stage();
    if s < last { s + ahead } else { last }
}

/// The number at a place of a stage's row.
pub(crate) fn read(rows: &Many<Sums>, stage: usize, place: usize) -> u128
    requires stage { stage < length rows.now }
    requires place { place < length (slice_index_or rows.now stage []) }
    ensures { result ≡ cell rows.now place stage }
{
    let rows = rows.as_slice();
    let row = &rows[stage];
    sum_at(row, place)
}

fn sum_at(row: &Sums, place: usize) -> u128
    requires { place < length row.now }
    ensures { result ≡ slice_index row.now place }
{
    row.as_slice()[place]
}
