//! What is looked up of a plan before its loads are told.
ghost use Rattle.std.specs.Prelude.{IfOk};
ghost use Rattle.rollout_rules.specs.Wan as wan;
ghost use Rattle.plan_texts.specs.LookedUp.{AreLoadsIn, AreLoadsOf};
ghost use Rattle.plan_texts.specs.Rows.{IsChecked};

use crate::rows::{Rows, all_links, all_tables};
use dependency_graph::checked_plan_is_valid;
use lists::Memory;
use std::alloc::Global;
use wan_model::{CheckedPlan, Plan, Problem};
use wan_text::Names;

/// The names of a plan's problem, and what is taken of its links and tables, stage by stage.
#[derive(Drop)]
pub struct LoadRows {
    pub(crate) names: Names,
    pub(crate) links: Rows,
    pub(crate) tables: Rows,
}

impl LoadRows {
    ghost use Rattle.std.specs.Prelude.{IfOk};
    ghost use Rattle.plan_texts.specs.LookedUp.{AreLoadsOf};

    /// Those of a plan. All the memory for its text is taken here: an Err is want of it.
    pub fn of(alloc: Global, plan: &CheckedPlan) -> Result<Self, Memory>
        ensures { IfOk result (λ rows. AreLoadsOf rows plan.now) }
    {
        checked_plan_is_valid(plan);
        rows_of(alloc, plan.problem(), plan.plan())
    }
}

fn rows_of(alloc: Global, problem: &Problem, plan: &Plan) -> Result<LoadRows, Memory>
    requires { IsChecked problem.now plan.now }
    ensures { IfOk result (λ rows. AreLoadsIn rows problem.now plan.now) }
{
    let names = Names::of(alloc, problem)?;
    let links = all_links(alloc, problem, plan)?;
    let tables = all_tables(alloc, problem, plan)?;
    Ok(LoadRows {
        names,
        links,
        tables,
    })
}
