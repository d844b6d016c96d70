ghost use Rattle.std.specs.Prelude.{◌+◌, ◌<◌, length, IfOk, OnOk};
ghost use Rattle.dependency_graph.specs.Index.{AreCrossings, AreCrossingsTo};

use crate::index::many_rows::{empty_rows, push_at};
use lists::{Ids, Memory};
use std::alloc::Global;
use wan_model::CheckedPlan;

/// Per link the tunnels that cross it. Time: the links of all tunnels.
pub(crate) fn crossings(alloc: Global, plan: &CheckedPlan) -> Result<Vec<Ids>, Memory>
    ensures { IfOk result
        (λ rows. AreCrossings plan.now.problem rows.items (length plan.now.problem.links)) }
{
    let mut rows = empty_rows(alloc, plan.problem().links().len())?;
    for t in 0..plan.problem().tunnels().len() {
        push_tunnel(&mut rows, plan, t)?;
    }
    Ok(rows)
}

/// Adds a tunnel to the row of each link that it follows.
fn push_tunnel(rows: &mut Vec<Ids>, plan: &CheckedPlan, t: usize) -> Result<(), Memory>
    requires tunnel { t < length plan.now.problem.tunnels }
    requires before { AreCrossingsTo plan.now.problem t 0 rows.old.items }
    ensures { OnOk result (AreCrossingsTo plan.now.problem (t + 1) 0 rows.new.items) }
{
    let links = plan.links_of(t);
    for k in 0..links.len() {
        push_at(rows, links[k] as usize, t as u32)?;
    }
    Ok(())
}
