ghost use Rattle.std.specs.Prelude.{◌≡◌, ◌+◌, ◌<◌, length, IfOk, OnOk};
ghost use Rattle.rollout_rules.specs.Items.{number_of};
ghost use Rattle.rollout_rules.specs.declared.item.Item.TheVariants as variants;
ghost use Rattle.dependency_graph.specs.Index.{AreTables, AreTablesTo, AreFirstEntries};

use crate::index::many_rows::{empty_rows, push_at};
use crate::index::table_place::TablePlace;
use lists::{Many, Memory};
use std::alloc::Global;
use wan_model::CheckedPlan;

pub(crate) type TablePlaces = Many<TablePlace>;

/// Per switch the entries in its table. Time: the entries of all tunnels.
pub(crate) fn tables(
    alloc: Global,
    plan: &CheckedPlan,
    first_entries: &[u32],
) -> Result<Vec<TablePlaces>, Memory>
    requires { AreFirstEntries plan.now.problem (length plan.now.problem.tunnels)
        first_entries.now }
    ensures { IfOk result
        (λ rows. AreTables plan.now.problem rows.items (length plan.now.problem.switches)) }
{
    let mut rows = empty_rows(alloc, plan.problem().switches().len())?;
    for t in 0..plan.problem().tunnels().len() {
        push_entries(&mut rows, plan, t, first_entries[t])?;
    }
    Ok(rows)
}

/// Adds the entries of a tunnel to the rows of the switches on its path.
fn push_entries(
    rows: &mut Vec<TablePlaces>,
    plan: &CheckedPlan,
    t: usize,
    first_entry: u32,
) -> Result<(), Memory>
    requires tunnel { t < length plan.now.problem.tunnels }
    requires number { first_entry ≡ number_of plan.now.problem (variants.Entry t 0) }
    requires before { AreTablesTo plan.now.problem t 0 rows.old.items }
    ensures { OnOk result (AreTablesTo plan.now.problem (t + 1) 0 rows.new.items) }
{
    let path = plan.path(t);
    for hop in 0..path.len() {
        let place = TablePlace {
            tunnel: t as u32,
            item: first_entry + hop as u32,
        };
        push_at(rows, path[hop] as usize, place)?;
    }
    Ok(())
}
