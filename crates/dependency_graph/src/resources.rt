ghost use Rattle.std.specs.Prelude.{◌≡◌, ◌+◌, ◌<◌, [], ◌∷◌, length, IfOk, OnOk, IsTrue};
ghost use Rattle.rollout_rules.specs.Wan as wan;
ghost use Rattle.rollout_rules.specs.Items.{is_item, item_count, item_at};
ghost use Rattle.dependency_graph.specs.Index.{AreEmpty};
ghost use Rattle.dependency_graph.specs.Touched.{IsItemRow, AreRows};

use crate::flow_row::row_of_flow;
use crate::index::Index;
use crate::item_row::ItemRow;
use crate::scratch_row::{ScratchRow, scratch_rows};
use lists::{Ids, Many, Memory};
use rollout_rules::Item;
use std::alloc::Global;
use std::marker::Model;
use std::snapshot::Snapshot;
use wan_model::CheckedPlan;

/// Per item what it takes of: the links of a flow's tunnels, with those that cross each, or an entry's table.
#[derive(Drop)]
pub(crate) struct Touched {
    plan: Snapshot<CheckedPlan>,
    rows: Many<ItemRow>,
}

impl Model for Touched {
    ghost use Rattle.rollout_rules.specs.Wan.{Rollout};
    ghost use Rattle.rollout_rules.specs.Items.{item_count};
    ghost use Rattle.dependency_graph.specs.Touched.{AreRows};

    ghost Value = { Rollout };

    ghost view = { λ t. t.plan.value };

    ghost invariant = { λ t. AreRows t.plan.value.problem t.rows
        (item_count t.plan.value.problem) };
}

impl Touched {
    /// Time: the links of all tunnels, and the items.
    pub(crate) fn new(alloc: Global, plan: &CheckedPlan, index: &Index) -> Result<Touched, Memory>
        requires { index.now ≡ plan.now }
        ensures { IfOk result (λ touched. touched ≡ plan.now) }
    {
        Ok(Touched {
            plan: Snapshot::of(plan),
            rows: rows(alloc, plan, index)?,
        })
    }

    /// What an item takes of.
    pub(crate) fn row(&self, item: u32) -> &ItemRow
        requires { item < item_count self.now.problem }
        ensures { IsItemRow self.now.problem (item_at self.now.problem item) result.now }
    {
        &self.rows.as_slice()[item as usize]
    }
}

fn rows(alloc: Global, plan: &CheckedPlan, index: &Index) -> Result<Many<ItemRow>, Memory>
    requires { index.now ≡ plan.now }
    ensures { IfOk result (λ rows. AreRows plan.now.problem rows (item_count plan.now.problem)) }
{
    let mut scratch = scratch_rows(alloc, plan.problem().links().len())?;
    let mut rows = Many::new(alloc);
    push_rows(alloc, &mut rows, plan, index, &mut scratch)?;
    Ok(rows)
}

fn push_rows(
    alloc: Global,
    rows: &mut Many<ItemRow>,
    plan: &CheckedPlan,
    index: &Index,
    scratch: &mut Vec<ScratchRow>,
) -> Result<(), Memory>
    requires own { index.now ≡ plan.now }
    requires rows { rows.old ≡ [] }
    requires scratch { AreEmpty (length plan.now.problem.links) scratch.old.items }
    ensures { OnOk result (AreRows plan.now.problem rows.new (item_count plan.now.problem)) }
{
    for item in 0..index.item_count() {
        rows.push(row(alloc, plan, scratch, index.item(item))?)?;
    }
    Ok(())
}

fn row(
    alloc: Global,
    plan: &CheckedPlan,
    scratch: &mut Vec<ScratchRow>,
    item: Item,
) -> Result<ItemRow, Memory>
    requires item { IsTrue (is_item plan.now.problem item) }
    requires scratch { AreEmpty (length plan.now.problem.links) scratch.old.items }
    ensures row { IfOk result (λ row. IsItemRow plan.now.problem item row) }
    ensures scratch { OnOk result (AreEmpty (length plan.now.problem.links) scratch.new.items) }
{
    match item {
        Item::Flow(flow) => row_of_flow(alloc, plan, scratch, flow as usize),
        Item::Entry { tunnel, hop } => {
            let table = table_of(alloc, plan, tunnel as usize, hop as usize)?;
            Ok(ItemRow::of_table(alloc, table))
        }
    }
}

/// The number of an entry's table, alone in a row.
fn table_of(alloc: Global, plan: &CheckedPlan, t: usize, hop: usize) -> Result<Ids, Memory>
    requires tunnel { t < length plan.now.problem.tunnels }
    requires hop { hop < wan.hops plan.now.problem t }
    ensures is { IfOk result
        (λ row. row ≡ (length plan.now.problem.links + wan.switch_of plan.now.problem t hop) ∷ []) }
    ensures inside { wan.switch_of plan.now.problem t hop < length plan.now.problem.switches }
{
    let table = plan.problem().links().len() + plan.switch_of(t, hop);
    let mut row = Ids::new(alloc);
    row.push(table as u32)?;
    Ok(row)
}
