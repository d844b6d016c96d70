ghost use Rattle.std.specs.Prelude.{◌≡◌, ℕ, ◌+◌, ◌<◌, ◌≤◌, ◌^◌, length, slice_index, is_none, IfSome, IsTrue};
ghost use Rattle.rollout_rules.specs.Sums.{all_below};
ghost use Rattle.rollout_rules.specs.Wan.{last_stage};
ghost use Rattle.rollout_rules.specs.Items.{is_item};
ghost use Rattle.dependency_graph.specs.Cells.{cell, resource_count, rises, falls, AreCells, AreRaised, cell_holds};
ghost use Rattle.dependency_graph.specs.Touched.{IsItemRow};
ghost use Rattle.dependency_graph.specs.Waiting.{Fails};
ghost use Rattle.dependency_graph.specs.Cells as rooms;

use crate::amounts::{capacity, fall, rise};
use crate::cells::Cells;
use crate::item_row::ItemRow;
use rollout_rules::Item;
use wan_model::CheckedPlan;

/// Adds what the step of an item from stage `x` on takes more than its content there, to the cells of its
/// row at the stages from `low` on and before `x`.
pub(crate) fn raise_row(
    cells: &mut Cells,
    plan: &CheckedPlan,
    item: Item,
    x: usize,
    low: usize,
    row: &ItemRow,
)
    requires item { IsTrue (is_item plan.now.problem item) }
    requires stage { x ≤ last_stage plan.now.plan }
    requires order { low ≤ x }
    requires row { IsItemRow plan.now.problem item row.now }
    requires cells { AreCells plan.now cells.old }
    requires fits { (q s : ℕ)
        → q < resource_count plan.now.problem
        → low ≤ s
        → s < x
        → cell cells.old q s + rises plan.now item x q < 2 ^ 60 }
    ensures { AreRaised low x (rises plan.now item x) cells.old cells.new }
{
    let resources = row.resources();
    for k in 0..resources.len() {
        let amount = rise(plan, item, x, row, k);
        cells.raise(resources[k] as usize, low, x, amount);
    }
}

/// Takes what the step takes more than the content of the next stage from the cells of the row, at the
/// stages from `low` on and up to `x`.
pub(crate) fn lower_row(
    cells: &mut Cells,
    plan: &CheckedPlan,
    item: Item,
    x: usize,
    low: usize,
    row: &ItemRow,
)
    requires item { IsTrue (is_item plan.now.problem item) }
    requires stage { x < last_stage plan.now.plan }
    requires order { low ≤ x }
    requires row { IsItemRow plan.now.problem item row.now }
    requires cells { AreCells plan.now cells.old }
    requires there { (q s : ℕ)
        → q < resource_count plan.now.problem
        → low ≤ s
        → s < x + 1
        → falls plan.now item x q ≤ cell cells.old q s }
    ensures { AreRaised low (x + 1) (falls plan.now item x) cells.new cells.old }
{
    let _ = plan.last_stage();
    let resources = row.resources();
    for k in 0..resources.len() {
        let amount = fall(plan, item, x, row, k);
        cells.lower(resources[k] as usize, low, x + 1, amount);
    }
}

/// The first resource of a row without room for what the step takes more than the content at its stage, at
/// the stages from `low` on and before `x`.
pub(crate) fn first_lacking(
    cells: &Cells,
    plan: &CheckedPlan,
    item: Item,
    x: usize,
    low: usize,
    row: &ItemRow,
) -> Option<u32>
    requires item { IsTrue (is_item plan.now.problem item) }
    requires stage { x ≤ last_stage plan.now.plan }
    requires order { low ≤ x }
    requires row { IsItemRow plan.now.problem item row.now }
    requires cells { AreCells plan.now cells.now }
    ensures none { is_none result
        ≡ rooms.row_holds plan.now cells.now low x (rises plan.now item x) row.now.resources }
    ensures lacking { IfSome result
        (λ q. Fails plan.now cells.now low x (rises plan.now item x) q) }
{
    let resources = row.resources();
    for k in 0..resources.len() {
        let resource = resources[k];
        let amount = rise(plan, item, x, row, k);
        if !holds(cells, plan, resource as usize, low, x, amount) {
            return Some(resource);
        }
    }
    None
}

fn holds(
    cells: &Cells,
    plan: &CheckedPlan,
    resource: usize,
    low: usize,
    high: usize,
    amount: u64,
) -> bool
    requires resource { resource < resource_count plan.now.problem }
    requires order { low ≤ high }
    requires stages { high ≤ last_stage plan.now.plan }
    requires cells { AreCells plan.now cells.now }
    ensures { result ≡ all_below high (cell_holds plan.now cells.now low resource amount) }
{
    let capacity = capacity(plan, resource);
    for stage in low..high {
        if u128::from(cells.cell(resource, stage)) + u128::from(amount) > capacity {
            return false;
        }
    }
    true
}
