ghost use Rattle.std.specs.Prelude.{◌≡◌, ◌<◌, length, IfOk, OnOk};
ghost use Rattle.rollout_rules.specs.Wan as wan;
ghost use Rattle.rollout_rules.specs.Network.{IsNetwork};
ghost use Rattle.rollout_rules.specs.Items.{item_count, item_at, number_of};
ghost use Rattle.rollout_rules.specs.declared.item.Item.TheVariants as variants;
ghost use Rattle.dependency_graph.specs.Index.{AreItems, AreOperations, AreFirstEntries};

use crate::changes::operations;
use lists::{Ids, Many, Memory};
use rollout_rules::Item;
use std::alloc::Global;
use wan_model::CheckedPlan;

/// All items by number. An Err is lack of memory.
pub fn items(alloc: Global, plan: &CheckedPlan) -> Result<Many<Item>, Memory>
    ensures list { IfOk result
        (λ row. AreItems plan.now.problem (item_count plan.now.problem) row) }
    ensures network { IfOk result (λ row. IsNetwork plan.now.problem) }
{
    let mut row = flows(alloc, plan)?;
    for t in 0..plan.problem().tunnels().len() {
        push_entries(&mut row, plan, t)?;
    }
    Ok(row)
}

fn flows(alloc: Global, plan: &CheckedPlan) -> Result<Many<Item>, Memory>
    ensures { IfOk result (λ row. AreItems plan.now.problem (length plan.now.problem.flows) row) }
{
    let mut row = Many::new(alloc);
    for f in 0..plan.problem().flows().len() {
        row.push(Item::Flow(f as u32))?;
    }
    Ok(row)
}

fn push_entries(row: &mut Many<Item>, plan: &CheckedPlan, t: usize) -> Result<(), Memory>
    requires tunnel { t < length plan.now.problem.tunnels }
    requires before { AreItems plan.now.problem (number_of plan.now.problem (variants.Entry t 0))
        row.old }
    ensures { OnOk result
        (AreItems plan.now.problem
        (number_of plan.now.problem (variants.Entry t (wan.hops plan.now.problem t))) row.new) }
{
    for hop in 0..plan.path(t).len() {
        row.push(Item::Entry {
            tunnel: t as u32,
            hop: hop as u32,
        })?;
    }
    Ok(())
}

/// The operations of each item by number.
pub(crate) fn operations_of_all(
    alloc: Global,
    plan: &CheckedPlan,
    items: &[Item],
) -> Result<Ids, Memory>
    requires { AreItems plan.now.problem (item_count plan.now.problem) items.now }
    ensures { IfOk result (λ row. AreOperations plan.now (item_count plan.now.problem) row) }
{
    let mut row = Ids::new(alloc);
    for n in 0..items.len() {
        row.push(operations(plan, items[n]))?;
    }
    Ok(row)
}

/// The item number of each tunnel's first entry.
pub(crate) fn first_entries(alloc: Global, plan: &CheckedPlan) -> Result<Ids, Memory>
    ensures { IfOk result
        (λ row. AreFirstEntries plan.now.problem (length plan.now.problem.tunnels) row) }
{
    let mut row = Ids::new(alloc);
    let mut next = plan.problem().flows().len() as u32;
    for t in 0..plan.problem().tunnels().len() {
        row.push(next)?;
        next += plan.path(t).len() as u32;
    }
    Ok(row)
}
