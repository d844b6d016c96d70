//! Which switch is asked about which items.
ghost use Rattle.std.specs.Prelude.{◌≡◌, ◌++◌, ◌<◌, [], ◌∷◌, length, IfOk, OnOk, if◌then◌else◌};
ghost use Rattle.rollout_rules.specs.Items.{item_count};
ghost use Rattle.switch_ports.specs.Outboxes.{home_at};
ghost use Rattle.held_service.specs.Questions.{asked_home, asked_homes, is_asked, items_at};

use dependency_graph::Index;
use lists::{Ids, Many, Memory};
use std::alloc::Global;
use wan_model::{CheckedPlan, home_of_item};

/// The switch that is asked about each item, by the item's number; none about one that has no operation.
pub(crate) fn asked_homes(
    alloc: Global,
    plan: &CheckedPlan,
    index: &Index,
) -> Result<Many<Option<u32>>, Memory>
    requires { index.now ≡ plan.now }
    ensures { IfOk result (λ homes. homes ≡ asked_homes plan.now.problem plan.now.plan) }
{
    let mut homes = Many::new(alloc);
    for number in 0..index.item_count() {
        homes.push(asked_home(plan, index, number))?;
    }
    Ok(homes)
}

// The switch that is asked about the item with a number.
fn asked_home(plan: &CheckedPlan, index: &Index, number: u32) -> Option<u32>
    requires index { index.now ≡ plan.now }
    requires number { number < item_count plan.now.problem }
    ensures { result ≡ asked_home plan.now.problem plan.now.plan number }
{
    let count = index.operations(number);
    if count == 0 {
        return None;
    }
    let item = index.item(number);
    home_of_item(plan.problem(), item)
}

/// The items that a switch is asked about, from number 0 up. Time: all items.
pub(crate) fn items_at(
    alloc: Global,
    homes: &[Option<u32>],
    count: u32,
    switch: u32,
) -> Result<Ids, Memory>
    requires { count ≡ length homes.now }
    ensures { IfOk result (λ items. items ≡ items_at homes.now switch) }
{
    let mut items = Ids::new(alloc);
    for item in 0..count {
        add_asked(homes, switch, item, &mut items)?;
    }
    Ok(items)
}

// Adds an item, where the switch is asked about it.
fn add_asked(homes: &[Option<u32>], switch: u32, item: u32, items: &mut Ids) -> Result<(), Memory>
    ensures { OnOk result
        (items.new ≡ items.old ++ (if is_asked homes.now switch item then item ∷ [] else [])) }
{
    if is_asked(homes, switch, item) {
        items.push(item)?;
    }
    Ok(())
}

/// Whether a switch is asked about an item.
pub(crate) fn is_asked(homes: &[Option<u32>], switch: u32, item: u32) -> bool
    ensures { result ≡ is_asked homes.now switch item }
{
    home_at(homes, item) == Some(switch)
}

/// The switch that is asked about an item; none of one after the last.
pub(crate) fn home_at(homes: &[Option<u32>], item: u32) -> Option<u32>
    ensures { result ≡ home_at homes.now item }
{
    *homes.get(item as usize)?
}
