ghost use Rattle.std.specs.Prelude.{◌≡◌, slice_index_or, None, IfOk};
ghost use Rattle.shared_book.specs.Homes.{homes_of};

use dependency_graph::items;
use lists::{Many, Memory};
use std::alloc::Global;
use wan_model::{CheckedPlan, home_of_item};

/// The homes of all items, by number. Time: the items.
pub(crate) fn homes(alloc: Global, plan: &CheckedPlan) -> Result<Many<Option<u32>>, Memory>
    ensures { IfOk result (λ homes. homes ≡ homes_of plan.now.problem) }
{
    let items = items(alloc, plan)?;
    let mut homes = Many::new(alloc);
    for item in items.as_slice() {
        homes.push(home_of_item(plan.problem(), *item))?;
    }
    Ok(homes)
}

/// The home of an item; none past the last one.
pub(crate) fn home_in(homes: &[Option<u32>], item: u32) -> Option<u32>
    ensures { result ≡ slice_index_or homes.now item None }
{
    if (item as usize) < homes.len() {
        homes[item as usize]
    } else {
        None
    }
}
