ghost use Rattle.std.specs.Prelude.{◌≡◌, ◌<◌, ◌==◌, ◌||◌, true, false, IfOk, slice_index_or, slice_set};
ghost use Rattle.rollout_rules.specs.Items as items;
ghost use Rattle.rollout_rules.specs.Operations as operation;
ghost use Rattle.takeover_rules.specs.Takeovers as takeovers;

use dependency_graph::operations;
use lists::Memory;
use std::alloc::Global;
use wan_model::{CheckedPlan, home_of, item_at, item_count};

/// Whether the switch of each item with an operation is fenced. Time: the stages of each item.
pub(crate) fn is_all_fenced(plan: &CheckedPlan, fenced: &[bool]) -> bool
    ensures { result ≡ takeovers.is_all_fenced plan.now.problem plan.now.plan fenced.now }
{
    for item in 0..item_count(plan.problem()) {
        if !is_closed(plan, fenced, item) {
            return false;
        }
    }
    true
}

// Whether an item has no operation, or its switch is fenced.
fn is_closed(plan: &CheckedPlan, fenced: &[bool], item: u32) -> bool
    requires { item < items.item_count plan.now.problem }
    ensures { result
        ≡ ((operation.operations plan.now.problem plan.now.plan
        (items.item_at plan.now.problem item)
        == 0)
        || takeovers.is_fenced plan.now.problem fenced.now item) }
{
    operations(plan, item_at(plan.problem(), item)) == 0 || is_fenced(plan, fenced, item)
}

/// Whether the switch of an item is fenced.
pub(crate) fn is_fenced(plan: &CheckedPlan, fenced: &[bool], item: u32) -> bool
    requires { item < items.item_count plan.now.problem }
    ensures { result ≡ takeovers.is_fenced plan.now.problem fenced.now item }
{
    match home_of(plan.problem(), item) {
        Some(switch) => is_marked(fenced, switch),
        None => false,
    }
}

// Whether a switch is fenced; one that isn't there never is.
fn is_marked(fenced: &[bool], switch: u32) -> bool
    ensures { result ≡ slice_index_or fenced.now switch false }
{
    match fenced.get(switch as usize) {
        Some(mark) => *mark,
        None => false,
    }
}

/// The marks with one fence more; a switch that isn't there gets none.
pub(crate) fn with_fence(alloc: Global, fenced: &[bool], switch: u32) -> Result<Vec<bool>, Memory>
    ensures { IfOk result (λ marks. marks.items ≡ slice_set fenced.now switch true) }
{
    let mut marks = Vec::new(alloc);
    marks.extend_from_slice(fenced)?;
    mark(&mut marks, switch as usize);
    Ok(marks)
}

#[tactic(auto, using(crate::proofs::Marks::mark_past))]
fn mark(marks: &mut [bool], switch: usize)
    ensures { marks.new ≡ slice_set marks.old switch true }
{
    if switch < marks.len() {
        marks[switch] = true;
    }
}
