ghost use Rattle.std.specs.Prelude.{◌≡◌, ℕ, ◌<◌, ◌≤◌, ◌^◌, if◌then◌else◌, IsTrue, length, slice_index};
ghost use Rattle.rollout_rules.specs.Sums.{sum_below};
ghost use Rattle.rollout_rules.specs.Wan as wan;
ghost use Rattle.rollout_rules.specs.Items as items;
ghost use Rattle.rollout_rules.specs.Items.{is_item};
ghost use Rattle.dependency_graph.specs.Cells as cells;
ghost use Rattle.dependency_graph.specs.Touched as touched;
ghost use Rattle.dependency_graph.specs.Touched.{IsItemRow};

use crate::checked::checked_plan_is_valid;
use crate::item_row::ItemRow;
use rollout_rules::Item;
use wan_model::CheckedPlan;

/// What an item's step from stage `x` on takes of the k-th resource of its row more than its content there.
pub(crate) fn rise(plan: &CheckedPlan, item: Item, x: usize, row: &ItemRow, k: usize) -> u64
    requires item { IsTrue (is_item plan.now.problem item) }
    requires stage { x ≤ wan.last_stage plan.now.plan }
    requires row { IsItemRow plan.now.problem item row.now }
    requires place { k < length row.now.resources }
    ensures { result ≡ cells.rises plan.now item x (slice_index row.now.resources k) }
{
    gain(plan, item, x, plan.next_stage(x), row, k)
}

/// What it takes more than the content of the next stage.
pub(crate) fn fall(plan: &CheckedPlan, item: Item, x: usize, row: &ItemRow, k: usize) -> u64
    requires item { IsTrue (is_item plan.now.problem item) }
    requires stage { x < wan.last_stage plan.now.plan }
    requires row { IsItemRow plan.now.problem item row.now }
    requires place { k < length row.now.resources }
    ensures { result ≡ cells.falls plan.now item x (slice_index row.now.resources k) }
{
    gain(plan, item, plan.next_stage(x), x, row, k)
}

/// What an item takes of the k-th resource of its row at stage `to` beyond what it takes at stage `from`, tunnel
/// by tunnel. Time: the tunnels of a flow that cross the link.
fn gain(plan: &CheckedPlan, item: Item, from: usize, to: usize, row: &ItemRow, k: usize) -> u64
    requires item { IsTrue (is_item plan.now.problem item) }
    requires from { from ≤ wan.last_stage plan.now.plan }
    requires to { to ≤ wan.last_stage plan.now.plan }
    requires row { IsItemRow plan.now.problem item row.now }
    requires place { k < length row.now.resources }
    ensures { result
        ≡ touched.gain plan.now.problem plan.now.plan from to item
        (cells.resource_at plan.now.problem (slice_index row.now.resources k)) }
{
    checked_plan_is_valid(plan);
    match item {
        Item::Flow(_) => rates_beyond(plan, from, to, row.tunnels(k)),
        Item::Entry { tunnel, .. } => width_beyond(plan, from, to, tunnel as usize),
    }
}

/// The sum over tunnels of what their rates at stage `to` are larger than at stage `from`.
fn rates_beyond(plan: &CheckedPlan, from: usize, to: usize, tunnels: &[u32]) -> u64
    requires from { from ≤ wan.last_stage plan.now.plan }
    requires to { to ≤ wan.last_stage plan.now.plan }
    requires tunnels { (j : ℕ)
        → j < length tunnels.now
        → slice_index tunnels.now j < length plan.now.problem.tunnels }
    requires few { sum_below (length tunnels.now)
        (λ j. touched.beyond plan.now.plan from to (slice_index tunnels.now j))
        < 2 ^ 64 }
    ensures { result
        ≡ sum_below (length tunnels.now)
        (λ j. touched.beyond plan.now.plan from to (slice_index tunnels.now j)) }
{
    let mut sum = 0u64;
    for j in 0..tunnels.len() {
        sum += rate_beyond(plan, from, to, tunnels[j] as usize);
    }
    sum
}

fn rate_beyond(plan: &CheckedPlan, from: usize, to: usize, t: usize) -> u64
    requires from { from ≤ wan.last_stage plan.now.plan }
    requires to { to ≤ wan.last_stage plan.now.plan }
    requires tunnel { t < length plan.now.problem.tunnels }
    ensures { result ≡ touched.beyond plan.now.plan from to t }
{
    let before = plan.rate(from, t);
    plan.rate(to, t).saturating_sub(before)
}

/// The width of a tunnel that is installed at stage `to` and isn't at stage `from`.
fn width_beyond(plan: &CheckedPlan, from: usize, to: usize, t: usize) -> u64
    requires from { from ≤ wan.last_stage plan.now.plan }
    requires to { to ≤ wan.last_stage plan.now.plan }
    requires tunnel { t < length plan.now.problem.tunnels }
    ensures { result
        ≡ (if touched.appears plan.now.plan from to t then wan.width_of plan.now.problem t else 0) }
{
    if plan.mark(to, t) && !plan.mark(from, t) {
        u64::from(plan.width(t))
    } else {
        0
    }
}

/// How much there is of a resource, by number: of a link in units of 1/scale, of a table as it is.
pub fn capacity(plan: &CheckedPlan, resource: usize) -> u128
    requires { resource < cells.resource_count plan.now.problem }
    ensures { result
        ≡ items.capacity_of plan.now.problem plan.now.plan
        (cells.resource_at plan.now.problem resource) }
{
    let links = plan.problem().links().len();
    if resource < links {
        return u128::from(plan.problem().capacity(resource)) * u128::from(plan.plan().scale);
    }
    u128::from(plan.problem().table(resource - links))
}
