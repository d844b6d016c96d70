ghost use Rattle.std.specs.Prelude.{◌≡◌, ℕ, ◌+◌, ◌<◌, length, slice_index, IsTrue};
ghost use Rattle.rollout_rules.specs.Wan as wan;
ghost use Rattle.rollout_rules.specs.Items.{is_item, item_count, item_at, number_of};
ghost use Rattle.rollout_rules.specs.declared.item.Item.{Item};
ghost use Rattle.rollout_rules.specs.declared.item.Item.TheVariants as variants;
ghost use Rattle.dependency_graph.specs.Cells.{resource_count};
ghost use Rattle.dependency_graph.specs.Wakes.{Rouses, AreWokenFrom};
ghost use Rattle.dependency_graph.specs.Waiting.{AreRelated, IsRoused, AreRoused};

use crate::checked::checked_plan_is_valid;
use crate::course::Course;
use crate::wakes::Wakes;
use rollout_rules::Item;
use wan_model::CheckedPlan;

/// Wakes what the Done of an item may have freed: the item itself, those whose needs it may have met, those
/// that lack a resource of its row, and where the least stage rose all that lack any.
pub(crate) fn rouse(
    wakes: &mut Wakes,
    plan: &CheckedPlan,
    course: &Course,
    item: u32,
    row: &[u32],
    rose: bool,
)
    requires own { plan.now ≡ course.now.rollout }
    requires item { item < item_count plan.now.problem }
    requires items { length wakes.old.lacks ≡ item_count plan.now.problem }
    requires row { (j : ℕ) → j < length row.now → slice_index row.now j < wakes.old.resources }
    ensures { AreRoused plan.now.problem course.now item row.now rose wakes.old wakes.new }
{
    rouse_item(wakes, course, item);
    rouse_related(wakes, plan, course, course.item(item));
    free_row(wakes, row);
    if rose {
        wakes.free_all();
    }
}

/// Wakes each item that has a next operation.
pub(crate) fn rouse_each(wakes: &mut Wakes, course: &Course)
    requires { length wakes.old.lacks ≡ item_count course.now.rollout.problem }
    ensures rouses { Rouses wakes.old wakes.new }
    ensures each { (n : ℕ)
        → n < item_count course.now.rollout.problem
        → IsRoused course.now wakes.new n }
{
    for item in 0..course.item_count() {
        rouse_item(wakes, course, item);
    }
}

/// Wakes an item that has a next operation.
fn rouse_item(wakes: &mut Wakes, course: &Course, item: u32)
    requires item { item < item_count course.now.rollout.problem }
    requires items { length wakes.old.lacks ≡ item_count course.now.rollout.problem }
    ensures rouses { Rouses wakes.old wakes.new }
    ensures own { IsRoused course.now wakes.new item }
{
    if course.has_next(item) {
        wakes.wake(item);
    }
}

/// Of a flow wakes the entries of its tunnels, and of an entry its tunnel's flow.
fn rouse_related(wakes: &mut Wakes, plan: &CheckedPlan, course: &Course, item: Item)
    requires own { plan.now ≡ course.now.rollout }
    requires item { IsTrue (is_item plan.now.problem item) }
    requires items { length wakes.old.lacks ≡ item_count plan.now.problem }
    ensures rouses { Rouses wakes.old wakes.new }
    ensures related { (k : Item)
        → IsTrue (is_item plan.now.problem k)
        → AreRelated plan.now.problem item k
        → IsRoused course.now wakes.new (number_of plan.now.problem k) }
{
    checked_plan_is_valid(plan);
    match item {
        Item::Flow(flow) => rouse_tunnels(wakes, plan, course, flow as usize),
        Item::Entry { tunnel, .. } => {
            rouse_item(wakes, course, plan.flow_of(tunnel as usize) as u32);
        }
    }
}

/// Wakes the entries of a flow's tunnels.
fn rouse_tunnels(wakes: &mut Wakes, plan: &CheckedPlan, course: &Course, flow: usize)
    requires own { plan.now ≡ course.now.rollout }
    requires flow { flow < length plan.now.problem.flows }
    requires items { length wakes.old.lacks ≡ item_count plan.now.problem }
    ensures rouses { Rouses wakes.old wakes.new }
    ensures entries { (j h : ℕ)
        → j < (wan.flow_at plan.now.problem flow).tunnels
        → h < wan.hops plan.now.problem (wan.tunnel_of plan.now.problem flow j)
        → IsRoused course.now wakes.new
        (number_of plan.now.problem (variants.Entry (wan.tunnel_of plan.now.problem flow j) h)) }
{
    checked_plan_is_valid(plan);
    for j in 0..plan.tunnel_count(flow) {
        rouse_entries(wakes, plan, course, plan.tunnel_of(flow, j));
    }
}

/// Wakes the entries of a tunnel.
fn rouse_entries(wakes: &mut Wakes, plan: &CheckedPlan, course: &Course, tunnel: usize)
    requires own { plan.now ≡ course.now.rollout }
    requires tunnel { tunnel < length plan.now.problem.tunnels }
    requires items { length wakes.old.lacks ≡ item_count plan.now.problem }
    ensures rouses { Rouses wakes.old wakes.new }
    ensures entries { (h : ℕ)
        → h < wan.hops plan.now.problem tunnel
        → IsRoused course.now wakes.new (number_of plan.now.problem (variants.Entry tunnel h)) }
{
    let first = course.lookup().first_entry(tunnel);
    let path = plan.path(tunnel);
    for hop in 0..path.len() {
        rouse_item(wakes, course, first + hop as u32);
    }
}

/// Wakes those that lack a resource of a row.
fn free_row(wakes: &mut Wakes, row: &[u32])
    requires { (j : ℕ) → j < length row.now → slice_index row.now j < wakes.old.resources }
    ensures rouses { Rouses wakes.old wakes.new }
    ensures freed { (j : ℕ) → j < length row.now → AreWokenFrom (slice_index row.now j) wakes.new }
{
    for k in 0..row.len() {
        wakes.free(row[k]);
    }
}
