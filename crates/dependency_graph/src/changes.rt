ghost use Rattle.std.specs.Prelude.{◌≡◌, ℕ, ◌+◌, ◌<◌, ◌≤◌, length, IsTrue, not};
ghost use Rattle.rollout_rules.specs.Wan as wan;
ghost use Rattle.rollout_rules.specs.Items.{is_item};
ghost use Rattle.rollout_rules.specs.Operations as operation;
ghost use Rattle.rollout_rules.specs.declared.item.Item.TheVariants as variants;

use rollout_rules::Item;
use wan_model::CheckedPlan;

/// How many operations an item has: one for each stage at which its content differs from that of the
/// stage before.
pub fn operations(plan: &CheckedPlan, item: Item) -> u32
    requires { IsTrue (is_item plan.now.problem item) }
    ensures { result ≡ operation.operations plan.now.problem plan.now.plan item }
{
    changes_to(plan, item, plan.steps())
}

/// How many of its operations take an item to stages up to this one.
pub fn changes_to(plan: &CheckedPlan, item: Item, stage: u32) -> u32
    requires item { IsTrue (is_item plan.now.problem item) }
    requires stage { stage ≤ wan.last_stage plan.now.plan }
    ensures { result ≡ operation.changes_to plan.now.problem plan.now.plan item stage }
{
    let mut changes = 0;
    for s in 0..stage {
        if changes_behind(plan, item, s as usize) {
            changes += 1;
        }
    }
    changes
}

/// The stage at which an item stands with so many operations settled: the last one with no more changes
/// up to it.
pub fn stand_after(plan: &CheckedPlan, item: Item, settled: u64) -> u32
    requires { IsTrue (is_item plan.now.problem item) }
    ensures { result ≡ operation.stand_after plan.now.problem plan.now.plan item settled }
{
    let mut changes = 0;
    let mut stand = 0;
    for s in 0..plan.last_stage() {
        if changes_behind(plan, item, s) {
            changes += 1;
        }
        if changes <= settled {
            stand = s as u32 + 1;
        }
    }
    stand
}

/// The stage to which one operation more takes an item that stands at stage `from`: the next one before a
/// change of its content, or the last. Time: the stages that it passes.
pub fn stand_behind(plan: &CheckedPlan, item: Item, from: u32) -> u32
    requires item { IsTrue (is_item plan.now.problem item) }
    requires stage { from ≤ wan.last_stage plan.now.plan }
    ensures { (j : ℕ)
        → from ≡ operation.stand_after plan.now.problem plan.now.plan item j
        → result ≡ operation.stand_after plan.now.problem plan.now.plan item (j + 1) }
{
    let last = plan.last_stage();
    let first = (from as usize + 1).min(last);
    for s in first..last {
        if changes_behind(plan, item, s) {
            return s as u32;
        }
    }
    last as u32
}

/// Whether the content of an item at the stage after stage `s` differs from that at `s`: whether an
/// operation takes the item there.
pub fn changes_behind(plan: &CheckedPlan, item: Item, s: usize) -> bool
    requires item { IsTrue (is_item plan.now.problem item) }
    requires stage { s < wan.last_stage plan.now.plan }
    ensures { result ≡ operation.changes_behind plan.now.problem plan.now.plan item s }
{
    match item {
        Item::Flow(flow) => rates_change(plan, flow as usize, s),
        Item::Entry { tunnel, .. } => {
            plan.mark(s, tunnel as usize) != plan.mark(plan.next_stage(s), tunnel as usize)
        }
    }
}

fn rates_change(plan: &CheckedPlan, f: usize, s: usize) -> bool
    requires flow { f < length plan.now.problem.flows }
    requires stage { s < wan.last_stage plan.now.plan }
    ensures { result ≡ operation.changes_behind plan.now.problem plan.now.plan (variants.Flow f) s }
{
    let next = plan.next_stage(s);
    for j in 0..plan.tunnel_count(f) {
        let t = plan.tunnel_of(f, j);
        if plan.rate(s, t) != plan.rate(next, t) {
            return true;
        }
    }
    false
}
