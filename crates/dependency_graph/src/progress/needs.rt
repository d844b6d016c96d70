ghost use Rattle.std.specs.Prelude.{◌≡◌, ℕ, ◌<◌, ◌≤◌, [], length, nat_le, IsTrue};
ghost use Rattle.rollout_rules.specs.Wan as wan;
ghost use Rattle.rollout_rules.specs.Network.{IsNetwork};
ghost use Rattle.rollout_rules.specs.Items.{is_item, item_count, item_at};
ghost use Rattle.rollout_rules.specs.History as history;
ghost use Rattle.rollout_rules.specs.Needs as needs;
ghost use Rattle.rollout_rules.specs.declared.item.Item.TheVariants as variants;
ghost use Rattle.dependency_graph.specs.Ahead.{stand_with, places_with};
ghost use Rattle.dependency_graph.specs.Fits as parts;

use crate::checked::checked_plan_is_valid;
use crate::progress::Progress;
use crate::progress::ahead::stand;
use rollout_rules::{Entry, Item};
use wan_model::CheckedPlan;

/// Whether the needs of an item's next operation are met with the entries ahead.
pub fn needs_met(progress: &Progress, plan: &CheckedPlan, ahead: &[Entry], item: u32) -> bool
    requires own { plan.now ≡ progress.now.rollout }
    requires item { item < item_count plan.now.problem }
    requires left { stand_with plan.now progress.now ahead.now item < wan.last_stage plan.now.plan }
    ensures { result
        ≡ needs.needs_met plan.now.problem plan.now.plan
        (places_with plan.now progress.now ahead.now) (item_at plan.now.problem item) }
{
    let s = stand(progress, plan, ahead, item);
    match progress.lookup().item(item) {
        Item::Flow(flow) => carriers_stand(progress, plan, ahead, flow as usize, s),
        Item::Entry { tunnel, .. } => entry_may_change(progress, plan, ahead, tunnel as usize, s),
    }
}

/// Whether the needs of the operation that takes an item from stage `s` to the next are met.
pub(crate) fn needs_met_at(progress: &Progress, plan: &CheckedPlan, item: Item, s: usize) -> bool
    requires own { plan.now ≡ progress.now.rollout }
    requires item { IsTrue (is_item plan.now.problem item) }
    requires stage { s < wan.last_stage plan.now.plan }
    ensures { result
        ≡ needs.needs_met_at plan.now.problem plan.now.plan (places_with plan.now progress.now [])
        item s }
{
    match item {
        Item::Flow(flow) => carriers_stand(progress, plan, &[], flow as usize, s),
        Item::Entry { tunnel, .. } => entry_may_change(progress, plan, &[], tunnel as usize, s),
    }
}

/// Whether each tunnel of flow `f` that carries it at the stage after `s` has its entries there.
fn carriers_stand(
    progress: &Progress,
    plan: &CheckedPlan,
    ahead: &[Entry],
    f: usize,
    s: usize,
) -> bool
    requires own { plan.now ≡ progress.now.rollout }
    requires flow { f < length plan.now.problem.flows }
    requires stage { s < wan.last_stage plan.now.plan }
    ensures { result
        ≡ needs.needs_met_at plan.now.problem plan.now.plan
        (places_with plan.now progress.now ahead.now) (variants.Flow f) s }
{
    for j in 0..plan.tunnel_count(f) {
        if !carrier_stands(progress, plan, ahead, plan.tunnel_of(f, j), s) {
            return false;
        }
    }
    true
}

fn carrier_stands(
    progress: &Progress,
    plan: &CheckedPlan,
    ahead: &[Entry],
    t: usize,
    s: usize,
) -> bool
    requires own { plan.now ≡ progress.now.rollout }
    requires tunnel { t < length plan.now.problem.tunnels }
    requires stage { s < wan.last_stage plan.now.plan }
    ensures { result
        ≡ parts.carrier_stands plan.now.problem plan.now.plan
        (places_with plan.now progress.now ahead.now) t s }
{
    let next = plan.next_stage(s);
    if plan.rate(next, t) == 0 {
        return true;
    }
    entries_past(progress, plan, ahead, t, next)
}

/// Whether each entry of tunnel `t` stands at or past the first stage of the run of stages at which the
/// tunnel is installed, around stage `s`.
fn entries_past(
    progress: &Progress,
    plan: &CheckedPlan,
    ahead: &[Entry],
    t: usize,
    s: usize,
) -> bool
    requires own { plan.now ≡ progress.now.rollout }
    requires tunnel { t < length plan.now.problem.tunnels }
    requires stage { s ≤ wan.last_stage plan.now.plan }
    ensures { result
        ≡ needs.entries_past plan.now.problem plan.now.plan
        (places_with plan.now progress.now ahead.now) t (needs.installed_since plan.now.plan t s) }
{
    for hop in 0..plan.path(t).len() {
        if !entry_past(progress, plan, ahead, t, hop, s) {
            return false;
        }
    }
    true
}

fn entry_past(
    progress: &Progress,
    plan: &CheckedPlan,
    ahead: &[Entry],
    t: usize,
    hop: usize,
    s: usize,
) -> bool
    requires own { plan.now ≡ progress.now.rollout }
    requires network { IsNetwork plan.now.problem }
    requires tunnel { t < length plan.now.problem.tunnels }
    requires hop { hop < wan.hops plan.now.problem t }
    requires stage { s ≤ wan.last_stage plan.now.plan }
    ensures { result
        ≡ nat_le (needs.installed_since plan.now.plan t s)
        (history.stand plan.now.problem plan.now.plan (places_with plan.now progress.now ahead.now)
        (variants.Entry t hop)) }
{
    let item = progress.lookup().first_entry(t) + hop as u32;
    installed_between(plan, t, stand(progress, plan, ahead, item), s)
}

/// An installation needs nothing; a removal needs that the flow has left the tunnel.
fn entry_may_change(
    progress: &Progress,
    plan: &CheckedPlan,
    ahead: &[Entry],
    t: usize,
    s: usize,
) -> bool
    requires own { plan.now ≡ progress.now.rollout }
    requires tunnel { t < length plan.now.problem.tunnels }
    requires stage { s < wan.last_stage plan.now.plan }
    ensures { (h : ℕ)
        → result
        ≡ needs.needs_met_at plan.now.problem plan.now.plan
        (places_with plan.now progress.now ahead.now) (variants.Entry t h) s }
{
    if plan.mark(plan.next_stage(s), t) {
        return true;
    }
    checked_plan_is_valid(plan);
    let flow = plan.flow_of(t) as u32;
    idle_between(plan, t, stand(progress, plan, ahead, flow), s)
}

/// Whether tunnel `t` is installed at each stage from `from` to the one before `to`: whether the run of
/// stages at which it is installed, around `to`, begins by `from`. Time: the stages from there to `to`.
fn installed_between(plan: &CheckedPlan, t: usize, from: usize, to: usize) -> bool
    requires tunnel { t < length plan.now.problem.tunnels }
    requires stage { to ≤ wan.last_stage plan.now.plan }
    ensures { result ≡ nat_le (needs.installed_since plan.now.plan t to) from }
{
    for u in from..to {
        if !plan.mark(u, t) {
            return false;
        }
    }
    true
}

/// Whether tunnel `t` carries nothing at each stage from `from` to the one before `to`: whether the run of
/// stages at which it carries nothing, around `to`, begins by `from`. Time: the stages from there to `to`.
fn idle_between(plan: &CheckedPlan, t: usize, from: usize, to: usize) -> bool
    requires tunnel { t < length plan.now.problem.tunnels }
    requires stage { to ≤ wan.last_stage plan.now.plan }
    ensures { result ≡ nat_le (needs.idle_since plan.now.plan t to) from }
{
    for u in from..to {
        if plan.rate(u, t) != 0 {
            return false;
        }
    }
    true
}
