ghost use Rattle.std.specs.Prelude.{◌≡◌, ◌<◌, [], length};
ghost use Rattle.rollout_rules.specs.Wan as wan;
ghost use Rattle.rollout_rules.specs.Network.{IsNetwork};
ghost use Rattle.rollout_rules.specs.Items.{the_link, the_table, item_count};
ghost use Rattle.rollout_rules.specs.Room as rooms;
ghost use Rattle.dependency_graph.specs.Ahead.{places_with, places_begun};
ghost use Rattle.dependency_graph.specs.Ahead as places;
ghost use Rattle.dependency_graph.specs.Cells.{resource_count, resource_at};
ghost use Rattle.dependency_graph.specs.Fits as parts;

use crate::checked::checked_plan_is_valid;
use crate::index::TablePlace;
use crate::progress::Progress;
use crate::progress::ahead::{flies_begun, stand};
use rollout_rules::{Entry, Op};
use wan_model::CheckedPlan;

/// The least stage at which an item stands with the entries ahead, or the last where there is no item.
pub fn least_stage(progress: &Progress, plan: &CheckedPlan, ahead: &[Entry]) -> usize
    requires own { plan.now ≡ progress.now.rollout }
    ensures { result ≡ parts.least_stand plan.now progress.now ahead.now }
{
    if ahead.is_empty() {
        return progress.stands.least() as usize;
    }
    let mut least = plan.last_stage();
    for item in 0..progress.lookup().item_count() {
        least = least.min(stand(progress, plan, ahead, item));
    }
    least
}

/// What is taken of a resource at stage `s`, with nothing begun after what is counted.
pub(crate) fn room(progress: &Progress, plan: &CheckedPlan, resource: usize, s: usize) -> u128
    requires own { plan.now ≡ progress.now.rollout }
    requires resource { resource < resource_count plan.now.problem }
    requires stage { s < wan.last_stage plan.now.plan }
    ensures { result
        ≡ rooms.room plan.now.problem plan.now.plan (places_with plan.now progress.now []) s
        (resource_at plan.now.problem resource) }
{
    checked_plan_is_valid(plan);
    let nobodys = Op {
        item: progress.lookup().item_count(),
        number: 0,
    };
    let links = plan.problem().links().len();
    if resource < links {
        return load(progress, plan, &[], nobodys, s, resource);
    }
    entries(progress, plan, &[], nobodys, s, resource - links)
}

/// What is taken of link `l` at stage `s` once `op` has begun after the entries ahead, in units of 1/scale:
/// a sum over the tunnels that cross it.
pub fn load(
    progress: &Progress,
    plan: &CheckedPlan,
    ahead: &[Entry],
    op: Op,
    s: usize,
    l: usize,
) -> u128
    requires own { plan.now ≡ progress.now.rollout }
    requires network { IsNetwork plan.now.problem }
    requires stage { s < wan.last_stage plan.now.plan }
    requires link { l < length plan.now.problem.links }
    ensures { result
        ≡ rooms.room plan.now.problem plan.now.plan
        (places_begun plan.now progress.now ahead.now op) s (the_link l) }
{
    let mut sum = 0;
    for tunnel in progress.lookup().crossing(l) {
        sum += u128::from(share(progress, plan, ahead, op, s, *tunnel as usize));
    }
    sum
}

/// How much is taken of the table of switch `w` then: the widths of the entries there.
pub fn entries(
    progress: &Progress,
    plan: &CheckedPlan,
    ahead: &[Entry],
    op: Op,
    s: usize,
    w: usize,
) -> u128
    requires own { plan.now ≡ progress.now.rollout }
    requires stage { s < wan.last_stage plan.now.plan }
    requires switch { w < length plan.now.problem.switches }
    ensures { result
        ≡ rooms.room plan.now.problem plan.now.plan
        (places_begun plan.now progress.now ahead.now op) s (the_table w) }
{
    let mut sum = 0;
    for place in progress.lookup().table(w) {
        sum += u128::from(width_share(progress, plan, ahead, op, s, *place));
    }
    sum
}

/// What tunnel `t` adds at stage `s` to the links on its path, by where its flow stands.
fn share(
    progress: &Progress,
    plan: &CheckedPlan,
    ahead: &[Entry],
    op: Op,
    s: usize,
    t: usize,
) -> u64
    requires own { plan.now ≡ progress.now.rollout }
    requires stage { s < wan.last_stage plan.now.plan }
    requires tunnel { t < length plan.now.problem.tunnels }
    ensures { result ≡ places.rate_share plan.now progress.now ahead.now op s t }
{
    checked_plan_is_valid(plan);
    let flow = plan.flow_of(t) as u32;
    let at = stand(progress, plan, ahead, flow);
    if at <= s {
        return plan.greater_rate(s, t);
    }
    if flies_begun(progress, ahead, op, flow) {
        return plan.greater_rate(at, t);
    }
    plan.rate(at, t)
}

/// What an entry takes of its table at stage `s`: its tunnel's width, where it takes its place.
fn width_share(
    progress: &Progress,
    plan: &CheckedPlan,
    ahead: &[Entry],
    op: Op,
    s: usize,
    place: TablePlace,
) -> u32
    requires own { plan.now ≡ progress.now.rollout }
    requires stage { s < wan.last_stage plan.now.plan }
    requires tunnel { place.tunnel < length plan.now.problem.tunnels }
    requires item { place.item < item_count plan.now.problem }
    ensures { result
        ≡ places.width_share plan.now progress.now ahead.now op s place.tunnel place.item }
{
    if takes_place(progress, plan, ahead, op, s, place) {
        plan.width(place.tunnel as usize)
    } else {
        0
    }
}

/// Whether an entry takes its place at stage `s`, by where it stands.
fn takes_place(
    progress: &Progress,
    plan: &CheckedPlan,
    ahead: &[Entry],
    op: Op,
    s: usize,
    place: TablePlace,
) -> bool
    requires own { plan.now ≡ progress.now.rollout }
    requires stage { s < wan.last_stage plan.now.plan }
    requires tunnel { place.tunnel < length plan.now.problem.tunnels }
    requires item { place.item < item_count plan.now.problem }
    ensures { result
        ≡ places.takes_place plan.now progress.now ahead.now op s place.tunnel place.item }
{
    let at = stand(progress, plan, ahead, place.item);
    let t = place.tunnel as usize;
    if at <= s {
        return plan.either_mark(s, t);
    }
    if flies_begun(progress, ahead, op, place.item) {
        return plan.either_mark(at, t);
    }
    plan.mark(at, t)
}
