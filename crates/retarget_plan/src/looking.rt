//! What a rollout has settled: the rate of each tunnel, and which entries are there.
ghost use Rattle.std.specs.Prelude.{◌≡◌, ◌<◌, ◌≤◌, length};
ghost use Rattle.rollout_rules.specs.declared.limits.TheConstants.{LARGEST_SCALE, MOST_LINKS, MOST_TUNNELS};
ghost use Rattle.rollout_rules.specs.Wan.{mark_at};
ghost use Rattle.rollout_rules.specs.Items.{item_at, item_count, number_of};
ghost use Rattle.rollout_rules.specs.History.{places_of, stand};
ghost use Rattle.rollout_rules.specs.Safe as settled;
ghost use Rattle.rollout_rules.specs.Valid.{same_mark};
ghost use Rattle.rollout_rules.specs.declared.item.Item.TheVariants as variants;
ghost use Rattle.retarget_plan.specs.Left as left;

use dependency_graph::{Graph, checked_plan_is_valid};
use wan_model::CheckedPlan;

/// How many tunnels there are.
pub(crate) fn tunnel_total(plan: &CheckedPlan) -> usize
    ensures value { result ≡ length plan.now.problem.tunnels }
    ensures few { result ≤ MOST_TUNNELS }
{
    checked_plan_is_valid(plan);
    let problem = plan.problem();
    problem.tunnels().len()
}

/// How many links there are.
pub(crate) fn link_total(plan: &CheckedPlan) -> usize
    ensures value { result ≡ length plan.now.problem.links }
    ensures few { result ≤ MOST_LINKS }
{
    checked_plan_is_valid(plan);
    let problem = plan.problem();
    problem.links().len()
}

/// So many units make 1 in a plan.
pub(crate) fn scale_of(plan: &CheckedPlan) -> u32
    ensures value { result ≡ plan.now.plan.scale }
    ensures some { 0 < result }
    ensures most { result ≤ LARGEST_SCALE }
{
    let stages = plan.plan();
    stages.scale
}

/// The settled rate of a tunnel, in units of 1/scale.
pub(crate) fn settled_rate(plan: &CheckedPlan, graph: &Graph, tunnel: usize) -> u64
    requires own { plan.now ≡ graph.now.rollout }
    requires tunnel { tunnel < length plan.now.problem.tunnels }
    ensures { result
        ≡ settled.settled_rate plan.now.problem plan.now.plan
        (places_of plan.now.problem graph.now.history) tunnel }
{
    checked_plan_is_valid(plan);
    let flow = plan.flow_of(tunnel) as u32;
    let stage = graph.stands(flow);
    plan.rate(stage as usize, tunnel)
}

/// Whether the entry with a number is there, of this tunnel.
pub(crate) fn is_there(plan: &CheckedPlan, graph: &Graph, number: u32, tunnel: usize) -> bool
    requires own { plan.now ≡ graph.now.rollout }
    requires number { number < item_count plan.now.problem }
    requires tunnel { tunnel < length plan.now.problem.tunnels }
    ensures { result
        ≡ mark_at plan.now.plan
        (stand plan.now.problem plan.now.plan
        (places_of plan.now.problem graph.now.history)
        (item_at plan.now.problem number)) tunnel }
{
    let stage = graph.stands(number);
    plan.mark(stage as usize, tunnel)
}

/// Whether a tunnel's entries are all there, or none of them is; this is the number of the first.
pub(crate) fn is_whole(plan: &CheckedPlan, graph: &Graph, tunnel: usize, first: u32) -> bool
    requires own { plan.now ≡ graph.now.rollout }
    requires tunnel { tunnel < length plan.now.problem.tunnels }
    requires first { first ≡ number_of plan.now.problem (variants.Entry tunnel 0) }
    ensures { result
        ≡ left.is_whole plan.now.problem plan.now.plan
        (places_of plan.now.problem graph.now.history) tunnel }
{
    checked_plan_is_valid(plan);
    let there = is_there(plan, graph, first, tunnel);
    for hop in 0..plan.hops(tunnel) {
        let number = first + hop;
        let here = is_there(plan, graph, number, tunnel);
        if !is_same(here, there) {
            return false;
        }
    }
    true
}

fn is_same(here: bool, there: bool) -> bool
    ensures { result ≡ same_mark here there }
{
    if here { there } else { !there }
}
