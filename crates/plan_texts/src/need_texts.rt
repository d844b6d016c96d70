//! What an operation needs.
ghost use Rattle.std.specs.Prelude.{◌≡◌, ◌++◌, ◌<◌, ◌≤◌, length, IsTrue};
ghost use Rattle.rollout_rules.specs.Wan.{last_stage};
ghost use Rattle.rollout_rules.specs.Items.{is_item};
ghost use Rattle.rollout_rules.specs.declared.item.Item.TheVariants as variants;
ghost use Rattle.plan_texts.specs.Explain as spec;
ghost use Rattle.plan_texts.specs.Needs.{carrier_needs, entry_needs, needs_of};

use crate::pieces::push_number;
use crate::since::{idle_since, installed_since};
use dependency_graph::Index;
use rollout_rules::Item;
use text_writer::Pieces;
use wan_model::CheckedPlan;

/// Adds the needs of the operation that takes an item from stage `s` to the next.
pub(crate) fn push_needs<P: Pieces>(
    text: &mut P,
    plan: &CheckedPlan,
    index: &Index,
    item: Item,
    s: u32,
)
    requires own { index.now ≡ plan.now }
    requires item { IsTrue (is_item plan.now.problem item) }
    requires stage { s < last_stage plan.now.plan }
    ensures { P.pushes text.old
        (spec.needs_text plan.now.problem (needs_of plan.now.problem plan.now.plan item s))
        text.new }
{
    match item {
        Item::Flow(flow) => push_carriers(text, plan, index, flow as usize, s),
        Item::Entry { tunnel, .. } => push_departure(text, plan, tunnel as usize, s),
    }
}

/// Adds those of a flow: the entries of the tunnels that carry it at the next stage.
fn push_carriers<P: Pieces>(text: &mut P, plan: &CheckedPlan, index: &Index, flow: usize, s: u32)
    requires own { index.now ≡ plan.now }
    requires flow { flow < length plan.now.problem.flows }
    requires stage { s < last_stage plan.now.plan }
    ensures { P.pushes text.old
        (spec.needs_text plan.now.problem (needs_of plan.now.problem plan.now.plan
        (variants.Flow flow) s)) text.new }
{
    for j in 0..plan.tunnel_count(flow) {
        let tunnel = plan.tunnel_of(flow, j);
        push_carrier(text, plan, index, tunnel, s as usize + 1);
    }
}

/// Adds the entries of a tunnel that a flow needs on its way to stage `s`.
fn push_carrier<P: Pieces>(text: &mut P, plan: &CheckedPlan, index: &Index, tunnel: usize, s: usize)
    requires own { index.now ≡ plan.now }
    requires tunnel { tunnel < length plan.now.problem.tunnels }
    requires stage { s ≤ last_stage plan.now.plan }
    ensures { P.pushes text.old
        (spec.needs_text plan.now.problem (carrier_needs plan.now.problem plan.now.plan s tunnel))
        text.new }
{
    if plan.rate(s, tunnel) == 0 {
        return;
    }
    let since = installed_since(plan, tunnel, s);
    push_entries(text, plan, index, tunnel, since);
}

/// Adds the entries of a tunnel, each of which has to stand at a stage.
fn push_entries<P: Pieces>(
    text: &mut P,
    plan: &CheckedPlan,
    index: &Index,
    tunnel: usize,
    stage: usize,
)
    requires own { index.now ≡ plan.now }
    requires tunnel { tunnel < length plan.now.problem.tunnels }
    ensures { P.pushes text.old
        (spec.needs_text plan.now.problem (entry_needs plan.now.problem tunnel stage)) text.new }
{
    let first = index.first_entry(tunnel);
    for hop in 0..plan.hops(tunnel) {
        push_stood(text, first as u64 + hop as u64, stage);
    }
}

/// Adds what the removal of an entry needs: that the flow of its tunnel has left that.
fn push_departure<P: Pieces>(text: &mut P, plan: &CheckedPlan, tunnel: usize, s: u32)
    requires tunnel { tunnel < length plan.now.problem.tunnels }
    requires stage { s < last_stage plan.now.plan }
    ensures { P.pushes text.old
        (spec.needs_text plan.now.problem (needs_of plan.now.problem plan.now.plan
        (variants.Entry tunnel 0) s)) text.new }
{
    if plan.mark(s as usize + 1, tunnel) {
        return;
    }
    let since = idle_since(plan, tunnel, s as usize);
    push_stood(text, plan.flow_of(tunnel) as u64, since);
}

/// Adds an item that has to stand at a stage, unless it does from the start.
fn push_stood<P: Pieces>(text: &mut P, item: u64, stage: usize)
    ensures { P.pushes text.old (spec.stood_text item stage) text.new }
{
    if stage == 0 {
        return;
    }
    push_at_stage(text, item, stage);
}

fn push_at_stage<P: Pieces>(text: &mut P, item: u64, stage: usize)
    ensures { P.pushes text.old (spec.at_stage_text item stage) text.new }
{
    text.push_str(", needs item ");
    push_number(text, item);
    text.push_str(" at stage ");
    push_number(text, stage);
}
