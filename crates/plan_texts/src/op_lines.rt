//! The lines of an item's operations.
ghost use Rattle.std.specs.Prelude.{◌≡◌, ◌+◌, ◌++◌, ◌<◌, ◌≤◌, length, if◌then◌else◌, IsTrue};
ghost use Rattle.rollout_rules.specs.Wan.{last_stage};
ghost use Rattle.rollout_rules.specs.Items.{content, is_item};
ghost use Rattle.rollout_rules.specs.Operations as operation;
ghost use Rattle.rollout_rules.specs.declared.item.Item.TheVariants as variants;
ghost use Rattle.plan_texts.specs.Explain as spec;
ghost use Rattle.plan_texts.specs.LookedUp.{IsLookupOf};

use crate::lookup::Lookup;
use crate::need_texts::push_needs;
use crate::pieces::push_number;
use dependency_graph::{stand_after, stand_behind};
use rollout_rules::Item;
use text_writer::Pieces;
use wan_model::CheckedPlan;

/// An operation: the item with a number, how many of its operations come before this one, and the stage at
/// which it stands with these settled.
#[derive(Clone, Copy)]
struct Step {
    number: u32,
    item: Item,
    before: u32,
    stage: u32,
}

/// Adds a line for each of an item's operations, in their order.
pub(crate) fn push_operations<P: Pieces>(
    text: &mut P,
    plan: &CheckedPlan,
    lookup: &Lookup,
    number: u32,
    item: Item,
    count: u32,
)
    requires lookup { IsLookupOf lookup.now plan.now }
    requires item { IsTrue (is_item plan.now.problem item) }
    requires all { count ≡ operation.operations plan.now.problem plan.now.plan item }
    ensures { P.pushes text.old
        (spec.op_lines plan.now.problem plan.now.plan number item count) text.new }
{
    let mut stage = stand_after(plan, item, 0);
    for before in 0..count {
        let step = Step {
            number,
            item,
            before,
            stage,
        };
        push_step(text, plan, lookup, step);
        stage = stand_behind(plan, item, stage);
    }
}

/// Adds the line of an operation.
fn push_step<P: Pieces>(text: &mut P, plan: &CheckedPlan, lookup: &Lookup, step: Step)
    requires lookup { IsLookupOf lookup.now plan.now }
    requires item { IsTrue (is_item plan.now.problem step.item) }
    requires stage { step.stage < last_stage plan.now.plan }
    ensures { P.pushes text.old
        (spec.step_line plan.now.problem plan.now.plan step.number step.item step.before step.stage)
        text.new }
{
    let number = step.before as u64 + 1;
    let next = step.stage as u64 + 1;
    push_head(text, step.number, number, next);
    push_change(text, plan, step.item, step.stage);
    push_chain(text, lookup.chains.chain(step.item, step.stage));
    push_needs(text, plan, &lookup.index, step.item, step.stage);
    text.push_str("\n");
}

fn push_head<P: Pieces>(text: &mut P, item: u32, number: u64, stage: u64)
    ensures { P.pushes text.old (spec.op_text item number stage) text.new }
{
    text.push_str("item ");
    push_number(text, item);
    text.push_str(" operation ");
    push_number(text, number);
    text.push_str(": to stage ");
    push_number(text, stage);
    text.push_str(", ");
}

fn push_chain<P: Pieces>(text: &mut P, chain: u32)
    ensures { P.pushes text.old (spec.chain_text chain) text.new }
{
    text.push_str(", chain ");
    push_number(text, chain);
}

/// Adds what an operation brings: a flow's rates before and after it, or that an entry comes or goes.
fn push_change<P: Pieces>(text: &mut P, plan: &CheckedPlan, item: Item, s: u32)
    requires item { IsTrue (is_item plan.now.problem item) }
    requires stage { s < last_stage plan.now.plan }
    ensures { P.pushes text.old
        (spec.change_text item (content plan.now.problem plan.now.plan item s)
        (content plan.now.problem plan.now.plan item (s + 1))) text.new }
{
    match item {
        Item::Flow(flow) => push_rates(text, plan, flow as usize, s),
        Item::Entry { tunnel, .. } => {
            text.push_str(entry_text(plan.mark(s as usize + 1, tunnel as usize)));
        }
    }
}

/// What is done to an entry that is there after it, or isn't.
fn entry_text(there: bool) -> &'static str
    ensures { result.now ≡ spec.entry_text (if there then 1 else 0) }
{
    if there { "install" } else { "remove" }
}

fn push_rates<P: Pieces>(text: &mut P, plan: &CheckedPlan, flow: usize, s: u32)
    requires flow { flow < length plan.now.problem.flows }
    requires stage { s < last_stage plan.now.plan }
    ensures { P.pushes text.old
        (spec.change_text (variants.Flow flow) (content plan.now.problem plan.now.plan
        (variants.Flow flow) s) (content plan.now.problem plan.now.plan (variants.Flow flow)
        (s + 1))) text.new }
{
    text.push_str("rates");
    push_contents(text, plan, flow, s as usize);
    text.push_str(" to");
    push_contents(text, plan, flow, s as usize + 1);
}

/// Adds the rates of a flow's tunnels at stage `s`.
fn push_contents<P: Pieces>(text: &mut P, plan: &CheckedPlan, flow: usize, s: usize)
    requires flow { flow < length plan.now.problem.flows }
    requires stage { s ≤ last_stage plan.now.plan }
    ensures { P.pushes text.old
        (spec.contents_text (content plan.now.problem plan.now.plan (variants.Flow flow) s))
        text.new }
{
    for j in 0..plan.tunnel_count(flow) {
        let rate = plan.rate(s, plan.tunnel_of(flow, j));
        push_rate(text, rate);
    }
}

fn push_rate<P: Pieces>(text: &mut P, rate: u64)
    ensures { P.pushes text.old (spec.rate_text rate) text.new }
{
    text.push_str(" ");
    push_number(text, rate);
}
