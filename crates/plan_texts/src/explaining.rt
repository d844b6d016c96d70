ghost use Rattle.std.specs.Prelude.{◌≡◌};
ghost use Rattle.rollout_rules.specs.Wan.{last_stage};
ghost use Rattle.rollout_rules.specs.Items.{item_count};
ghost use Rattle.plan_texts.specs.Explain as spec;
ghost use Rattle.plan_texts.specs.Explain.{explain_text};
ghost use Rattle.plan_texts.specs.LookedUp.{IsLookupOf};

use crate::item_lines::push_item;
use crate::load_lines::scale_of;
use crate::lookup::Lookup;
use crate::pieces::push_number;
use dependency_graph::{Index, checked_plan_is_valid};
use text_writer::Pieces;
use wan_model::CheckedPlan;

/// Pushes what a plan has to be done: how many items and operations it has, its stages and its scale; each item by
/// its number, with what it is, where it is at home and how many operations it has; and after it each of
/// these by its number, with the stage to which it leads, what it brings, the longest chain that begins with
/// it, and the items that have to stand at a stage first. Rates are in units of 1/scale. It takes no memory.
pub fn push_explanation<P: Pieces>(text: &mut P, plan: &CheckedPlan, lookup: &Lookup)
    requires { IsLookupOf lookup.now plan.now }
    ensures { P.pushes text.old (explain_text plan.now.problem plan.now.plan) text.new }
{
    push_counts(text, plan, &lookup.index);
    push_items(text, plan, lookup);
}

/// Adds the first line.
fn push_counts<P: Pieces>(text: &mut P, plan: &CheckedPlan, index: &Index)
    requires { index.now ≡ plan.now }
    ensures { P.pushes text.old
        (spec.counts_line (item_count plan.now.problem)
        (spec.op_count plan.now.problem plan.now.plan)
        (last_stage plan.now.plan) plan.now.plan.scale) text.new }
{
    let items = index.item_count();
    let ops = op_count(plan, index);
    let stages = plan.last_stage();
    let scale = scale_of(plan.plan());
    push_sizes(text, items, ops, stages, scale);
}

fn push_sizes<P: Pieces>(text: &mut P, items: u32, ops: u64, stages: usize, scale: u32)
    ensures { P.pushes text.old (spec.counts_line items ops stages scale) text.new }
{
    text.push_str("items ");
    push_number(text, items);
    text.push_str(", operations ");
    push_number(text, ops);
    text.push_str(", stages ");
    push_number(text, stages);
    text.push_str(", scale ");
    push_number(text, scale);
    text.push_str("\n");
}

/// How many operations there are.
fn op_count(plan: &CheckedPlan, index: &Index) -> u64
    requires { index.now ≡ plan.now }
    ensures { result ≡ spec.op_count plan.now.problem plan.now.plan }
{
    checked_plan_is_valid(plan);
    let mut count = 0;
    for number in 0..index.item_count() {
        count += u64::from(index.operations(number));
    }
    count
}

/// Adds the lines of all items, in their order.
fn push_items<P: Pieces>(text: &mut P, plan: &CheckedPlan, lookup: &Lookup)
    requires { IsLookupOf lookup.now plan.now }
    ensures { P.pushes text.old
        (spec.lines_of_items plan.now.problem plan.now.plan (item_count plan.now.problem))
        text.new }
{
    for number in 0..lookup.index.item_count() {
        push_item(text, plan, lookup, number);
    }
}
