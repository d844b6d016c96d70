//! The lines of the items.
ghost use Rattle.std.specs.Prelude.{◌≡◌, ◌++◌, ◌<◌, length, IsTrue};
ghost use Rattle.rollout_rules.specs.Wan as wan;
ghost use Rattle.rollout_rules.specs.Items.{is_item, item_count};
ghost use Rattle.rollout_rules.specs.declared.item.Item.TheVariants as variants;
ghost use Rattle.wan_text.specs.Named.{AreNamesOf};
ghost use Rattle.plan_texts.specs.Explain as spec;
ghost use Rattle.plan_texts.specs.LookedUp.{IsLookupOf};

use crate::lookup::Lookup;
use crate::op_lines::push_operations;
use crate::pieces::{push_number, push_switch};
use rollout_rules::Item;
use text_writer::Pieces;
use wan_model::{CheckedPlan, Problem, home_of_item};
use wan_text::Names;

/// Adds the line of the item with a number, and those of its operations.
pub(crate) fn push_item<P: Pieces>(text: &mut P, plan: &CheckedPlan, lookup: &Lookup, number: u32)
    requires lookup { IsLookupOf lookup.now plan.now }
    requires number { number < item_count plan.now.problem }
    ensures { P.pushes text.old (spec.item_lines plan.now.problem plan.now.plan number) text.new }
{
    let item = lookup.index.item(number);
    let count = lookup.index.operations(number);
    push_line(text, &lookup.names, plan.problem(), number, item, count);
    push_operations(text, plan, lookup, number, item, count);
}

/// Adds the line of an item with so many operations.
fn push_line<P: Pieces>(
    text: &mut P,
    names: &Names,
    problem: &Problem,
    number: u32,
    item: Item,
    count: u32,
)
    requires names { AreNamesOf names.now problem.now }
    requires item { IsTrue (is_item problem.now item) }
    ensures { P.pushes text.old (spec.item_line problem.now number item count) text.new }
{
    push_item_number(text, number);
    push_what(text, names, problem, item);
    push_count(text, count);
}

fn push_item_number<P: Pieces>(text: &mut P, number: u32)
    ensures { P.pushes text.old (spec.number_text number) text.new }
{
    text.push_str("item ");
    push_number(text, number);
    text.push_str(": ");
}

fn push_count<P: Pieces>(text: &mut P, count: u32)
    ensures { P.pushes text.old (spec.count_text count) text.new }
{
    text.push_str(", operations ");
    push_number(text, count);
    text.push_str("\n");
}

/// Adds what an item is, and where it is at home.
fn push_what<P: Pieces>(text: &mut P, names: &Names, problem: &Problem, item: Item)
    requires names { AreNamesOf names.now problem.now }
    requires item { IsTrue (is_item problem.now item) }
    ensures { P.pushes text.old (spec.item_text problem.now item) text.new }
{
    match item {
        Item::Flow(flow) => push_split(text, names, problem, flow),
        Item::Entry { tunnel, hop } => {
            push_entry(text, names, problem, tunnel as usize, hop as usize);
        }
    }
}

fn push_split<P: Pieces>(text: &mut P, names: &Names, problem: &Problem, flow: u32)
    requires names { AreNamesOf names.now problem.now }
    requires flow { flow < length problem.now.flows }
    ensures { P.pushes text.old (spec.item_text problem.now (variants.Flow flow)) text.new }
{
    push_flow(text, names, flow as usize);
    text.push_str(" at ");
    let home = home_of_item(problem, Item::Flow(flow));
    push_home(text, names, home);
}

fn push_home<P: Pieces>(text: &mut P, names: &Names, home: Option<u32>)
    ensures { (p : wan.Problem)
        → AreNamesOf names.now p
        → P.pushes text.old (spec.home_text p home) text.new }
{
    match home {
        Some(switch) => push_switch(text, names, switch as usize),
        None => text.push_str("none"),
    }
}

fn push_entry<P: Pieces>(text: &mut P, names: &Names, problem: &Problem, tunnel: usize, hop: usize)
    requires names { AreNamesOf names.now problem.now }
    requires item { IsTrue (is_item problem.now (variants.Entry tunnel hop)) }
    ensures { P.pushes text.old (spec.item_text problem.now (variants.Entry tunnel hop)) text.new }
{
    text.push_str("entry at ");
    push_switch(text, names, problem.switch_of(tunnel, hop));
    text.push_str(" of ");
    push_tunnel(text, names, problem, tunnel);
}

/// Adds a flow by its name.
fn push_flow<P: Pieces>(text: &mut P, names: &Names, flow: usize)
    ensures { (p : wan.Problem)
        → AreNamesOf names.now p
        → P.pushes text.old (spec.flow_text p flow) text.new }
{
    text.push_str("flow ");
    text.push_str(names.flow(flow));
}

/// Adds a tunnel: its flow, its place among the flow's tunnels, and its path.
fn push_tunnel<P: Pieces>(text: &mut P, names: &Names, problem: &Problem, tunnel: usize)
    requires names { AreNamesOf names.now problem.now }
    requires tunnel { tunnel < length problem.now.tunnels }
    ensures { P.pushes text.old (spec.tunnel_text problem.now tunnel) text.new }
{
    push_flow(text, names, problem.flow_of(tunnel));
    push_place(text, place_in_flow(problem, tunnel));
    push_path(text, names, problem, tunnel);
}

/// The place of a tunnel among those of its flow, from 0.
fn place_in_flow(problem: &Problem, tunnel: usize) -> usize
    requires { tunnel < length problem.now.tunnels }
    ensures { result ≡ spec.place_in_flow problem.now tunnel }
{
    let flow = &problem.flows()[problem.flow_of(tunnel)];
    tunnel.saturating_sub(flow.first as usize)
}

fn push_place<P: Pieces>(text: &mut P, place: usize)
    ensures { P.pushes text.old (spec.place_text place) text.new }
{
    text.push_str(" tunnel ");
    push_number(text, place);
    text.push_str(" ");
}

/// Adds the switches on the path of a tunnel, with `>` between.
fn push_path<P: Pieces>(text: &mut P, names: &Names, problem: &Problem, tunnel: usize)
    requires names { AreNamesOf names.now problem.now }
    requires tunnel { tunnel < length problem.now.tunnels }
    ensures { P.pushes text.old (spec.path_text problem.now tunnel) text.new }
{
    for hop in 0..problem.path(tunnel).len() {
        text.push_str(gap_before(hop));
        push_switch(text, names, problem.switch_of(tunnel, hop));
    }
}

fn gap_before(hop: usize) -> &'static str
    ensures { result.now ≡ spec.gap_before hop }
{
    if hop == 0 { "" } else { ">" }
}
