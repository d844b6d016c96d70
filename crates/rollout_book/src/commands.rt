ghost use Rattle.std.specs.Prelude.{◌≡◌, ◌<◌, ◌≤◌, ◌++◌, ◌==◌, All, OnOk, is_some, IsTrue};
ghost use Rattle.std.specs.List.{list_any};
ghost use Rattle.rollout_rules.specs.Items.{content, home_of, item_at, item_count, is_item};
ghost use Rattle.rollout_rules.specs.Legal.{is_legal};
ghost use Rattle.rollout_rules.specs.Operations.{content_after};
ghost use Rattle.rollout_rules.specs.Wan.{last_stage};
ghost use Rattle.dependency_graph.specs.Index.{AreItems};
ghost use Rattle.rollout_book.specs.Commands as commands;

use crate::contents::command_to;
use dependency_graph::Graph;
use lists::{Many, Memory};
use rollout_rules::{Item, Op};
use wan_model::home_of_item;
use wire_frames::Command;

/// Commands, in the order in which they are to be sent.
pub type CommandList = Many<Command>;

/// Adds the commands of those operations in flight whose homes are among these switches. Time: for each of
/// the operations, the switches.
pub(crate) fn add_asked(
    graph: &Graph,
    items: &[Item],
    ops: &[Op],
    switches: &[u32],
    out: &mut CommandList,
) -> Result<(), Memory>
    requires legal { IsTrue (is_legal graph.now.rollout.problem graph.now.rollout.plan
        graph.now.history) }
    requires items { AreItems graph.now.rollout.problem (item_count graph.now.rollout.problem)
        items.now }
    requires flying { All (commands.IsFlying graph.now.rollout.problem graph.now.history) ops.now }
    ensures { OnOk result
        (out.new ≡ out.old ++ commands.asked graph.now.rollout switches.now ops.now) }
{
    for op in ops {
        let item = items[op.item as usize];
        if is_asked(graph, item, switches) {
            out.push(command_of(graph, item, *op))?;
        }
    }
    Ok(())
}

// Whether an item's home is among these switches.
fn is_asked(graph: &Graph, item: Item, switches: &[u32]) -> bool
    requires { IsTrue (is_item graph.now.rollout.problem item) }
    ensures { result ≡ commands.is_among switches.now (home_of graph.now.rollout.problem item) }
{
    match home_of_item(graph.plan().problem(), item) {
        Some(home) => is_among(switches, home),
        None => false,
    }
}

fn is_among(switches: &[u32], home: u32) -> bool
    ensures { result ≡ list_any (λ w. w == home) switches.now }
{
    for switch in switches {
        if *switch == home {
            return true;
        }
    }
    false
}

// The command of an operation in flight.
fn command_of(graph: &Graph, item: Item, op: Op) -> Command
    requires legal { IsTrue (is_legal graph.now.rollout.problem graph.now.rollout.plan
        graph.now.history) }
    requires flying { commands.IsFlying graph.now.rollout.problem graph.now.history op }
    requires item { item ≡ item_at graph.now.rollout.problem op.item }
    requires home { IsTrue (is_some (home_of graph.now.rollout.problem item)) }
    ensures { result ≡ commands.command_of graph.now.rollout op }
{
    let stage = stage_behind(graph, op);
    command_to(graph.plan(), item, op, stage)
}

// The stage to which an operation in flight takes its item.
fn stage_behind(graph: &Graph, op: Op) -> usize
    requires legal { IsTrue (is_legal graph.now.rollout.problem graph.now.rollout.plan
        graph.now.history) }
    requires flying { commands.IsFlying graph.now.rollout.problem graph.now.history op }
    ensures within { result ≤ last_stage graph.now.rollout.plan }
    ensures brings { content graph.now.rollout.problem graph.now.rollout.plan
        (item_at graph.now.rollout.problem op.item) result
        ≡ content_after graph.now.rollout.problem graph.now.rollout.plan
        (item_at graph.now.rollout.problem op.item) op.number }
{
    graph.plan().next_stage(graph.stands(op.item) as usize)
}
