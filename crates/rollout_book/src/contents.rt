ghost use Rattle.std.specs.Prelude.{◌≡◌, ℕ, ◌<◌, ◌≤◌, length, is_some, IsTrue};
ghost use Rattle.rollout_rules.specs.Items.{content, home_of, is_item};
ghost use Rattle.rollout_rules.specs.Wan.{last_stage};
ghost use Rattle.rollout_rules.specs.declared.item.Item.TheVariants as variants;
ghost use Rattle.wire_frames.specs.Contents.{rates_of};

use rollout_rules::{Item, Op};
use wan_model::CheckedPlan;
use wire_frames::Command;

/// The command of an operation that takes an item, which has a home, to a stage.
pub(crate) fn command_to(plan: &CheckedPlan, item: Item, op: Op, stage: usize) -> Command
    requires item { IsTrue (is_item plan.now.problem item) }
    requires home { IsTrue (is_some (home_of plan.now.problem item)) }
    requires stage { stage ≤ last_stage plan.now.plan }
    ensures { result
        ≡ record {
          item = op.item;
          number = op.number;
          scale = plan.now.plan.scale;
          content = content plan.now.problem plan.now.plan item stage;
        } }
{
    Command {
        item: op.item,
        number: op.number,
        scale: plan.plan().scale,
        count: rate_count(plan, item),
        rates: rates_at(plan, item, stage),
    }
}

// How many rates the content of an item has.
fn rate_count(plan: &CheckedPlan, item: Item) -> u8
    requires item { IsTrue (is_item plan.now.problem item) }
    requires home { IsTrue (is_some (home_of plan.now.problem item)) }
    ensures count { (s : ℕ) → length (content plan.now.problem plan.now.plan item s) ≡ result }
    ensures some { 0 < result }
    ensures few { result ≤ 16 }
{
    match item {
        Item::Flow(flow) => plan.tunnel_count(flow as usize) as u8,
        Item::Entry { .. } => 1,
    }
}

// These at a stage, and 0 in the places after them.
fn rates_at(plan: &CheckedPlan, item: Item, stage: usize) -> [u64; 16]
    requires item { IsTrue (is_item plan.now.problem item) }
    requires stage { stage ≤ last_stage plan.now.plan }
    ensures { result ≡ rates_of (content plan.now.problem plan.now.plan item stage) }
{
    match item {
        Item::Flow(flow) => flow_rates(plan, flow as usize, stage),
        Item::Entry { tunnel, .. } => {
            let mut rates = [0; 16];
            rates[0] = u64::from(plan.mark(stage, tunnel as usize));
            rates
        }
    }
}

fn flow_rates(plan: &CheckedPlan, flow: usize, stage: usize) -> [u64; 16]
    requires flow { flow < length plan.now.problem.flows }
    requires stage { stage ≤ last_stage plan.now.plan }
    ensures { result
        ≡ rates_of (content plan.now.problem plan.now.plan (variants.Flow flow) stage) }
{
    let mut rates = [0; 16];
    for j in 0..plan.tunnel_count(flow) {
        rates[j as usize] = plan.rate(stage, plan.tunnel_of(flow, j));
    }
    rates
}
