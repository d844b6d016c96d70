//! How far a rollout has come, and whether it is level.
ghost use Rattle.std.specs.Prelude.{◌≡◌, ◌<◌, ◌≤◌};
ghost use Rattle.rollout_rules.specs.Wan.{last_stage};
ghost use Rattle.rollout_rules.specs.Items.{item_count};
ghost use Rattle.rollout_rules.specs.Release.{is_held_back};
ghost use Rattle.rollback_plan.specs.Levels as levels;

use dependency_graph::{Graph, changes_to, stand_after};
use wan_model::OpView;

/// The last rank there is.
const LAST_RANK: u64 = 4_294_967_295;

/// The answer that holds an operation back.
const HELD_BACK: u64 = 4_294_967_296;

/// The greatest stage to which an operation leads that was begun, those of the start among them; 0 where none
/// was. Time: the items, each with the plan's stages.
pub fn ceiling(graph: &Graph) -> u32
    ensures { result
        ≡ levels.ceiling graph.now.rollout.problem graph.now.rollout.plan graph.now.history }
{
    let mut most = 0;
    for item in 0..graph.item_count() {
        most = most.max(leads_to(graph, item));
    }
    most
}

/// The stage to which the last operation begun of an item leads.
fn leads_to(graph: &Graph, item: u32) -> u32
    requires { item < item_count graph.now.rollout.problem }
    ensures { result
        ≡ levels.leads_to graph.now.rollout.problem graph.now.rollout.plan graph.now.history item }
{
    let begun = graph.begun(item);
    if begun == 0 {
        return 0;
    }
    let _ = graph.plan().last_stage();
    stand_after(graph.plan(), graph.item(item), u64::from(begun - 1)) + 1
}

/// Whether every operation to a stage up to this one is settled, and no other is begun. Time: the items, each
/// with the stages up to this one.
pub fn levelled(graph: &Graph, stage: u32) -> bool
    requires { stage ≤ last_stage graph.now.rollout.plan }
    ensures { result
        ≡ levels.is_levelled graph.now.rollout.problem graph.now.rollout.plan graph.now.history
        stage }
{
    for item in 0..graph.item_count() {
        if !is_level(graph, item, stage) {
            return false;
        }
    }
    true
}

fn is_level(graph: &Graph, item: u32, stage: u32) -> bool
    requires item { item < item_count graph.now.rollout.problem }
    requires stage { stage ≤ last_stage graph.now.rollout.plan }
    ensures { result
        ≡ levels.is_levelled_at graph.now.rollout.problem graph.now.rollout.plan graph.now.history
        stage item }
{
    let up_to = changes_to(graph.plan(), graph.item(item), stage);
    up_to <= graph.settled(item) && graph.begun(item) <= up_to
}

/// What the policy answers that levels a rollout at a stage: longer chains first, and nothing of what stands at
/// that stage or past it.
pub fn levelling_rank(stage: u32, view: OpView) -> u64
    ensures rank { result ≡ levels.levelling stage view }
{
    if view.stage >= stage {
        return HELD_BACK;
    }
    LAST_RANK - u64::from(view.chain)
}
