//! What the texts say of a plan.
ghost use Rattle.std.specs.Prelude.{ℕ, ◌<◌, ◌≤◌, IsTrue};
ghost use Rattle.rollout_rules.specs.History.{History, settled};
ghost use Rattle.rollout_rules.specs.Items.{Resource, is_resource, item_at, item_count};
ghost use Rattle.rollout_rules.specs.Operations.{operations};
ghost use Rattle.rollout_rules.specs.Wan.{Plan, Problem, last_stage};
ghost use Rattle.plan_texts.specs.Loads.{IsBetween};
ghost use Rattle.plan_texts.specs.Told.{IsNextTold};

use dependency_graph::checked_plan_is_valid;
use wan_model::CheckedPlan;

/// At both ends of a step no more is taken of a link or a table than is told of the step, and that is no
/// more than there is.
pub fn a_step_holds_both_of_its_ends(plan: &CheckedPlan)
    ensures { (s : ℕ) (r : Resource)
        → s ≤ last_stage plan.now.plan
        → IsTrue (is_resource plan.now.problem r)
        → IsBetween plan.now.problem plan.now.plan s r }
{
    checked_plan_is_valid(plan);
}

/// After every history the line with an item's number and that of its next operation tells that operation:
/// the stage to which it leads, the content that the item holds and the one that it is sent, the chain that a
/// policy sees, and items that stand at their stages exactly where the needs of the rules are met.
pub fn each_next_operation_is_told()
    ensures { (p : Problem) (plan : Plan) (h : History) (n : ℕ)
        → n < item_count p
        → settled h n < operations p plan (item_at p n)
        → IsNextTold p plan h n }
{}
