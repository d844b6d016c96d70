ghost use Rattle.std.specs.Prelude.{IsTrue};
ghost use Rattle.rollout_rules.specs.Network.{IsNetwork};
ghost use Rattle.rollout_rules.specs.Valid.{is_valid_plan};

use wan_model::CheckedPlan;

/// What the types keep of a plan that was checked.
pub(crate) fn checked_plan_is_valid(plan: &CheckedPlan)
    ensures network { IsNetwork plan.now.problem }
    ensures valid { IsTrue (is_valid_plan plan.now.problem plan.now.plan) }
{
    let _ = plan.problem().flows();
    let _ = plan.plan();
}
