ghost use Rattle.std.specs.Prelude.{◌≡◌, ◌<◌, length, IfOk, IsTrue};
ghost use Rattle.rollout_rules.specs.Items.{item_count};
ghost use Rattle.rollout_rules.specs.History.{no_start};
ghost use Rattle.rollout_rules.specs.Legal.{is_sound};

use crate::checked::checked_plan_is_valid;
use lists::Memory;
use std::alloc::Global;
use wan_model::{CheckedPlan, item_count};

/// The start at which nothing is settled.
pub(crate) fn zeros(alloc: Global, plan: &CheckedPlan) -> Result<Vec<u32>, Memory>
    ensures list { IfOk result (λ start. start.items ≡ no_start plan.now.problem) }
    ensures numbers { IfOk result (λ start. length start.items ≡ item_count plan.now.problem) }
    ensures sound { IfOk result
        (λ start. IsTrue (is_sound plan.now.problem plan.now.plan start.items)) }
{
    checked_plan_is_valid(plan);
    let mut start = Vec::new(alloc);
    for _item in 0..item_count(plan.problem()) {
        start.push(0)?;
    }
    Ok(start)
}
