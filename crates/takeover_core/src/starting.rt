ghost use Rattle.std.specs.Prelude.{◌≡◌, None, IfOk};
ghost use Rattle.rollout_laws.specs.Kept.{IsKept};
ghost use Rattle.rollout_laws.specs.SafeWorlds as safe;
ghost use Rattle.takeover_rules.specs.Takeovers as takeovers;
ghost use Rattle.takeover_core.specs.Standings.{IsOwn, world_of};

use crate::fences::is_all_fenced;
use dependency_graph::checked_plan_is_valid;
use lists::Memory;
use rollout_core::World;
use rollout_rules::Held;
use std::alloc::Global;
use wan_model::CheckedPlan;

/// The newer world, where the switch of each item with an operation is fenced: it begins with what the
/// switches of the older one hold.
pub(crate) fn newer_world<'p>(
    alloc: Global,
    plan: &'p CheckedPlan,
    fenced: &[bool],
    older: &World<'p>,
) -> Result<Option<World<'p>>, Memory>
    requires own { older.now.rollout ≡ plan.now }
    requires kept { IsKept older.now.rollout.problem older.now.rollout.plan older.now.world }
    ensures newer { IfOk result
        (λ newer. world_of newer
        ≡ takeovers.newer_world plan.now.problem plan.now.plan fenced.now older.now.world None) }
    ensures own { IfOk result (λ newer. IsOwn plan.now newer) }
{
    if !is_all_fenced(plan, fenced) {
        return Ok(None);
    }
    Ok(Some(taken_over(alloc, plan, older)?))
}

// The world that goes on from what the switches hold.
fn taken_over<'p>(
    alloc: Global,
    plan: &'p CheckedPlan,
    older: &World<'p>,
) -> Result<World<'p>, Memory>
    requires own { older.now.rollout ≡ plan.now }
    requires kept { IsKept older.now.rollout.problem older.now.rollout.plan older.now.world }
    ensures { IfOk result
        (λ newer. newer
        ≡ record {
          rollout = plan.now;
          world = takeovers.taken_over plan.now.problem plan.now.plan older.now.world;
        }) }
{
    checked_plan_is_valid(plan);
    let start = numbers_applied(alloc, older)?;
    let first = pairs_held(alloc, older)?;
    World::new(alloc, plan, &start, older.migration(), &first)
}

// How many operations of each item its switch has applied.
fn numbers_applied(alloc: Global, world: &World<'_>) -> Result<Vec<u32>, Memory>
    ensures { IfOk result
        (λ numbers. numbers.items ≡ safe.applied world.now.rollout.problem world.now.world) }
{
    let mut numbers = Vec::new(alloc);
    for item in 0..world.items() {
        numbers.push(world.now(item))?;
    }
    Ok(numbers)
}

// The pair that each item's switch holds.
fn pairs_held(alloc: Global, world: &World<'_>) -> Result<Vec<Held>, Memory>
    requires { IsKept world.now.rollout.problem world.now.rollout.plan world.now.world }
    ensures { IfOk result (λ pairs. pairs.items ≡ safe.pairs_held world.now.world) }
{
    let mut pairs = Vec::new(alloc);
    for item in 0..world.items() {
        pairs.push(world.held(item))?;
    }
    Ok(pairs)
}
