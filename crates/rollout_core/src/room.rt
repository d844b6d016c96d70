ghost use Rattle.std.specs.Prelude.{◌≡◌, ◌<◌};
ghost use Rattle.rollout_rules.specs.Wan.{last_stage};
ghost use Rattle.rollout_rules.specs.Room as rooms;
ghost use Rattle.dependency_graph.specs.Ahead.{places_begun};
ghost use Rattle.dependency_graph.specs.Cells.{resource_count, resource_at};

use dependency_graph::progress::room::{entries, least_stage, load};
use dependency_graph::{Progress, capacity, checked_plan_is_valid};
use rollout_rules::{Entry, Op};
use wan_model::CheckedPlan;

/// Whether, from the least stage at which an item stands on, every resource holds what is taken of it
/// once `op` has begun after the entries ahead.
pub(crate) fn fits(progress: &Progress, plan: &CheckedPlan, ahead: &[Entry], op: Op) -> bool
    requires { plan.now ≡ progress.now.rollout }
    ensures { result
        ≡ rooms.fits plan.now.problem plan.now.plan
        (places_begun plan.now progress.now ahead.now op) }
{
    for stage in least_stage(progress, plan, ahead)..plan.last_stage() {
        if !fit_at(progress, plan, ahead, op, stage) {
            return false;
        }
    }
    true
}

fn fit_at(progress: &Progress, plan: &CheckedPlan, ahead: &[Entry], op: Op, stage: usize) -> bool
    requires own { plan.now ≡ progress.now.rollout }
    requires stage { stage < last_stage plan.now.plan }
    ensures { result
        ≡ rooms.fits_at plan.now.problem plan.now.plan
        (places_begun plan.now progress.now ahead.now op) stage }
{
    for resource in 0..plan.problem().links().len() + plan.problem().switches().len() {
        if room(progress, plan, ahead, op, stage, resource) > capacity(plan, resource) {
            return false;
        }
    }
    true
}

/// What is taken of a resource at a stage: a plain sum over all that takes of it.
fn room(
    progress: &Progress,
    plan: &CheckedPlan,
    ahead: &[Entry],
    op: Op,
    stage: usize,
    resource: usize,
) -> u128
    requires own { plan.now ≡ progress.now.rollout }
    requires stage { stage < last_stage plan.now.plan }
    requires resource { resource < resource_count plan.now.problem }
    ensures { result
        ≡ rooms.room plan.now.problem plan.now.plan
        (places_begun plan.now progress.now ahead.now op) stage
        (resource_at plan.now.problem resource) }
{
    checked_plan_is_valid(plan);
    let links = plan.problem().links().len();
    if resource < links {
        return load(progress, plan, ahead, op, stage, resource);
    }
    entries(progress, plan, ahead, op, stage, resource - links)
}
