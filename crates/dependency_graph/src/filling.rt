ghost use Rattle.std.specs.Prelude.{◌≡◌, ◌+◌, ◌<◌, ◌≤◌, []};
ghost use Rattle.rollout_rules.specs.Wan.{last_stage};
ghost use Rattle.rollout_rules.specs.Room as rooms;
ghost use Rattle.dependency_graph.specs.Ahead.{places_with};
ghost use Rattle.dependency_graph.specs.Fits.{least_stand};
ghost use Rattle.dependency_graph.specs.Cells.{resource_count, resource_at, AreCells, AreRooms, AreFilled};
ghost use Rattle.dependency_graph.specs.Following.{GoesOn};

use crate::cells::Cells;
use crate::checked::checked_plan_is_valid;
use crate::progress::Progress;
use wan_model::CheckedPlan;

/// Writes what is taken of each resource, from the least stage at which an item stands on.
pub(crate) fn fill(cells: &mut Cells, progress: &Progress, plan: &CheckedPlan)
    requires own { plan.now ≡ progress.now.rollout }
    requires goes_on { GoesOn progress.now [] }
    requires cells { AreCells plan.now cells.old }
    ensures { AreRooms plan.now (places_with plan.now progress.now []) cells.new }
{
    let low = progress.least_stand(plan);
    for resource in 0..plan.problem().links().len() + plan.problem().switches().len() {
        fill_row(cells, progress, plan, low, resource);
    }
}

fn fill_row(cells: &mut Cells, progress: &Progress, plan: &CheckedPlan, low: usize, resource: usize)
    requires own { plan.now ≡ progress.now.rollout }
    requires goes_on { GoesOn progress.now [] }
    requires low { low ≡ least_stand plan.now progress.now [] }
    requires within { low ≤ last_stage plan.now.plan }
    requires resource { resource < resource_count plan.now.problem }
    requires before { AreFilled plan.now (places_with plan.now progress.now []) low resource low
        cells.old }
    ensures { AreFilled plan.now (places_with plan.now progress.now []) low (resource + 1) low
        cells.new }
{
    for stage in low..plan.last_stage() {
        let room = few_room(progress, plan, resource, stage);
        cells.set(resource, stage, room);
    }
}

fn few_room(progress: &Progress, plan: &CheckedPlan, resource: usize, stage: usize) -> u64
    requires own { plan.now ≡ progress.now.rollout }
    requires goes_on { GoesOn progress.now [] }
    requires resource { resource < resource_count plan.now.problem }
    requires low { least_stand plan.now progress.now [] ≤ stage }
    requires stage { stage < last_stage plan.now.plan }
    ensures { result
        ≡ rooms.room plan.now.problem plan.now.plan (places_with plan.now progress.now []) stage
        (resource_at plan.now.problem resource) }
{
    checked_plan_is_valid(plan);
    progress.room(plan, resource, stage) as u64
}
