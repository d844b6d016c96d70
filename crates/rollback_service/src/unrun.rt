ghost use Rattle.std.specs.Prelude.{◌≡◌};
ghost use Rattle.controller_run.specs.RolloutEnds.{outcome_behind};

use controller_run::{RolloutResult, RunEnd, RunOutcome};
use disk_model::Disk;
use rollout_book::JournaledRounds;

/// What a rollout comes to whose journal was opened, and then memory ran out before anything was begun.
pub(crate) fn unrun<D: Disk>(chronicle: JournaledRounds<D>) -> RolloutResult<D>
    ensures disk { result.disk ≡ chronicle.disk }
    ensures outcome { result.outcome ≡ outcome_behind chronicle RunEnd.Memory }
{
    let found = chronicle.found();
    let (graph, disk) = chronicle.into_parts();
    RolloutResult {
        disk,
        outcome: RunOutcome::of(graph, found, RunEnd::Memory),
    }
}
