ghost use Rattle.std.specs.Prelude.{◌≡◌};
ghost use Rattle.rollback_service.specs.Levellings.{level_for};

use controller_run::{RunEnd, RunOutcome};
use lists::Ids;
use wan_model::CheckedPlan;

/// How levelling has gone.
#[derive(Debug, Drop)]
pub enum LevelAnswer {
    /// Nothing is in flight, and each item has come as far as it was to. The way back may begin with this
    /// number of operations settled of each.
    Level(CheckedPlan, Ids),
    /// It isn't level: this is what its run has come to.
    Unlevel(RunOutcome),
}

/// The answer after a run that has come to this, under the policy that levels where the way back begins so.
pub(crate) fn answer_behind(outcome: RunOutcome, start: Ids) -> LevelAnswer
    ensures { result ≡ level_for outcome start }
{
    match outcome.end {
        RunEnd::Finished => LevelAnswer::Level(outcome.plan, start),
        RunEnd::Held => LevelAnswer::Level(outcome.plan, start),
        _ => LevelAnswer::Unlevel(outcome),
    }
}
