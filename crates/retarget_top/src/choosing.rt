//! A plan is chosen for a problem, as the command `plan` does.
ghost use Rattle.text_commands.specs.Answers.{IsChosenBy};

use fewest_plan::{NotFound, fewest};
use plan_choose::Chosen;
use std::alloc::Global;
use text_commands::{Planner, by_slack};
use wan_model::Problem;

/// The plan that a planner chooses for a problem, or why there is none.
pub(crate) fn chosen_by(
    alloc: Global,
    planner: Planner,
    problem: Problem,
) -> Result<Chosen, NotFound>
    ensures { IsChosenBy planner problem result }
{
    match planner {
        Planner::Slack => by_slack(alloc, problem),
        Planner::Fewest => fewest(alloc, problem),
    }
}
