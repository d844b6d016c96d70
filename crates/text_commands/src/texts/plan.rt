ghost use Rattle.std.specs.Prelude.{◌≡◌, [], ◌∷◌, ◌++◌, IfOk};
ghost use Rattle.problem_json.specs.Writing.{document_text};
ghost use Rattle.problem_json.specs.Grammar.{problem_in};
ghost use Rattle.problem_json.specs.GrammarResults.{Reads};
ghost use Rattle.text_commands.specs.Answers.{answer_in, planned, rollout_text, told_by, IsChosenBy};
ghost use Rattle.text_commands.specs.Runs.{Gives};
ghost use Rattle.text_commands.specs.Safety.{IsPlanned, IsSafePlan, IsValid, PlansSafely};
ghost use Rattle.text_commands.specs.Words.{a_plan};
ghost use Rattle.text_commands.specs.declared.words.Planner.TheVariants.{Slack};
ghost use Rattle.fewest_plan.specs.declared.cause.Cause.TheVariants.{Unchosen};

use crate::command_end::CommandEnd;
use crate::words::Planner;
use fewest_plan::{Cause, NotFound, fewest};
use lists::{Memory, Text};
use plan_choose::{Chosen, Unplanned, choose};
use problem_json::{InputFault, read_problem, write_document};
use std::alloc::Global;
use wan_edge::Nums8;
use wan_model::{CheckedPlan, Problem};

/// The command `plan`: the plan that the planner chooses for the problem that the bytes are. What is written is its
/// document, and a line feed.
pub fn plan(alloc: Global, planner: Planner, input: Nums8) -> Result<CheckedPlan, CommandEnd>
    ensures gives { Gives (told_by rollout_text result) (answer_in (a_plan planner) input) }
    ensures safe { IfOk result (λ rollout. PlansSafely planner input) }
{
    let problem = read_input(alloc, input)?;
    plan_text(alloc, planner, problem)
}

/// The problem that the bytes are. They are given up as soon as they are read.
pub fn read_input(alloc: Global, input: Nums8) -> Result<Problem, InputFault>
    ensures { Reads result (problem_in input) }
{
    read_problem(alloc, input.as_slice())
}

fn plan_text(alloc: Global, planner: Planner, problem: Problem) -> Result<CheckedPlan, CommandEnd>
    ensures gives { Gives (told_by rollout_text result) (planned planner problem) }
    ensures safe { IfOk result (λ rollout. IsPlanned planner problem) }
{
    let chosen = chosen_by(alloc, planner, problem)?;
    every_rollout_is_safe(&chosen.plan);
    Ok(plan_of(chosen))
}

/// The plan that was chosen, without the number of its rate steps.
pub fn plan_of(chosen: Chosen) -> CheckedPlan
    ensures { result ≡ chosen.plan }
{
    let Chosen {
        plan,
        rate_steps: _,
    } = chosen;
    plan
}

fn chosen_by(alloc: Global, planner: Planner, problem: Problem) -> Result<Chosen, NotFound>
    ensures { IsChosenBy planner problem result }
{
    match planner {
        Planner::Slack => by_slack(alloc, problem),
        Planner::Fewest => fewest(alloc, problem),
    }
}

/// The plan that is chosen for a problem without the greedy rule.
pub fn by_slack(alloc: Global, problem: Problem) -> Result<Chosen, NotFound>
    ensures { IsChosenBy Slack problem result }
{
    match choose(alloc, problem) {
        Ok(chosen) => Ok(chosen),
        Err(unplanned) => Err(cause_unchosen(unplanned)),
    }
}

fn cause_unchosen(unplanned: Unplanned) -> NotFound
    ensures problem { result.problem ≡ unplanned.problem }
    ensures cause { result.cause ≡ Unchosen unplanned.cause }
{
    let Unplanned { problem, cause } = unplanned;
    NotFound {
        problem,
        cause: Cause::Unchosen(cause),
    }
}

/// What the plan's type keeps makes every world of its rollouts safe.
pub fn every_rollout_is_safe(plan: &CheckedPlan)
    ensures valid { IsValid plan.now.problem plan.now.plan }
    ensures safe { IsSafePlan plan.now.problem plan.now.plan }
{
    let _ = plan.problem().links();
    let _ = plan.plan();
}

/// The document of a plan with its problem, and a line feed.
pub fn document_of(alloc: Global, plan: &CheckedPlan) -> Result<Text, Memory>
    ensures { IfOk result (λ text. text ≡ document_text plan.now.problem plan.now.plan ++ 10 ∷ []) }
{
    let mut text = write_document(alloc, plan.problem(), plan.plan())?;
    text.push_str("\n")?;
    Ok(text)
}
