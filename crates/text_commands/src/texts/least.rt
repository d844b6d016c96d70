ghost use Rattle.std.specs.Prelude.{◌≡◌, ◌-◌, Ok, IfOk};
ghost use Rattle.lp_proof.specs.RateSteps.{TakesAtLeast};
ghost use Rattle.lp_proof.specs.Least.{least_of};
ghost use Rattle.text_commands.specs.Answers.{answer_in, chosen_by, least_planned, proved, shown_document, told_by, with_proof};
ghost use Rattle.text_commands.specs.Runs.{Gives};
ghost use Rattle.text_commands.specs.Safety.{HasLeast, IsLeast, PlansLeast};
ghost use Rattle.text_commands.specs.Shown.{plan_shown};
ghost use Rattle.text_commands.specs.Words.{the_least};
ghost use Rattle.text_commands.specs.declared.words.Planner.TheVariants.{Slack};

use crate::command_end::CommandEnd;
use crate::shown::ShownPlan;
use crate::texts::check::one_less;
use crate::texts::plan::{by_slack, every_rollout_is_safe, plan_of, read_input};
use crate::unshown::Unshown;
use dependency_graph::checked_plan_is_valid;
use lp_proof::{Least, Proof, prove_least, rate_steps};
use problem_json::Claim;
use std::alloc::Global;
use wan_edge::Nums8;
use wan_model::{CheckedPlan, Problem};

/// The command `least`: the plan that is chosen for the problem that the bytes are, and what shows that no plan has
/// fewer rate steps. What is written is its document with that at the key `least`, and a line feed.
pub fn least(alloc: Global, input: Nums8) -> Result<ShownPlan, CommandEnd>
    ensures gives { Gives (told_by plan_shown result) (answer_in the_least input) }
    ensures safe { IfOk result (λ shown. PlansLeast input) }
{
    let problem = read_input(alloc, input)?;
    plan_and_prove(alloc, problem)
}

fn plan_and_prove(alloc: Global, problem: Problem) -> Result<ShownPlan, CommandEnd>
    ensures gives { Gives (told_by plan_shown result) (least_planned problem) }
    ensures safe { IfOk result (λ shown. IsLeast problem) }
{
    let chosen = by_slack(alloc, problem)?;
    every_rollout_is_safe(&chosen.plan);
    match prove_steps(alloc, &chosen.plan, chosen.rate_steps) {
        Ok(claim) => Ok(ShownPlan {
            plan: plan_of(chosen),
            claim,
        }),
        Err(ending) => {
            drop(chosen);
            Err(ending)
        }
    }
}

/// What shows that fewer rate steps are impossible than were chosen, where the plan has no more.
fn prove_steps(alloc: Global, plan: &CheckedPlan, q: u32) -> Result<Claim, CommandEnd>
    requires { chosen_by Slack plan.now.problem
        ≡ Ok (record { plan = plan.now.plan; rate_steps = q }) }
    ensures gives { Gives (told_by (shown_document plan.now) result)
        (proved plan.now.problem plan.now.plan q) }
    ensures least { IfOk result (λ claim. HasLeast plan.now.problem plan.now.plan) }
{
    let steps = rate_steps(plan);
    if steps > q {
        return Err(CommandEnd::Unshown(Unshown::Fewer));
    }
    seek_proof(alloc, plan, q)
}

/// The same, by what is found of the steps that were chosen.
fn seek_proof(alloc: Global, plan: &CheckedPlan, q: u32) -> Result<Claim, CommandEnd>
    requires { chosen_by Slack plan.now.problem
        ≡ Ok (record { plan = plan.now.plan; rate_steps = q }) }
    ensures gives { Gives (told_by (shown_document plan.now) result)
        (with_proof plan.now.problem plan.now.plan q (least_of plan.now.problem q)) }
    ensures least { IfOk result (λ claim. TakesAtLeast plan.now.problem q) }
{
    checked_plan_is_valid(plan);
    match prove_least(alloc, plan.problem(), q) {
        Least::Shown(proof) => Ok(claim_with(q, proof)),
        Least::Fewer(other) => {
            drop(other);
            Err(CommandEnd::Unshown(Unshown::Fewer))
        }
        Least::Point(point) => {
            drop(point);
            Err(CommandEnd::Unshown(Unshown::Fewer))
        }
        Least::Wide => Err(CommandEnd::Unshown(Unshown::Wide)),
        Least::Overflow(_) => Err(CommandEnd::Unshown(Unshown::Overflow)),
        Least::Spent(_) => Err(CommandEnd::Unshown(Unshown::Spent)),
        Least::Memory => Err(CommandEnd::OutOfMemory),
    }
}

/// That one rate step less than so many is impossible, with its proof.
fn claim_with(q: u32, proof: Proof) -> Claim
    ensures { result ≡ record { steps = q - 1; proof = proof } }
{
    Claim {
        steps: one_less(q),
        proof,
    }
}
