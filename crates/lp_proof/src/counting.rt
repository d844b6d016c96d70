ghost use Rattle.std.specs.Prelude.{◌≡◌, ◌+◌, ◌<◌, length};
ghost use Rattle.rollout_rules.specs.Sums.{all_below};
ghost use Rattle.rollout_rules.specs.Wan.{last_stage};
ghost use Rattle.lp_proof.specs.RateSteps as spec;

use wan_model::CheckedPlan;

/// How many steps of a plan change some rate. Time: the stages times the tunnels.
pub fn rate_steps(plan: &CheckedPlan) -> u32
    ensures { result ≡ spec.rate_steps plan.now.problem plan.now.plan }
{
    let mut steps = 0;
    for s in 0..plan.last_stage() {
        steps += u32::from(moves_rates(plan, s));
    }
    steps
}

fn moves_rates(plan: &CheckedPlan, s: usize) -> bool
    requires { s < last_stage plan.now.plan }
    ensures { result ≡ spec.moves_rates plan.now.problem plan.now.plan s }
{
    !all_stay(plan, s)
}

// Whether every tunnel has the same rate at the stage after.
fn all_stay(plan: &CheckedPlan, s: usize) -> bool
    requires { s < last_stage plan.now.plan }
    ensures { result
        ≡ all_below (length plan.now.problem.tunnels) (spec.stays_at plan.now.plan s) }
{
    for t in 0..plan.problem().tunnels().len() {
        if !stays_at(plan, s, t) {
            return false;
        }
    }
    true
}

fn stays_at(plan: &CheckedPlan, s: usize, t: usize) -> bool
    requires stage { s < last_stage plan.now.plan }
    requires tunnel { t < length plan.now.problem.tunnels }
    ensures { result ≡ spec.stays_at plan.now.plan s t }
{
    plan.rate(s, t) == plan.rate(plan.next_stage(s), t)
}
