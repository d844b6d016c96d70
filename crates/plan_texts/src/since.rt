//! Since when a tunnel is installed, or carries nothing.
ghost use Rattle.std.specs.Prelude.{◌≡◌, ◌<◌, ◌≤◌, length};
ghost use Rattle.rollout_rules.specs.Wan.{last_stage};
ghost use Rattle.rollout_rules.specs.Needs as needs;

use wan_model::CheckedPlan;

/// The first stage of the run of stages at which tunnel `t` is installed, around stage `s`.
pub(crate) fn installed_since(plan: &CheckedPlan, t: usize, s: usize) -> usize
    requires tunnel { t < length plan.now.problem.tunnels }
    requires stage { s ≤ last_stage plan.now.plan }
    ensures { result ≡ needs.installed_since plan.now.plan t s }
{
    let mut since = 0;
    for u in 0..s {
        if !plan.mark(u, t) {
            since = u + 1;
        }
    }
    since
}

/// The first stage of the run of stages at which tunnel `t` carries nothing, around stage `s`.
pub(crate) fn idle_since(plan: &CheckedPlan, t: usize, s: usize) -> usize
    requires tunnel { t < length plan.now.problem.tunnels }
    requires stage { s ≤ last_stage plan.now.plan }
    ensures { result ≡ needs.idle_since plan.now.plan t s }
{
    let mut since = 0;
    for u in 0..s {
        if plan.rate(u, t) != 0 {
            since = u + 1;
        }
    }
    since
}
