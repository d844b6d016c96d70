ghost use Rattle.std.specs.Prelude.{◌≡◌};
ghost use Rattle.rollout_rules.specs.Network.{IsNetwork};
ghost use Rattle.scratch_plan.specs.Frame as spec;

use wan_model::Problem;

/// Whether every tunnel has its old rate in the new split.
pub fn has_equal_rates(problem: &Problem) -> bool
    ensures value { result ≡ spec.has_equal_rates problem.now }
    ensures network { IsNetwork problem.now }
{
    for t in 0..problem.tunnels().len() {
        if problem.old_rate(t) != problem.new_rate(t) {
            return false;
        }
    }
    true
}
