ghost use Rattle.std.specs.Prelude.{◌≡◌, ◌<◌, ◌≤◌, ◌++◌, [], ◌∷◌, length, IfOk, OnOk, if◌then◌else◌};
ghost use Rattle.rollout_rules.specs.declared.limits.TheConstants.{MOST_TUNNELS};
ghost use Rattle.rollout_rules.specs.Network.{IsNetwork};
ghost use Rattle.step_lp.specs.Program as program;

use lists::{Ids, Memory};
use std::alloc::Global;
use wan_model::Problem;

/// Whether a tunnel is wanted, or carries traffic at first.
pub(crate) fn is_used(problem: &Problem, tunnel: u32) -> bool
    requires { tunnel < length problem.now.tunnels }
    ensures { result ≡ program.used_at problem.now tunnel }
{
    let tunnel = tunnel as usize;
    problem.is_wanted(tunnel) || problem.old_rate(tunnel) > 0
}

/// How many tunnels are used.
pub(crate) fn used_count(problem: &Problem) -> u32
    ensures value { result ≡ program.used_count problem.now }
    ensures most { result ≤ MOST_TUNNELS }
    ensures network { IsNetwork problem.now }
{
    let mut count = 0;
    for tunnel in 0..problem.tunnels().len() as u32 {
        count += u32::from(is_used(problem, tunnel));
    }
    count
}

/// The numbers of the used tunnels.
pub(crate) fn used_tunnels(alloc: Global, problem: &Problem) -> Result<Ids, Memory>
    ensures { IfOk result (λ used. used ≡ program.used_tunnels problem.now) }
{
    let mut used = Ids::new(alloc);
    for tunnel in 0..problem.tunnels().len() as u32 {
        push_used(&mut used, problem, tunnel)?;
    }
    Ok(used)
}

fn push_used(used: &mut Ids, problem: &Problem, tunnel: u32) -> Result<(), Memory>
    requires { tunnel < length problem.now.tunnels }
    ensures { OnOk result
        (used.new ≡ used.old ++ (if program.used_at problem.now tunnel then tunnel ∷ [] else [])) }
{
    if is_used(problem, tunnel) {
        used.push(tunnel)?;
    }
    Ok(())
}
