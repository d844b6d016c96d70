ghost use Rattle.std.specs.Prelude.{◌≡◌, ◌<◌, ◌≤◌, length, if◌then◌else◌};
ghost use Rattle.rollout_rules.specs.Network.{IsNetwork};
ghost use Rattle.rollout_rules.specs.Wan as wan;
ghost use Rattle.rollout_rules.specs.declared.limits.TheConstants.{LARGEST_RATE};
ghost use Rattle.lp_proof.specs.Shown as spec;
ghost use Rattle.lp_proof.specs.Least as least;

use wan_model::Problem;

/// The first link that doesn't carry the larger of every tunnel's old and new rate.
pub(crate) fn first_overloaded(problem: &Problem) -> Option<u32>
    ensures value { result ≡ least.first_overloaded problem.now }
    ensures network { IsNetwork problem.now }
{
    for link in 0..problem.links().len() as u32 {
        if is_overloaded(problem, link) {
            return Some(link);
        }
    }
    None
}

/// Whether a link doesn't carry them.
pub(crate) fn is_overloaded(problem: &Problem, link: u32) -> bool
    requires { link < length problem.now.links }
    ensures { result ≡ spec.is_overloaded problem.now link }
{
    problem.capacity(link as usize) < direct_load(problem, link)
}

// The sum over the tunnels that cross a link of the larger of their old and new rate.
fn direct_load(problem: &Problem, link: u32) -> u64
    ensures { result ≡ spec.direct_load problem.now link }
{
    let mut sum = 0;
    for tunnel in 0..problem.tunnels().len() as u32 {
        sum += share(problem, tunnel, link);
    }
    sum
}

// What a tunnel adds to it.
fn share(problem: &Problem, tunnel: u32, link: u32) -> u64
    requires { tunnel < length problem.now.tunnels }
    ensures value { result
        ≡ (if wan.crosses problem.now tunnel link then spec.greater_end problem.now tunnel else 0) }
    ensures most { result ≤ LARGEST_RATE }
{
    if crosses(problem, tunnel, link) {
        greater_end(problem, tunnel as usize)
    } else {
        0
    }
}

fn crosses(problem: &Problem, tunnel: u32, link: u32) -> bool
    requires { tunnel < length problem.now.tunnels }
    ensures { result ≡ wan.crosses problem.now tunnel link }
{
    problem.links_of(tunnel as usize).contains(&link)
}

fn greater_end(problem: &Problem, tunnel: usize) -> u64
    requires { tunnel < length problem.now.tunnels }
    ensures value { result ≡ spec.greater_end problem.now tunnel }
    ensures most { result ≤ LARGEST_RATE }
{
    problem.old_rate(tunnel).max(problem.new_rate(tunnel))
}
