//! About how many bytes a text has: room for it is taken at once, so that it isn't moved as it grows.

use wan_model::{Plan, Problem, Switch};

// About as many bytes has a row beside the names in it, and a name beside its letters; and at most so many
// what a stage says of a tunnel, a rate of 20 digits and `false`, each with its comma.
const ROW: usize = 64;

const QUOTES: usize = 3;

const TUNNEL: usize = 27;

/// Of a problem: its rows and the names in them, which are taken to be as long as the switches' on average.
pub(super) fn problem_bytes(problem: &Problem) -> usize {
    let switches = problem.switches();
    let links = problem.links().len();
    let rows = switches
        .len()
        .saturating_add(links)
        .saturating_add(problem.flows().len())
        .saturating_add(problem.tunnels().len());
    let names = switches
        .len()
        .saturating_add(links.saturating_mul(2))
        .saturating_add(all_hops(problem));
    let name = letters(switches) / switches.len().max(1);
    rows.saturating_mul(ROW)
        .saturating_add(names.saturating_mul(name.saturating_add(QUOTES)))
}

/// Of a plan: what its stages say of each tunnel.
pub(super) fn plan_bytes(plan: &Plan) -> usize {
    let stages = plan.stages.as_slice();
    let Some(stage) = stages.first() else {
        return 0;
    };
    let tunnels = stage.rates.as_slice().len();
    stages.len().saturating_mul(tunnels.saturating_mul(TUNNEL))
}

fn letters(switches: &[Switch]) -> usize {
    let mut letters: usize = 0;
    for switch in switches {
        letters = letters.saturating_add(switch.name.as_str().len());
    }
    letters
}

fn all_hops(problem: &Problem) -> usize {
    let mut hops: usize = 0;
    for tunnel in 0..problem.tunnels().len() {
        hops = hops.saturating_add(problem.path(tunnel).len());
    }
    hops
}
