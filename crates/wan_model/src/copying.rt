//! Copies of a network, with other rates.

ghost use Rattle.std.specs.Prelude.{◌≡◌, ◌+◌, ◌<◌, length, map, IfOk, OnOk};
ghost use Rattle.rollout_rules.specs.Network.{IsNetwork};
ghost use Rattle.wan_model.specs.Fronts.{switched, linked, flowed};
ghost use Rattle.wan_model.specs.Rates.{with_rates, AreRates};
ghost use Rattle.wan_model.specs.Sides.{rate_on};

use crate::problem::Problem;
use crate::side::Side;
use lists::{Many, Memory};
use std::alloc::Global;

/// The rates of all tunnels in a split, in order; None where a tunnel isn't installed there.
pub fn rates_on(alloc: Global, problem: &Problem, side: Side) -> Result<Many<Option<u64>>, Memory>
    ensures list { IfOk result (λ rates. rates ≡ map (rate_on side) problem.now.tunnels) }
    ensures rates { IfOk result (λ rates. AreRates problem.now rates) }
{
    let mut rates = Many::new(alloc);
    for tunnel in 0..problem.tunnels().len() {
        rates.push(problem.rate_on(side, tunnel))?;
    }
    Ok(rates)
}

/// A copy of a network in which tunnel `t` has the t-th of these old and of these new rates. Time: the
/// network.
pub fn with_rates(
    alloc: Global,
    problem: &Problem,
    old: &[Option<u64>],
    new: &[Option<u64>],
) -> Result<Problem, Memory>
    requires old { AreRates problem.now old.now }
    requires new { AreRates problem.now new.now }
    ensures { IfOk result (λ copy. copy ≡ with_rates problem.now old.now new.now) }
{
    let mut copy = Problem::of_format(alloc, problem.format());
    copy_switches(problem, &mut copy)?;
    copy_links(problem, &mut copy)?;
    for flow in 0..problem.flows().len() {
        copy_flow(problem, flow, old, new, &mut copy)?;
    }
    Ok(copy)
}

fn copy_switches(problem: &Problem, copy: &mut Problem) -> Result<(), Memory>
    requires { copy.old ≡ switched problem.now 0 }
    ensures { OnOk result (copy.new ≡ linked problem.now 0) }
{
    for switch in 0..problem.switches().len() {
        copy.add_switch(problem.switch_name(switch), problem.table(switch))?;
    }
    Ok(())
}

fn copy_links(problem: &Problem, copy: &mut Problem) -> Result<(), Memory>
    requires { copy.old ≡ linked problem.now 0 }
    ensures { OnOk result (copy.new ≡ linked problem.now (length problem.now.links)) }
{
    for number in 0..problem.links().len() {
        let link = &problem.links()[number];
        copy.add_link(link.from, link.to, link.capacity)?;
    }
    Ok(())
}

// One flow more, with its tunnels.
fn copy_flow(
    problem: &Problem,
    flow: usize,
    old: &[Option<u64>],
    new: &[Option<u64>],
    copy: &mut Problem,
) -> Result<(), Memory>
    requires network { IsNetwork problem.now }
    requires flow { flow < length problem.now.flows }
    requires old { AreRates problem.now old.now }
    requires new { AreRates problem.now new.now }
    requires before { copy.old ≡ flowed (with_rates problem.now old.now new.now) flow }
    ensures { OnOk result (copy.new ≡ flowed (with_rates problem.now old.now new.now) (flow + 1)) }
{
    copy.add_flow(problem.flow_name(flow))?;
    for j in 0..problem.tunnel_count(flow) {
        let t = problem.tunnel_of(flow, j);
        copy.add_tunnel(problem.path(t), old[t], new[t], problem.width(t))?;
    }
    Ok(())
}
