//! A copy of a network with other capacities and other rates.
ghost use Rattle.std.specs.Prelude.{◌≡◌, ◌+◌, ◌<◌, length, IfOk, OnOk};
ghost use Rattle.rollout_rules.specs.Network.{IsNetwork};
ghost use Rattle.wan_model.specs.Fronts.{switched, linked, flowed};
ghost use Rattle.wan_model.specs.Rates.{with_rates, AreRates};
ghost use Rattle.retarget_plan.specs.Left.{with_capacities};
ghost use Rattle.retarget_plan.specs.Copies.{AreCapacities};

use lists::Memory;
use std::alloc::Global;
use wan_model::Problem;

/// A copy of a network in which link `l` has the l-th of these capacities, and tunnel `t` the t-th of these old
/// and of these new rates. Time: the network.
pub(crate) fn remake(
    alloc: Global,
    problem: &Problem,
    capacities: &[u64],
    old: &[Option<u64>],
    new: &[Option<u64>],
) -> Result<Problem, Memory>
    requires capacities { AreCapacities problem.now capacities.now }
    requires old { AreRates problem.now old.now }
    requires new { AreRates problem.now new.now }
    ensures { IfOk result
        (λ copy. copy ≡ with_rates (with_capacities problem.now capacities.now) old.now new.now) }
{
    let mut copy = empty_like(alloc, problem);
    copy_switches(problem, capacities, &mut copy)?;
    copy_links(problem, capacities, &mut copy)?;
    for flow in 0..problem.flows().len() {
        copy_flow(problem, capacities, flow, old, new, &mut copy)?;
    }
    Ok(copy)
}

// A network of the same format without rows.
fn empty_like(alloc: Global, problem: &Problem) -> Problem
    ensures { result ≡ switched problem.now 0 }
{
    if problem.format() == 1 {
        return Problem::new(alloc);
    }
    Problem::new_wide(alloc)
}

fn copy_switches(problem: &Problem, capacities: &[u64], copy: &mut Problem) -> Result<(), Memory>
    requires capacities { AreCapacities problem.now capacities.now }
    requires before { copy.old ≡ switched problem.now 0 }
    ensures { OnOk result (copy.new ≡ linked (with_capacities problem.now capacities.now) 0) }
{
    for switch in 0..problem.switches().len() {
        copy.add_switch(problem.switch_name(switch), problem.table(switch))?;
    }
    Ok(())
}

fn copy_links(problem: &Problem, capacities: &[u64], copy: &mut Problem) -> Result<(), Memory>
    requires capacities { AreCapacities problem.now capacities.now }
    requires before { copy.old ≡ linked (with_capacities problem.now capacities.now) 0 }
    ensures { OnOk result
        (copy.new
        ≡ linked (with_capacities problem.now capacities.now) (length problem.now.links)) }
{
    for number in 0..problem.links().len() {
        let link = &problem.links()[number];
        copy.add_link(link.from, link.to, capacities[number])?;
    }
    Ok(())
}

// One flow more, with its tunnels.
fn copy_flow(
    problem: &Problem,
    capacities: &[u64],
    flow: usize,
    old: &[Option<u64>],
    new: &[Option<u64>],
    copy: &mut Problem,
) -> Result<(), Memory>
    requires network { IsNetwork problem.now }
    requires capacities { AreCapacities problem.now capacities.now }
    requires flow { flow < length problem.now.flows }
    requires old { AreRates problem.now old.now }
    requires new { AreRates problem.now new.now }
    requires before { copy.old
        ≡ flowed (with_rates (with_capacities problem.now capacities.now) old.now new.now) flow }
    ensures { OnOk result
        (copy.new
        ≡ flowed (with_rates (with_capacities problem.now capacities.now) old.now new.now)
        (flow + 1)) }
{
    copy.add_flow(problem.flow_name(flow))?;
    for j in 0..problem.tunnel_count(flow) {
        let t = problem.tunnel_of(flow, j);
        copy.add_tunnel(problem.path(t), old[t], new[t], problem.width(t))?;
    }
    Ok(())
}
