ghost use Rattle.std.specs.Prelude.{◌≡◌, ◌<◌, length, IfOk};
ghost use Rattle.rollout_rules.specs.Items.{the_link, the_table};
ghost use Rattle.rollout_rules.specs.Valid.{step_total};
ghost use Rattle.rollout_rules.specs.declared.item.Spot.TheVariants as variants;
ghost use Rattle.rollout_rules.specs.Network.{IsNetwork};
ghost use Rattle.wan_model.specs.Shaped.{IsShaped};
ghost use Rattle.plan_check.specs.First.{first_below};
ghost use Rattle.plan_check.specs.FirstBroken as first;
ghost use Rattle.plan_check.specs.Parts.{AreTotals};

use crate::broken::{Broken, breaks};
use crate::sums::{step_entries, step_loads};
use lists::Memory;
use std::alloc::Global;
use wan_model::{Plan, Problem, Spot};

/// P3: the first stage at which the larger rates of the step from it don't fit on a link, or the widths
/// of the entries that are there at either end don't fit in a table (SWAN's step rule).
pub fn first_over(alloc: Global, problem: &Problem, plan: &Plan) -> Result<Option<Broken>, Memory>
    requires { IsShaped problem.now plan.now }
    ensures { IfOk result
        (λ broken. broken
        ≡ first_below (length plan.now.stages) (first.over_step problem.now plan.now)) }
{
    for s in 0..plan.stages.as_slice().len() {
        if let Some(broken) = over_step(alloc, problem, plan, s)? {
            return Ok(Some(broken));
        }
    }
    Ok(None)
}

fn over_step(
    alloc: Global,
    problem: &Problem,
    plan: &Plan,
    s: usize,
) -> Result<Option<Broken>, Memory>
    requires shape { IsShaped problem.now plan.now }
    requires stage { s < length plan.now.stages }
    ensures { IfOk result (λ broken. broken ≡ first.over_step problem.now plan.now s) }
{
    let loads = step_loads(alloc, problem, plan, s)?;
    if let Some(broken) = over_link(problem, plan, s, loads.as_slice()) {
        return Ok(Some(broken));
    }
    let entries = step_entries(alloc, problem, plan, s)?;
    Ok(over_table(problem, plan, s, entries.as_slice()))
}

fn over_link(problem: &Problem, plan: &Plan, s: usize, loads: &[u128]) -> Option<Broken>
    requires shape { IsShaped problem.now plan.now }
    requires stage { s < length plan.now.stages }
    requires totals { AreTotals problem.now plan.now s (length problem.now.links) the_link
        loads.now }
    ensures { result ≡ first.over_link problem.now plan.now s }
{
    for l in 0..problem.links().len() {
        if let Some(broken) = over_capacity(problem, plan, s, l, loads[l]) {
            return Some(broken);
        }
    }
    None
}

fn over_table(problem: &Problem, plan: &Plan, s: usize, entries: &[u128]) -> Option<Broken>
    requires shape { IsShaped problem.now plan.now }
    requires stage { s < length plan.now.stages }
    requires totals { AreTotals problem.now plan.now s (length problem.now.switches) the_table
        entries.now }
    ensures { result ≡ first.over_table problem.now plan.now s }
{
    for w in 0..problem.switches().len() {
        if let Some(broken) = over_size(problem, plan, s, w, entries[w]) {
            return Some(broken);
        }
    }
    None
}

fn over_capacity(problem: &Problem, plan: &Plan, s: usize, l: usize, load: u128) -> Option<Broken>
    requires shape { IsShaped problem.now plan.now }
    requires stage { s < length plan.now.stages }
    requires network { IsNetwork problem.now }
    requires link { l < length problem.now.links }
    requires load { load ≡ step_total problem.now plan.now s (the_link l) }
    ensures { result ≡ first.over problem.now plan.now s (the_link l) (variants.Link l) }
{
    let capacity = u128::from(problem.capacity(l)) * u128::from(plan.scale);
    if load > capacity {
        return Some(breaks(3, s, Spot::Link(l as u32), load, capacity));
    }
    None
}

fn over_size(problem: &Problem, plan: &Plan, s: usize, w: usize, entries: u128) -> Option<Broken>
    requires shape { IsShaped problem.now plan.now }
    requires stage { s < length plan.now.stages }
    requires network { IsNetwork problem.now }
    requires switch { w < length problem.now.switches }
    requires entries { entries ≡ step_total problem.now plan.now s (the_table w) }
    ensures { result ≡ first.over problem.now plan.now s (the_table w) (variants.Table w) }
{
    let size = u128::from(problem.table(w));
    if entries > size {
        return Some(breaks(3, s, Spot::Table(w as u32), entries, size));
    }
    None
}
