ghost use Rattle.std.specs.Prelude.{◌≡◌, ◌<◌, ◌≤◌, ◌++◌, [], ◌∷◌, length, IfOk, OnOk, if◌then◌else◌};
ghost use Rattle.rollout_rules.specs.Sums.{list_below};
ghost use Rattle.step_lp.specs.declared.limit.Limit.TheVariants as limit;
ghost use Rattle.step_lp.specs.Program as program;

use crate::limit::{Limit, LimitList};
use crate::used::is_used;
use lists::Memory;
use std::alloc::Global;
use wan_model::Problem;

/// What the rows ask, in their order: the tops by step and tunnel, the rate before the step ahead of the
/// rate after it; the links by step; then the totals by stage between and flow, the lower bound ahead
/// of the upper.
pub(crate) fn limits(alloc: Global, problem: &Problem, q: u32) -> Result<LimitList, Memory>
    requires least { 2 ≤ q }
    requires most { q ≤ 8 }
    ensures { IfOk result (λ limits. limits ≡ program.limits problem.now q) }
{
    let mut limits = LimitList::new(alloc);
    add_tops(&mut limits, problem, q)?;
    add_links(&mut limits, problem, q)?;
    add_totals(&mut limits, problem, q)?;
    Ok(limits)
}

fn add_tops(limits: &mut LimitList, problem: &Problem, q: u32) -> Result<(), Memory>
    requires { q ≤ 8 }
    ensures { OnOk result (limits.new ≡ limits.old ++ program.top_limits problem.now q) }
{
    for step in 0..q {
        add_tops_in(limits, problem, step)?;
    }
    Ok(())
}

fn add_links(limits: &mut LimitList, problem: &Problem, q: u32) -> Result<(), Memory>
    ensures { OnOk result (limits.new ≡ limits.old ++ program.link_limits problem.now q) }
{
    for step in 0..q {
        add_links_in(limits, problem, step)?;
    }
    Ok(())
}

fn add_totals(limits: &mut LimitList, problem: &Problem, q: u32) -> Result<(), Memory>
    requires least { 2 ≤ q }
    ensures { OnOk result (limits.new ≡ limits.old ++ program.total_limits problem.now q) }
{
    for block in 0..q - 1 {
        add_totals_at(limits, problem, block + 1)?;
    }
    Ok(())
}

fn add_tops_in(limits: &mut LimitList, problem: &Problem, step: u32) -> Result<(), Memory>
    requires { step < 8 }
    ensures { OnOk result
        (limits.new
        ≡ limits.old
        ++ program.joined_below (length problem.now.tunnels) (program.tops_at problem.now step)) }
{
    for tunnel in 0..problem.tunnels().len() as u32 {
        add_tops_of(limits, problem, step, tunnel)?;
    }
    Ok(())
}

fn add_tops_of(
    limits: &mut LimitList,
    problem: &Problem,
    step: u32,
    tunnel: u32,
) -> Result<(), Memory>
    requires step { step < 8 }
    requires tunnel { tunnel < length problem.now.tunnels }
    ensures { OnOk result (limits.new ≡ limits.old ++ program.tops_at problem.now step tunnel) }
{
    if is_used(problem, tunnel) {
        add_top(limits, step, step, tunnel)?;
        add_top(limits, step, step + 1, tunnel)?;
    }
    Ok(())
}

fn add_top(limits: &mut LimitList, step: u32, stage: u32, tunnel: u32) -> Result<(), Memory>
    ensures { OnOk result (limits.new ≡ limits.old ++ limit.Top step stage tunnel ∷ []) }
{
    limits.push(Limit::Top {
        step,
        stage,
        tunnel,
    })
}

fn add_links_in(limits: &mut LimitList, problem: &Problem, step: u32) -> Result<(), Memory>
    ensures { OnOk result
        (limits.new ≡ limits.old ++ list_below (length problem.now.links) (limit.Link step)) }
{
    for link in 0..problem.links().len() as u32 {
        limits.push(Limit::Link { step, link })?;
    }
    Ok(())
}

fn add_totals_at(limits: &mut LimitList, problem: &Problem, stage: u32) -> Result<(), Memory>
    ensures { OnOk result
        (limits.new
        ≡ limits.old ++ program.joined_below (length problem.now.flows) (program.totals_of stage)) }
{
    for flow in 0..problem.flows().len() as u32 {
        add_totals_of(limits, stage, flow)?;
    }
    Ok(())
}

fn add_totals_of(limits: &mut LimitList, stage: u32, flow: u32) -> Result<(), Memory>
    ensures { OnOk result (limits.new ≡ limits.old ++ program.totals_of stage flow) }
{
    limits.push(Limit::Least { stage, flow })?;
    limits.push(Limit::Most { stage, flow })
}
