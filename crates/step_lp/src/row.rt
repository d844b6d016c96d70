ghost use Rattle.std.specs.Prelude.{◌≡◌, ◌<◌, ◌≤◌, ◌^◌, ◌++◌, pos, nat_abs, length, map, All, IfOk, OnOk};
ghost use Rattle.rollout_rules.specs.Wan as wan;
ghost use Rattle.step_lp.specs.Program as program;

use crate::limit::Limit;
use fraction_lp::{Fraction, FractionList};
use lists::Memory;
use std::alloc::Global;
use wan_model::Problem;

/// The coefficients of a limit's row: a block for each rate stage between and then for each step, with
/// a number for each used tunnel.
pub(crate) fn coefficients(
    alloc: Global,
    problem: &Problem,
    q: u32,
    used: &[u32],
    limit: Limit,
) -> Result<FractionList, Memory>
    requires least { 2 ≤ q }
    requires most { q ≤ 8 }
    requires used { used.now ≡ program.used_tunnels problem.now }
    requires limit { program.IsLimit problem.now q limit }
    ensures row { IfOk result
        (λ row. row
        ≡ program.joined_below (program.blocks q) (program.coefficients_in problem.now q limit)) }
    ensures count { IfOk result (λ row. length row ≡ program.unknowns problem.now q) }
{
    let mut row = FractionList::new(alloc);
    for block in 0..2 * q - 1 {
        add_block(&mut row, problem, q, used, limit, block)?;
    }
    Ok(row)
}

fn add_block(
    row: &mut FractionList,
    problem: &Problem,
    q: u32,
    used: &[u32],
    limit: Limit,
    block: u32,
) -> Result<(), Memory>
    requires least { 2 ≤ q }
    requires most { q ≤ 8 }
    requires used { All (λ t. t < length problem.now.tunnels) used.now }
    requires limit { program.IsLimit problem.now q limit }
    ensures { OnOk result
        (row.new ≡ row.old ++ map (program.coefficient problem.now q limit block) used.now) }
{
    for tunnel in used {
        row.push(coefficient(problem, q, limit, block, *tunnel))?;
    }
    Ok(())
}

/// 1 where the unknown of a tunnel in a block is added, -1 where it is taken away, else 0.
fn coefficient(problem: &Problem, q: u32, limit: Limit, block: u32, tunnel: u32) -> Fraction
    requires least { 2 ≤ q }
    requires most { q ≤ 8 }
    requires limit { program.IsLimit problem.now q limit }
    requires tunnel { tunnel < length problem.now.tunnels }
    ensures { result ≡ program.coefficient problem.now q limit block tunnel }
{
    if is_added(problem, q, limit, block, tunnel) {
        return whole(1);
    }
    if is_taken(problem, q, limit, block, tunnel) {
        return whole(-1);
    }
    whole(0)
}

fn is_added(problem: &Problem, q: u32, limit: Limit, block: u32, tunnel: u32) -> bool
    requires least { 2 ≤ q }
    requires most { q ≤ 8 }
    requires limit { program.IsLimit problem.now q limit }
    requires tunnel { tunnel < length problem.now.tunnels }
    ensures { result ≡ program.is_added problem.now q limit block tunnel }
{
    match limit {
        Limit::Top {
            stage,
            tunnel: own,
            ..
        } => is_block_of(q, stage, block) && tunnel == own,
        Limit::Link { step, link } => block == q - 1 + step && crosses(problem, tunnel, link),
        Limit::Least { .. } => false,
        Limit::Most { stage, flow } => {
            is_block_of(q, stage, block) && belongs(problem, tunnel, flow)
        }
    }
}

fn is_taken(problem: &Problem, q: u32, limit: Limit, block: u32, tunnel: u32) -> bool
    requires least { 2 ≤ q }
    requires most { q ≤ 8 }
    requires limit { program.IsLimit problem.now q limit }
    requires tunnel { tunnel < length problem.now.tunnels }
    ensures { result ≡ program.is_taken problem.now q limit block tunnel }
{
    match limit {
        Limit::Top {
            step,
            tunnel: own,
            ..
        } => block == q - 1 + step && tunnel == own,
        Limit::Least { stage, flow } => {
            is_block_of(q, stage, block) && belongs(problem, tunnel, flow)
        }
        Limit::Link { .. } | Limit::Most { .. } => false,
    }
}

/// Whether a block has the rates at a stage, where these are unknown.
fn is_block_of(q: u32, stage: u32, block: u32) -> bool
    requires { 2 ≤ q }
    ensures { result ≡ program.is_block_of q stage block }
{
    block < q - 1 && block + 1 == stage
}

fn belongs(problem: &Problem, tunnel: u32, flow: u32) -> bool
    requires { tunnel < length problem.now.tunnels }
    ensures { result ≡ program.belongs problem.now tunnel flow }
{
    problem.flow_of(tunnel as usize) == flow as usize
}

fn crosses(problem: &Problem, tunnel: u32, link: u32) -> bool
    requires { tunnel < length problem.now.tunnels }
    ensures { result ≡ wan.crosses problem.now tunnel link }
{
    problem.links_of(tunnel as usize).contains(&link)
}

/// What a limit's row may be at most: all that is known of it.
pub(crate) fn bound(problem: &Problem, q: u32, limit: Limit) -> Fraction
    requires { program.IsLimit problem.now q limit }
    ensures { result ≡ program.whole (program.bound_of problem.now q limit) }
{
    match limit {
        Limit::Top { stage, tunnel, .. } => {
            whole(-i128::from(known_rate(problem, q, stage, tunnel as usize)))
        }
        Limit::Link { link, .. } => whole(i128::from(problem.capacity(link as usize))),
        Limit::Least { flow, .. } => {
            let flow = flow as usize;
            whole(-(problem.old_total(flow).min(problem.new_total(flow)) as i128))
        }
        Limit::Most { flow, .. } => {
            let flow = flow as usize;
            whole(problem.old_total(flow).max(problem.new_total(flow)) as i128)
        }
    }
}

/// A tunnel's rate at a stage where it is known, and 0 at a stage between.
fn known_rate(problem: &Problem, q: u32, stage: u32, tunnel: usize) -> u64
    requires { tunnel < length problem.now.tunnels }
    ensures { result ≡ program.known_rate problem.now q stage tunnel }
{
    if stage == 0 {
        return problem.old_rate(tunnel);
    }
    if stage == q {
        return problem.new_rate(tunnel);
    }
    0
}

fn whole(number: i128) -> Fraction
    requires { nat_abs number < 2 ^ 127 }
    ensures { result ≡ program.whole number }
{
    match Fraction::new(number, 1) {
        Some(fraction) => fraction,
        None => unreachable!(),
    }
}
