ghost use Rattle.std.specs.Prelude.{◌≡◌, ℕ, ◌+◌, ◌<◌, ◌≤◌, ◌∷◌, ◌++◌, [], length, slice_index, if◌then◌else◌, ◌==◌, not, IfOk, OnOk, IsTrue};
ghost use Rattle.rollout_rules.specs.Sums.{list_below};
ghost use Rattle.rollout_rules.specs.Wan as wan;
ghost use Rattle.rollout_rules.specs.Wan.{last_stage};
ghost use Rattle.rollout_rules.specs.Items.{is_item};
ghost use Rattle.rollout_rules.specs.Operations as operation;
ghost use Rattle.rollout_rules.specs.Release as release;
ghost use Rattle.rollout_rules.specs.declared.item.Item.TheVariants as variants;
ghost use Rattle.dependency_graph.specs.Chains.{longest_own, longest_departure, longest_arrival, AreFlowsAt, AreTunnelsAt, AreAhead};

use crate::changes::changes_behind;
use crate::checked::checked_plan_is_valid;
use lists::{Ids, Memory};
use rollout_rules::Item;
use std::alloc::Global;
use wan_model::CheckedPlan;

/// How many operations the longest chains have that begin at a stage or after it: by flow those of its own
/// steps; by tunnel those of its entries' steps, of their removals while it has carried nothing, and of its
/// flow's steps onto it while it has been installed.
#[derive(Drop)]
pub(crate) struct Ahead {
    pub(crate) flows: Ids,
    pub(crate) own: Ids,
    pub(crate) departures: Ids,
    pub(crate) arrivals: Ids,
}

impl Ahead {
    /// What is ahead of the last stage: nothing.
    pub(crate) fn of_the_last(alloc: Global, plan: &CheckedPlan) -> Result<Ahead, Memory>
        ensures { IfOk result
            (λ ahead. AreAhead plan.now.problem plan.now.plan (last_stage plan.now.plan) ahead.flows
            ahead.own ahead.departures ahead.arrivals) }
    {
        let tunnels = plan.problem().tunnels().len();
        Ok(Ahead {
            flows: nothing(alloc, plan.problem().flows().len())?,
            own: nothing(alloc, tunnels)?,
            departures: nothing(alloc, tunnels)?,
            arrivals: nothing(alloc, tunnels)?,
        })
    }
}

fn nothing(alloc: Global, count: usize) -> Result<Ids, Memory>
    ensures { IfOk result (λ row. row ≡ list_below count (λ k. 0)) }
{
    let mut row = Ids::new(alloc);
    for _k in 0..count {
        row.push(0)?;
    }
    Ok(row)
}

/// By flow, at one stage: the chain from its step there on, the longest of its own from there on, and the
/// chain from there on where it changes there, or 0.
#[derive(Drop)]
pub(crate) struct FlowsAt {
    pub(crate) chains: Ids,
    pub(crate) own: Ids,
    pub(crate) steps: Ids,
}

/// The flows at stage `s`, from what is ahead of it.
pub(crate) fn flows_at(
    alloc: Global,
    plan: &CheckedPlan,
    s: usize,
    ahead: &Ahead,
) -> Result<FlowsAt, Memory>
    requires stage { s < last_stage plan.now.plan }
    requires ahead { AreAhead plan.now.problem plan.now.plan (s + 1) ahead.now.flows ahead.now.own
        ahead.now.departures ahead.now.arrivals }
    ensures { IfOk result
        (λ rows. AreFlowsAt plan.now.problem plan.now.plan s (length plan.now.problem.flows)
        rows.chains rows.own rows.steps) }
{
    let mut rows = FlowsAt {
        chains: Ids::new(alloc),
        own: Ids::new(alloc),
        steps: Ids::new(alloc),
    };
    for f in 0..plan.problem().flows().len() {
        add_flow(&mut rows, plan, s, f, ahead)?;
    }
    Ok(rows)
}

fn add_flow(
    rows: &mut FlowsAt,
    plan: &CheckedPlan,
    s: usize,
    f: usize,
    ahead: &Ahead,
) -> Result<(), Memory>
    requires stage { s < last_stage plan.now.plan }
    requires flow { f < length plan.now.problem.flows }
    requires ahead { AreAhead plan.now.problem plan.now.plan (s + 1) ahead.now.flows ahead.now.own
        ahead.now.departures ahead.now.arrivals }
    requires rows { AreFlowsAt plan.now.problem plan.now.plan s f rows.old.chains rows.old.own
        rows.old.steps }
    ensures { OnOk result
        (AreFlowsAt plan.now.problem plan.now.plan s (f + 1) rows.new.chains rows.new.own
        rows.new.steps) }
{
    checked_plan_is_valid(plan);
    let own = at(&ahead.flows, f);
    let chain = flow_chain(plan, s, f, own, &ahead.departures);
    let step = only_if(changes_behind(plan, Item::Flow(f as u32), s), chain);
    rows.chains.push(chain)?;
    rows.own.push(step.max(own))?;
    rows.steps.push(step)?;
    Ok(())
}

pub(crate) fn at(row: &Ids, k: usize) -> u32
    requires { k < length row.now }
    ensures { result ≡ slice_index row.now k }
{
    row.as_slice()[k]
}

fn only_if(test: bool, number: u32) -> u32
    ensures { result ≡ (if test then number else 0) }
{
    if test { number } else { 0 }
}

/// The length of the longest chain from the flow's step at stage `s` on.
fn flow_chain(plan: &CheckedPlan, s: usize, f: usize, own: u32, departures: &Ids) -> u32
    requires stage { s < last_stage plan.now.plan }
    requires flow { f < length plan.now.problem.flows }
    requires own { own ≡ longest_own plan.now.problem plan.now.plan (variants.Flow f) (s + 1) }
    requires departures { departures.now
        ≡ list_below (length plan.now.problem.tunnels)
        (λ t. longest_departure plan.now.problem plan.now.plan t (s + 1)) }
    ensures { result ≡ release.chain plan.now.problem plan.now.plan (variants.Flow f) s }
{
    checked_plan_is_valid(plan);
    let mut most = own;
    for j in 0..plan.tunnel_count(f) {
        most = most.max(departure(plan, s, plan.tunnel_of(f, j), departures));
    }
    most + 1
}

/// The longest chain of a removal that needs that the flow has left tunnel `t` in that step.
fn departure(plan: &CheckedPlan, s: usize, t: usize, departures: &Ids) -> u32
    requires stage { s < last_stage plan.now.plan }
    requires tunnel { t < length plan.now.problem.tunnels }
    requires departures { departures.now
        ≡ list_below (length plan.now.problem.tunnels)
        (λ u. longest_departure plan.now.problem plan.now.plan u (s + 1)) }
    ensures { result
        ≡ (if not (wan.rate_at plan.now.plan s t == 0) then longest_departure plan.now.problem
        plan.now.plan t (s + 1) else 0) }
{
    only_if(plan.rate(s, t) != 0, at(departures, t))
}

/// By tunnel, at one stage: the chain from its entries' step there on, and what is ahead from there on.
#[derive(Drop)]
pub(crate) struct TunnelsAt {
    pub(crate) chains: Ids,
    pub(crate) own: Ids,
    pub(crate) departures: Ids,
    pub(crate) arrivals: Ids,
}

/// The tunnels at stage `s`, from what is ahead of it and the steps of the flows there.
pub(crate) fn tunnels_at(
    alloc: Global,
    plan: &CheckedPlan,
    s: usize,
    ahead: &Ahead,
    steps: &Ids,
) -> Result<TunnelsAt, Memory>
    requires stage { s < last_stage plan.now.plan }
    requires ahead { AreAhead plan.now.problem plan.now.plan (s + 1) ahead.now.flows ahead.now.own
        ahead.now.departures ahead.now.arrivals }
    requires steps { steps.now
        ≡ list_below (length plan.now.problem.flows)
        (λ f. if operation.changes_behind plan.now.problem plan.now.plan (variants.Flow f) s then
        release.chain plan.now.problem plan.now.plan (variants.Flow f) s else 0) }
    ensures { IfOk result
        (λ rows. AreTunnelsAt plan.now.problem plan.now.plan s (length plan.now.problem.tunnels)
        rows.chains rows.own rows.departures rows.arrivals) }
{
    let mut rows = TunnelsAt {
        chains: Ids::new(alloc),
        own: Ids::new(alloc),
        departures: Ids::new(alloc),
        arrivals: Ids::new(alloc),
    };
    for t in 0..plan.problem().tunnels().len() {
        add_tunnel(&mut rows, plan, s, t, ahead, steps)?;
    }
    Ok(rows)
}

fn add_tunnel(
    rows: &mut TunnelsAt,
    plan: &CheckedPlan,
    s: usize,
    t: usize,
    ahead: &Ahead,
    steps: &Ids,
) -> Result<(), Memory>
    requires stage { s < last_stage plan.now.plan }
    requires tunnel { t < length plan.now.problem.tunnels }
    requires ahead { AreAhead plan.now.problem plan.now.plan (s + 1) ahead.now.flows ahead.now.own
        ahead.now.departures ahead.now.arrivals }
    requires steps { steps.now
        ≡ list_below (length plan.now.problem.flows)
        (λ f. if operation.changes_behind plan.now.problem plan.now.plan (variants.Flow f) s then
        release.chain plan.now.problem plan.now.plan (variants.Flow f) s else 0) }
    requires rows { AreTunnelsAt plan.now.problem plan.now.plan s t rows.old.chains rows.old.own
        rows.old.departures rows.old.arrivals }
    ensures { OnOk result
        (AreTunnelsAt plan.now.problem plan.now.plan s (t + 1) rows.new.chains rows.new.own
        rows.new.departures rows.new.arrivals) }
{
    let own = at(&ahead.own, t);
    let arrived = at(&ahead.arrivals, t);
    let chain = entry_chain(plan, s, t, own, arrived);
    let step = entry_step(plan, s, t, chain);
    let entered = at(steps, plan.flow_of(t));
    let departed = at(&ahead.departures, t);
    let departure = departure_from(plan, s, t, step, departed);
    let arrival = arrival_from(plan, s, t, entered, arrived);
    rows.chains.push(chain)?;
    rows.own.push(step.max(own))?;
    rows.departures.push(departure)?;
    rows.arrivals.push(arrival)?;
    Ok(())
}

/// The length of the longest chain from a step of the tunnel's entries at stage `s` on.
fn entry_chain(plan: &CheckedPlan, s: usize, t: usize, own: u32, arrived: u32) -> u32
    requires stage { s < last_stage plan.now.plan }
    requires tunnel { t < length plan.now.problem.tunnels }
    requires own { own ≡ longest_own plan.now.problem plan.now.plan (variants.Entry t 0) (s + 1) }
    requires arrived { arrived ≡ longest_arrival plan.now.problem plan.now.plan t (s + 1) }
    ensures { result ≡ release.chain plan.now.problem plan.now.plan (variants.Entry t 0) s }
{
    checked_plan_is_valid(plan);
    own.max(only_if(!plan.mark(s, t), arrived)) + 1
}

/// That chain where the entries change there, or 0.
fn entry_step(plan: &CheckedPlan, s: usize, t: usize, chain: u32) -> u32
    requires stage { s < last_stage plan.now.plan }
    requires tunnel { t < length plan.now.problem.tunnels }
    ensures { result
        ≡ (if operation.changes_behind plan.now.problem plan.now.plan (variants.Entry t 0) s then
        chain else 0) }
{
    checked_plan_is_valid(plan);
    let item = Item::Entry {
        tunnel: t as u32,
        hop: 0,
    };
    only_if(changes_behind(plan, item, s), chain)
}

/// The longest chain of a removal from stage `s` on, while the tunnel has carried nothing.
fn departure_from(plan: &CheckedPlan, s: usize, t: usize, step: u32, behind: u32) -> u32
    requires stage { s < last_stage plan.now.plan }
    requires tunnel { t < length plan.now.problem.tunnels }
    requires step { step
        ≡ (if operation.changes_behind plan.now.problem plan.now.plan (variants.Entry t 0) s then
        release.chain plan.now.problem plan.now.plan (variants.Entry t 0) s else 0) }
    requires behind { behind ≡ longest_departure plan.now.problem plan.now.plan t (s + 1) }
    ensures { result ≡ longest_departure plan.now.problem plan.now.plan t s }
{
    let next = plan.next_stage(s);
    let here = only_if(!plan.mark(next, t), step);
    here.max(only_if(plan.rate(s, t) == 0, behind))
}

/// The longest chain of a step of the flow onto the tunnel from stage `s` on, while it has been installed.
fn arrival_from(plan: &CheckedPlan, s: usize, t: usize, step: u32, behind: u32) -> u32
    requires stage { s < last_stage plan.now.plan }
    requires tunnel { t < length plan.now.problem.tunnels }
    requires step { step
        ≡ (if operation.changes_behind plan.now.problem plan.now.plan
        (variants.Flow (wan.tunnel_at plan.now.problem t).flow) s then release.chain
        plan.now.problem plan.now.plan (variants.Flow (wan.tunnel_at plan.now.problem t).flow) s
        else 0) }
    requires behind { behind ≡ longest_arrival plan.now.problem plan.now.plan t (s + 1) }
    ensures { result ≡ longest_arrival plan.now.problem plan.now.plan t s }
{
    let next = plan.next_stage(s);
    let here = only_if(plan.rate(next, t) > 0, step);
    here.max(only_if(plan.mark(s, t), behind))
}
