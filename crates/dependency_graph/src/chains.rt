ghost use Rattle.std.specs.Prelude.{◌≡◌, ◌+◌, ◌-◌, ◌<◌, [], ◌∷◌, ◌++◌, length, slice_index, slice_index_or, IfOk, OnOk, IsTrue};
ghost use Rattle.rollout_rules.specs.Wan.{last_stage};
ghost use Rattle.rollout_rules.specs.Items.{is_item};
ghost use Rattle.rollout_rules.specs.Release.{chain};
ghost use Rattle.dependency_graph.specs.Chains.{AreAllChains, AreChainsFrom};

use crate::longest::{Ahead, FlowsAt, TunnelsAt, at, flows_at, tunnels_at};
use lists::{Ids, Many, Memory};
use rollout_rules::Item;
use std::alloc::Global;
use std::marker::Model;
use std::mem::replace;
use std::snapshot::Snapshot;
use wan_model::CheckedPlan;

/// The longest chain of operations from each step of each item on, worked out once: for each stage but
/// the last a row of the flows and one of the tunnels, whose entries all have the same chains. The rows
/// stand from the last of these stages down.
#[derive(Drop)]
pub struct Chains {
    plan: Snapshot<CheckedPlan>,
    flows: Many<Ids>,
    tunnels: Many<Ids>,
}

impl Model for Chains {
    ghost use Rattle.rollout_rules.specs.Wan.{Rollout};
    ghost use Rattle.dependency_graph.specs.Chains.{AreAllChains};

    ghost Value = { Rollout };

    ghost view = { λ c. c.plan.value };

    ghost invariant = { λ c. AreAllChains c.plan.value c.flows c.tunnels };
}

impl Chains {
    /// The chains of a plan. Time: the stages times the tunnels. An Err is lack of memory.
    pub fn new(alloc: Global, plan: &CheckedPlan) -> Result<Chains, Memory>
        ensures { IfOk result (λ chains. chains ≡ plan.now) }
    {
        let rows = all_rows(alloc, plan)?;
        Ok(Chains {
            plan: Snapshot::of(plan),
            flows: rows.flows,
            tunnels: rows.tunnels,
        })
    }

    /// How many operations the longest chain has that begins with the item's operation after a stage.
    pub fn chain(&self, item: Item, stage: u32) -> u32
        requires item { IsTrue (is_item self.now.problem item) }
        requires stage { stage < last_stage self.now.plan }
        ensures { result ≡ chain self.now.problem self.now.plan item stage }
    {
        match item {
            Item::Flow(flow) => read(&self.flows, stage as usize, flow as usize),
            Item::Entry { tunnel, hop: _ } => read(&self.tunnels, stage as usize, tunnel as usize),
        }
    }
}

fn read(rows: &Many<Ids>, stage: usize, number: usize) -> u32
    requires stage { stage < length rows.now }
    requires number { number < length (slice_index_or rows.now (length rows.now - 1 - stage) []) }
    ensures { result
        ≡ slice_index (slice_index_or rows.now (length rows.now - 1 - stage) []) number }
{
    let rows = rows.as_slice();
    let row = &rows[rows.len() - 1 - stage];
    at(row, number)
}

/// The rows so far, and what is ahead of the next stage down.
#[derive(Drop)]
struct Rows {
    flows: Many<Ids>,
    tunnels: Many<Ids>,
    ahead: Ahead,
}

impl Rows {
    /// Puts the rows of a stage after those so far, and what is ahead of that stage in place of what was.
    fn put(&mut self, flows: FlowsAt, tunnels: TunnelsAt) -> Result<(), Memory>
        ensures flows { OnOk result (self.new.flows ≡ self.old.flows ++ (flows.chains ∷ [])) }
        ensures tunnels { OnOk result
            (self.new.tunnels ≡ self.old.tunnels ++ (tunnels.chains ∷ [])) }
        ensures ahead { OnOk result
            (self.new.ahead
            ≡ record {
              flows = flows.own;
              own = tunnels.own;
              departures = tunnels.departures;
              arrivals = tunnels.arrivals;
            }) }
    {
        let ahead = Ahead {
            flows: flows.own,
            own: tunnels.own,
            departures: tunnels.departures,
            arrivals: tunnels.arrivals,
        };
        self.add(flows.chains, tunnels.chains, ahead)
    }

    fn add(&mut self, flows: Ids, tunnels: Ids, ahead: Ahead) -> Result<(), Memory>
        ensures flows { OnOk result (self.new.flows ≡ self.old.flows ++ (flows ∷ [])) }
        ensures tunnels { OnOk result (self.new.tunnels ≡ self.old.tunnels ++ (tunnels ∷ [])) }
        ensures ahead { OnOk result (self.new.ahead ≡ ahead) }
    {
        drop(replace(&mut self.ahead, ahead));
        self.flows.push(flows)?;
        self.tunnels.push(tunnels)
    }
}

fn all_rows(alloc: Global, plan: &CheckedPlan) -> Result<Rows, Memory>
    ensures { IfOk result (λ rows. AreAllChains plan.now rows.flows rows.tunnels) }
{
    let mut rows = Rows {
        flows: Many::new(alloc),
        tunnels: Many::new(alloc),
        ahead: Ahead::of_the_last(alloc, plan)?,
    };
    match add_stages(alloc, &mut rows, plan) {
        Ok(()) => Ok(rows),
        Err(refused) => {
            drop(rows);
            Err(refused)
        }
    }
}

fn add_stages(alloc: Global, rows: &mut Rows, plan: &CheckedPlan) -> Result<(), Memory>
    requires { AreChainsFrom plan.now.problem plan.now.plan 0 rows.old.flows rows.old.tunnels
        rows.old.ahead.flows rows.old.ahead.own rows.old.ahead.departures rows.old.ahead.arrivals }
    ensures { OnOk result (AreAllChains plan.now rows.new.flows rows.new.tunnels) }
{
    for turn in 0..plan.last_stage() {
        add_stage(alloc, rows, plan, turn)?;
    }
    Ok(())
}

/// The rows of the stage at that many turns before the last.
fn add_stage(alloc: Global, rows: &mut Rows, plan: &CheckedPlan, turn: usize) -> Result<(), Memory>
    requires turn { turn < last_stage plan.now.plan }
    requires rows { AreChainsFrom plan.now.problem plan.now.plan turn rows.old.flows
        rows.old.tunnels rows.old.ahead.flows rows.old.ahead.own rows.old.ahead.departures
        rows.old.ahead.arrivals }
    ensures { OnOk result
        (AreChainsFrom plan.now.problem plan.now.plan (turn + 1) rows.new.flows rows.new.tunnels
        rows.new.ahead.flows rows.new.ahead.own rows.new.ahead.departures rows.new.ahead.arrivals) }
{
    let s = plan.last_stage() - 1 - turn;
    let flows = flows_at(alloc, plan, s, &rows.ahead)?;
    match tunnels_at(alloc, plan, s, &rows.ahead, &flows.steps) {
        Ok(tunnels) => rows.put(flows, tunnels),
        Err(refused) => {
            drop(flows);
            Err(refused)
        }
    }
}
