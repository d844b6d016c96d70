ghost use Rattle.std.specs.Prelude.{◌≡◌, ℕ, ◌<◌, IfOk, IsTrue, length, slice_index};
ghost use Rattle.rollout_rules.specs.Wan as wan;
ghost use Rattle.rollout_rules.specs.Items as rules;
ghost use Rattle.dependency_graph.specs.Index.{AreItems};
ghost use Rattle.rollout_report.specs.Tallies.{AreStageCounts, IsCounted};

use crate::Counts;
use dependency_graph::changes_behind;
use lists::Memory;
use rollout_rules::Item;
use std::alloc::Global;
use std::marker::Model;
use wan_model::{CheckedPlan, item_count};

/// How many operations there are to each stage but the first, and how many of them are settled.
#[derive(Drop)]
pub(crate) struct Stages {
    all: Vec<u64>,
    settled: Vec<u64>,
}

impl Model for Stages {
    ghost use Rattle.rollout_report.specs.Tallies.{StageLists};

    ghost Value = { StageLists };

    ghost view = { λ s. record { all = s.all.items; settled = s.settled.items } };
}

impl Stages {
    /// The counts of all items: one pass over the items, each stage by stage.
    pub(crate) fn over(
        alloc: Global,
        plan: &CheckedPlan,
        items: &[Item],
        counts: &Counts,
    ) -> Result<Stages, Memory>
        requires items { AreItems plan.now.problem (rules.item_count plan.now.problem) items.now }
        requires counts { length counts.now.settled ≡ rules.item_count plan.now.problem }
        ensures { IfOk result
            (λ stages. AreStageCounts plan.now.problem plan.now.plan counts.now.settled
            (rules.item_count plan.now.problem) stages) }
    {
        let last = plan.last_stage();
        let all = vec![in alloc; 0u64; last]?;
        let settled = vec![in alloc; 0u64; last]?;
        let mut stages = Stages { all, settled };
        for number in 0..item_count(plan.problem()) {
            stages.count(plan, items[number as usize], counts.settled(number));
        }
        Ok(stages)
    }

    /// How many stages are counted: all but the first.
    pub(crate) fn len(&self) -> usize
        ensures { result ≡ length self.now.all }
    {
        self.all.len()
    }

    /// How many operations there are to the stage after one.
    pub(crate) fn all(&self, stage: usize) -> u64
        requires { stage < length self.now.all }
        ensures { result ≡ slice_index self.now.all stage }
    {
        self.all[stage]
    }

    /// How many of them are settled.
    pub(crate) fn settled(&self, stage: usize) -> u64
        requires { stage < length self.now.settled }
        ensures { result ≡ slice_index self.now.settled stage }
    {
        self.settled[stage]
    }

    /// Counts the operations of an item, of which the first so many are settled.
    fn count(&mut self, plan: &CheckedPlan, item: Item, settled: u64)
        requires item { IsTrue (rules.is_item plan.now.problem item) }
        requires all_stages { length self.old.all ≡ wan.last_stage plan.now.plan }
        requires settled_stages { length self.old.settled ≡ wan.last_stage plan.now.plan }
        requires all { (s : ℕ) → slice_index self.old.all s < 18446744073709551615 }
        requires settled { (s : ℕ) → slice_index self.old.settled s < 18446744073709551615 }
        ensures { IsCounted plan.now.problem plan.now.plan item settled
            (wan.last_stage plan.now.plan) self.old self.new }
    {
        let mut changes = 0;
        for s in 0..plan.last_stage() {
            let change = changes_behind(plan, item, s);
            self.all[s] += u64::from(change);
            self.settled[s] += u64::from(change && changes < settled);
            changes += u64::from(change);
        }
    }
}
