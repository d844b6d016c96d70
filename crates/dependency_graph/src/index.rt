ghost use Rattle.std.specs.Prelude.{◌≡◌, ◌<◌, length, IfOk};
ghost use Rattle.rollout_rules.specs.Network.{IsNetwork};
ghost use Rattle.rollout_rules.specs.Items.{item_count, item_at, number_of};
ghost use Rattle.rollout_rules.specs.Operations as operation;
ghost use Rattle.rollout_rules.specs.declared.item.Item.TheVariants as variants;
ghost use Rattle.dependency_graph.specs.Index.{IsCrossing, IsTable};

mod links;
mod many_rows;
mod numbers;
mod table_place;
mod tables;

use crate::index::links::crossings;
pub use crate::index::numbers::items;
use crate::index::numbers::{first_entries, operations_of_all};
pub(crate) use crate::index::table_place::TablePlace;
use crate::index::tables::{TablePlaces, tables};
use lists::{Ids, Many, Memory};
use rollout_rules::Item;
use std::alloc::Global;
use std::marker::Model;
use std::snapshot::Snapshot;
use wan_model::CheckedPlan;

/// What is looked up of one rollout by number: the items with their operations, the tunnels across each
/// link, the entries in each table.
#[derive(Drop)]
pub struct Index {
    plan: Snapshot<CheckedPlan>,
    items: Many<Item>,
    operations: Ids,
    first_entries: Ids,
    crossings: Vec<Ids>,
    tables: Vec<TablePlaces>,
}

impl Model for Index {
    ghost use Rattle.rollout_rules.specs.Wan.{Rollout};
    ghost use Rattle.dependency_graph.specs.Index.{IsIndex};

    ghost Value = { Rollout };

    ghost view = { λ c. c.plan.value };

    ghost invariant = { λ c. IsIndex c.plan.value c.items c.operations c.first_entries
        c.crossings.items c.tables.items };
}

impl Index {
    pub fn new(alloc: Global, plan: &CheckedPlan) -> Result<Index, Memory>
        ensures rollout { IfOk result (λ index. index ≡ plan.now) }
        ensures network { IfOk result (λ index. IsNetwork plan.now.problem) }
    {
        let items = items(alloc, plan)?;
        let operations = operations_of_all(alloc, plan, items.as_slice())?;
        let first_entries = first_entries(alloc, plan)?;
        let crossings = crossings(alloc, plan)?;
        let tables = tables(alloc, plan, first_entries.as_slice())?;
        Ok(Index {
            plan: Snapshot::of(plan),
            items,
            operations,
            first_entries,
            crossings,
            tables,
        })
    }

    /// How many items there are.
    pub fn item_count(&self) -> u32
        ensures { result ≡ item_count self.now.problem }
    {
        self.items.as_slice().len() as u32
    }

    /// The item with a number.
    pub fn item(&self, number: u32) -> Item
        requires { number < item_count self.now.problem }
        ensures { result ≡ item_at self.now.problem number }
    {
        self.items.as_slice()[number as usize]
    }

    /// How many operations the item with a number has.
    pub fn operations(&self, number: u32) -> u32
        requires { number < item_count self.now.problem }
        ensures { result
            ≡ operation.operations self.now.problem self.now.plan
            (item_at self.now.problem number) }
    {
        self.operations.as_slice()[number as usize]
    }

    /// The item number of a tunnel's first entry.
    pub fn first_entry(&self, tunnel: usize) -> u32
        requires { tunnel < length self.now.problem.tunnels }
        ensures { result ≡ number_of self.now.problem (variants.Entry tunnel 0) }
    {
        self.first_entries.as_slice()[tunnel]
    }

    /// The tunnels that cross a link.
    pub(crate) fn crossing(&self, link: usize) -> &[u32]
        requires { link < length self.now.problem.links }
        ensures { IsCrossing self.now.problem link (length self.now.problem.tunnels) result.now }
    {
        let row = &self.crossings[link];
        row.as_slice()
    }

    /// The entries in the table of a switch, of all tunnels, installed or not.
    pub(crate) fn table(&self, switch: usize) -> &[TablePlace]
        requires { switch < length self.now.problem.switches }
        ensures { IsTable self.now.problem switch (length self.now.problem.tunnels) 0 result.now }
    {
        let row = &self.tables.as_slice()[switch];
        row.as_slice()
    }
}
