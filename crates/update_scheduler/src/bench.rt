ghost use Rattle.std.specs.Prelude.{◌≡◌, [], IfOk};
ghost use Rattle.rollout_rules.specs.Items.{item_count};

use crate::candidate::Candidate;
use dependency_graph::Graph;
use lists::Memory;
use rollout_rules::Op;
use std::alloc::Global;
use std::marker::Model;
use wan_model::item_count;

/// Room for a release of a graph with so many items, and what the last release has begun.
#[derive(Drop)]
pub struct Bench {
    pub(crate) items: u32,
    pub(crate) candidates: Vec<Candidate>,
    pub(crate) begun: Vec<Op>,
}

impl Model for Bench {
    ghost use Rattle.std.specs.Prelude.{◌≤◌, vec_capacity};
    ghost use Rattle.update_scheduler.specs.Benches.{Begun};

    ghost Value = { Begun };

    ghost view = { λ b. record { items = b.items; begun = b.begun.items } };

    ghost invariant = { λ b. (b.items ≤ vec_capacity b.candidates)
        × (b.items ≤ vec_capacity b.begun) };
}

impl Bench {
    /// Room for a release of a graph with as many items as this one.
    pub fn new(alloc: Global, graph: &Graph) -> Result<Bench, Memory>
        ensures { IfOk result
            (λ bench. bench ≡ record { items = item_count graph.now.rollout.problem; begun = [] }) }
    {
        let items = item_count(graph.plan().problem());
        Ok(Bench {
            items,
            candidates: Vec::with_capacity(alloc, items as usize)?,
            begun: Vec::with_capacity(alloc, items as usize)?,
        })
    }

    /// How many items the graph of a release may have.
    pub fn items(&self) -> u32
        ensures { result ≡ self.now.items }
    {
        self.items
    }

    /// The operations that the last release has begun, in order.
    pub fn begun(&self) -> &[Op]
        ensures { result.now ≡ self.now.begun }
    {
        self.begun.as_slice()
    }
}
