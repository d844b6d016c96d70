ghost use Rattle.std.specs.Prelude.{◌≡◌, ℕ, ◌+◌, ◌*◌, ◌<◌, ◌≤◌, ◌^◌, length, slice_set, IfOk};
ghost use Rattle.rollout_rules.specs.Wan.{last_stage};
ghost use Rattle.dependency_graph.specs.Cells as rooms;
ghost use Rattle.dependency_graph.specs.Cells.{cell, only, AreRaised};

use lists::Memory;
use std::alloc::Global;
use std::marker::Model;
use wan_model::CheckedPlan;

/// How much is taken of each resource at each stage but the last: a row of stages for each link, and then
/// for each switch's table.
#[derive(Drop)]
pub(crate) struct Cells {
    stages: usize,
    cells: Vec<u64>,
}

impl Model for Cells {
    ghost use Rattle.dependency_graph.specs.Cells as rooms;

    ghost Value = { rooms.Cells };

    ghost view = { λ c. record { stages = c.stages; cells = c.cells.items } };
}

impl Cells {
    /// A cell for each resource at each stage, of no meaning yet.
    pub(crate) fn new(alloc: Global, plan: &CheckedPlan) -> Result<Cells, Memory>
        ensures stages { IfOk result (λ t. t.stages ≡ last_stage plan.now.plan) }
        ensures all { IfOk result
            (λ t. length t.cells
            ≡ rooms.resource_count plan.now.problem * last_stage plan.now.plan) }
    {
        let stages = plan.last_stage();
        let resources = plan.problem().links().len() + plan.problem().switches().len();
        Ok(Cells {
            stages,
            cells: vec![in alloc; 0u64; resources * stages]?,
        })
    }

    pub(crate) fn cell(&self, resource: usize, stage: usize) -> u64
        requires { resource * self.now.stages + stage < length self.now.cells }
        ensures { result ≡ cell self.now resource stage }
    {
        self.cells[resource * self.stages + stage]
    }

    pub(crate) fn set(&mut self, resource: usize, stage: usize, amount: u64)
        requires { resource * self.old.stages + stage < length self.old.cells }
        ensures { self.new
            ≡ record self.old
            { cells = slice_set self.old.cells (resource * self.old.stages + stage) amount } }
    {
        self.cells[resource * self.stages + stage] = amount;
    }

    /// Adds an amount to a resource's cells at the stages from `low` on and before `high`.
    pub(crate) fn raise(&mut self, resource: usize, low: usize, high: usize, amount: u64)
        requires order { low ≤ high }
        requires stages { high ≤ self.old.stages }
        requires inside { (s : ℕ)
            → low ≤ s
            → s < high
            → resource * self.old.stages + s < length self.old.cells }
        requires fits { (s : ℕ) → low ≤ s → s < high → cell self.old resource s + amount < 2 ^ 64 }
        ensures { AreRaised low high (only resource amount) self.old self.new }
    {
        for stage in low..high {
            self.raise_one(resource, stage, amount);
        }
    }

    fn raise_one(&mut self, resource: usize, stage: usize, amount: u64)
        requires stage { stage < self.old.stages }
        requires inside { resource * self.old.stages + stage < length self.old.cells }
        requires fits { cell self.old resource stage + amount < 2 ^ 64 }
        ensures { AreRaised stage (stage + 1) (only resource amount) self.old self.new }
    {
        let more = self.cell(resource, stage) + amount;
        self.set(resource, stage, more);
    }

    /// Takes an amount from them.
    pub(crate) fn lower(&mut self, resource: usize, low: usize, high: usize, amount: u64)
        requires order { low ≤ high }
        requires stages { high ≤ self.old.stages }
        requires inside { (s : ℕ)
            → low ≤ s
            → s < high
            → resource * self.old.stages + s < length self.old.cells }
        requires enough { (s : ℕ) → low ≤ s → s < high → amount ≤ cell self.old resource s }
        ensures { AreRaised low high (only resource amount) self.new self.old }
    {
        for stage in low..high {
            self.lower_one(resource, stage, amount);
        }
    }

    fn lower_one(&mut self, resource: usize, stage: usize, amount: u64)
        requires stage { stage < self.old.stages }
        requires inside { resource * self.old.stages + stage < length self.old.cells }
        requires enough { amount ≤ cell self.old resource stage }
        ensures { AreRaised stage (stage + 1) (only resource amount) self.new self.old }
    {
        let less = self.cell(resource, stage) - amount;
        self.set(resource, stage, less);
    }
}
