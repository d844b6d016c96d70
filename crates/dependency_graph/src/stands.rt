ghost use Rattle.std.specs.Prelude.{◌≡◌, ℕ, ◌<◌, ◌≤◌, ◌^◌, length, slice_index, slice_set, IfOk};
ghost use Rattle.rollout_rules.specs.Sums.{least_below};

use crate::stage_counts::StageCounts;
use lists::Memory;
use std::alloc::Global;
use std::marker::Model;

/// The stage at which each item stands, and the least of these.
#[derive(Drop)]
pub(crate) struct Stands {
    counts: StageCounts,
    least: u32,
}

impl Model for Stands {
    ghost use Rattle.dependency_graph.specs.StageCounts.{ItemStages, IsLeast};

    ghost Value = { ItemStages };

    ghost view = { λ s. s.counts };

    ghost invariant = { λ s. IsLeast s.least s.counts };
}

impl Stands {
    /// Items that stand at these stages, of which `last` is the last.
    pub(crate) fn new(alloc: Global, last: u32, stages: Vec<u32>) -> Result<Stands, Memory>
        requires few { length stages.items < 2 ^ 32 }
        requires within { (k : ℕ) → k < length stages.items → slice_index stages.items k ≤ last }
        ensures { IfOk result (λ stands. stands ≡ record { last = last; stages = stages.items }) }
    {
        let counts = StageCounts::new(alloc, last, stages)?;
        let least = counts.least_from(0);
        Ok(Stands { counts, least })
    }

    /// The stage at which an item stands.
    pub(crate) fn stage(&self, item: u32) -> u32
        requires { item < length self.now.stages }
        ensures { result ≡ slice_index self.now.stages item }
    {
        self.counts.stage(item)
    }

    /// The least stage at which an item stands, or the last stage where there is no item.
    pub(crate) fn least(&self) -> u32
        ensures { result
            ≡ least_below (length self.now.stages) self.now.last (slice_index self.now.stages) }
    {
        self.least
    }

    /// Puts an item at a stage. Time: the stages by which the least one rises.
    pub(crate) fn set(&mut self, item: u32, stage: u32)
        requires item { item < length self.old.stages }
        requires stage { stage ≤ self.old.last }
        ensures { self.new ≡ record self.old { stages = slice_set self.old.stages item stage } }
    {
        let low = self.least.min(stage);
        self.counts.set(item, stage);
        self.least = self.counts.least_from(low);
    }
}
