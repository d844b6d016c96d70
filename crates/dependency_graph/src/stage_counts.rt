ghost use Rattle.std.specs.Prelude.{◌≡◌, ℕ, ◌+◌, ◌<◌, ◌≤◌, ◌^◌, IfOk, length, slice_index, slice_set};
ghost use Rattle.rollout_rules.specs.Sums.{least_below};
ghost use Rattle.dependency_graph.specs.StageCounts.{AreStageCounts};
ghost use Rattle.dependency_graph.specs.StageCounts as stood;

use lists::Memory;
use std::alloc::Global;
use std::marker::Model;

/// How many items stand at each stage, with the stage at which each stands.
#[derive(Drop)]
pub(crate) struct StageCounts {
    last: u32,
    stages: Vec<u32>,
    counts: Vec<u32>,
}

impl Model for StageCounts {
    ghost use Rattle.dependency_graph.specs.StageCounts.{ItemStages, AreItemStages};

    ghost Value = { ItemStages };

    ghost view = { λ s. record { last = s.last; stages = s.stages.items } };

    ghost invariant = { λ s. AreItemStages s.last s.stages.items s.counts.items };
}

impl StageCounts {
    /// Items that stand at these stages, of which `last` is the last.
    pub(crate) fn new(alloc: Global, last: u32, stages: Vec<u32>) -> Result<StageCounts, Memory>
        requires few { length stages.items < 2 ^ 32 }
        requires within { (k : ℕ) → k < length stages.items → slice_index stages.items k ≤ last }
        ensures { IfOk result (λ counted. counted ≡ record { last = last; stages = stages.items }) }
    {
        let counts = standings(alloc, last, &stages)?;
        Ok(StageCounts {
            last,
            stages,
            counts,
        })
    }

    /// The stage at which an item stands.
    pub(crate) fn stage(&self, item: u32) -> u32
        requires { item < length self.now.stages }
        ensures { result ≡ slice_index self.now.stages item }
    {
        self.stages[item as usize]
    }

    /// The least stage at which an item stands, or the last stage where there is no item. None stands before
    /// `low`. Time: the stages from there on.
    pub(crate) fn least_from(&self, low: u32) -> u32
        requires low { low ≤ self.now.last }
        requires none { (k : ℕ) → k < length self.now.stages → low ≤ slice_index self.now.stages k }
        ensures { result
            ≡ least_below (length self.now.stages) self.now.last (slice_index self.now.stages) }
    {
        for stage in low..self.last() {
            if self.count(stage) > 0 {
                return stage;
            }
        }
        self.last()
    }

    fn last(&self) -> u32
        ensures last { result ≡ self.now.last }
        ensures within { (k : ℕ)
            → k < length self.now.stages
            → slice_index self.now.stages k ≤ self.now.last }
    {
        self.last
    }

    fn count(&self, stage: u32) -> u32
        requires { stage ≤ self.now.last }
        ensures { result ≡ stood.standing self.now.stages (length self.now.stages) stage }
    {
        self.counts[stage as usize]
    }

    /// Puts an item at a stage.
    pub(crate) fn set(&mut self, item: u32, stage: u32)
        requires item { item < length self.old.stages }
        requires stage { stage ≤ self.old.last }
        ensures { self.new ≡ record self.old { stages = slice_set self.old.stages item stage } }
    {
        let was = self.stages[item as usize];
        self.counts[was as usize] -= 1;
        self.counts[stage as usize] += 1;
        self.stages[item as usize] = stage;
    }
}

/// How many items stand at each stage.
fn standings(alloc: Global, last: u32, stages: &[u32]) -> Result<Vec<u32>, Memory>
    requires few { length stages.now < 2 ^ 32 }
    requires within { (k : ℕ) → k < length stages.now → slice_index stages.now k ≤ last }
    ensures { IfOk result
        (λ counts. AreStageCounts last stages.now (length stages.now) counts.items) }
{
    let mut counts = vec![in alloc; 0u32; last as usize + 1]?;
    for item in 0..stages.len() {
        let stage = stages[item] as usize;
        counts[stage] += 1;
    }
    Ok(counts)
}

pub(crate) fn copied(alloc: Global, numbers: &[u32]) -> Result<Vec<u32>, Memory>
    ensures { IfOk result (λ copy. copy.items ≡ numbers.now) }
{
    let mut copy = Vec::new(alloc);
    copy.extend_from_slice(numbers)?;
    Ok(copy)
}
