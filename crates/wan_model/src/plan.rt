ghost use Rattle.std.specs.Prelude.{◌≡◌, ◌<◌, ◌++◌, ◌∷◌, [], OnOk, OnErr, length};
ghost use Rattle.rollout_rules.specs.Wan as wan;
ghost use Rattle.rollout_rules.specs.Items as items;

use crate::stage::{Stage, StageList};
use lists::Memory;
use std::alloc::Global;
use std::marker::Model;

/// A plan: its scale, and its stages.
#[derive(Debug, Drop)]
pub struct Plan {
    pub scale: u32,
    pub stages: StageList,
}

impl Model for Plan {
    ghost use Rattle.rollout_rules.specs.Wan as wan;

    ghost Value = { wan.Plan };

    ghost view = { λ p. record { scale = p.scale; stages = p.stages } };

    ghost inverse = { λ p. record { scale = p.scale; stages = p.stages } };
}

impl Plan {
    /// A plan without stages.
    pub fn new(alloc: Global, scale: u32) -> Plan
        ensures { result ≡ record { scale = scale; stages = [] } }
    {
        Plan {
            scale,
            stages: StageList::new(alloc),
        }
    }

    /// Adds a stage at the end. Lack of memory changes nothing.
    pub fn add_stage(&mut self, stage: Stage) -> Result<(), Memory>
        ensures ok { OnOk result
            (self.new ≡ record self.old { stages = self.old.stages ++ stage ∷ [] }) }
        ensures err { OnErr result (self.new ≡ self.old) }
    {
        self.stages.push(stage)
    }

    /// The number of the last stage, or 0 where there is none.
    pub fn last_stage(&self) -> usize
        ensures { result ≡ wan.last_stage self.now }
    {
        self.stages.as_slice().len().saturating_sub(1)
    }

    /// The stage after stage `s`, or the last itself.
    pub fn next_stage(&self, s: usize) -> usize
        requires { s < length self.now.stages }
        ensures value { result ≡ wan.next_stage self.now s }
        ensures inside { result < length self.now.stages }
    {
        let last = self.last_stage();
        if s < last { s + 1 } else { last }
    }

    /// The rate of tunnel `t` at stage `s`, in units of 1/scale.
    pub fn rate(&self, s: usize, t: usize) -> u64
        requires stage { s < length self.now.stages }
        requires tunnel { t < length (wan.stage_at self.now s).rates }
        ensures { result ≡ wan.rate_at self.now s t }
    {
        let stage = &self.stages.as_slice()[s];
        stage.rates.as_slice()[t]
    }

    /// Whether tunnel `t` is installed at stage `s`.
    pub fn mark(&self, s: usize, t: usize) -> bool
        requires stage { s < length self.now.stages }
        requires tunnel { t < length (wan.stage_at self.now s).installed }
        ensures { result ≡ wan.mark_at self.now s t }
    {
        let stage = &self.stages.as_slice()[s];
        stage.installed.as_slice()[t]
    }

    /// The larger rate of tunnel `t` in the step from stage `s` on (SWAN's step rule).
    pub fn greater_rate(&self, s: usize, t: usize) -> u64
        requires stage { s < length self.now.stages }
        requires here { t < length (wan.stage_at self.now s).rates }
        requires behind { t < length (wan.stage_at self.now (wan.next_stage self.now s)).rates }
        ensures { result ≡ items.greater_rate self.now s t }
    {
        self.rate(s, t).max(self.rate(self.next_stage(s), t))
    }

    /// Whether tunnel `t` is installed at either end of that step.
    pub fn either_mark(&self, s: usize, t: usize) -> bool
        requires stage { s < length self.now.stages }
        requires here { t < length (wan.stage_at self.now s).installed }
        requires behind { t < length (wan.stage_at self.now (wan.next_stage self.now s)).installed }
        ensures { result ≡ items.either_mark self.now s t }
    {
        self.mark(s, t) || self.mark(self.next_stage(s), t)
    }
}
