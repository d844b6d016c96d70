ghost use Rattle.std.specs.Prelude.{◌≡◌, ◌<◌, IfOk, IsTrue, OnErr, OnOk, length, option_map};
ghost use Rattle.rollout_rules.specs.Items.{item_count};
ghost use Rattle.rollout_rules.specs.Legal.{is_sound};
ghost use Rattle.rollout_rules.specs.World.{are_first_pairs, held_of};
ghost use Rattle.takeover_rules.specs.Takeovers.{after_two_event, first_takeover};
ghost use Rattle.takeover_rules.specs.declared.event.TwoEvent.TheVariants as two;

use crate::fences::with_fence;
use crate::sharing::{share_with_newer, share_with_older};
use crate::starting::newer_world;
use crate::steps::{step_newer, step_older};
use dependency_graph::checked_plan_is_valid;
use lists::Memory;
use rollout_core::{Event, World};
use rollout_rules::Held;
use std::alloc::Global;
use std::marker::Model;
use takeover_rules::TwoEvent;
use wan_model::CheckedPlan;

/// The two worlds of a takeover, and which switches are fenced off from the older controller.
#[derive(Drop)]
pub struct TwoWorlds<'p> {
    plan: &'p CheckedPlan,
    fenced: Vec<bool>,
    older: World<'p>,
    newer: Option<World<'p>>,
    alloc: Global,
}

impl<'p> Model for TwoWorlds<'p> {
    ghost use Rattle.takeover_core.specs.Standings.{IsTaking, Taking, taking_of};

    ghost Value = { Taking };

    ghost view = { λ t. taking_of t.plan.now t.fenced.items t.older t.newer };

    ghost invariant = { λ t. IsTaking t.plan.now t.fenced.items t.older t.newer };
}

impl<'p> TwoWorlds<'p> {
    /// The takeover at first: no switch is fenced, and the older controller begins at a start, in a
    /// migration, with the pair that each item's switch holds.
    #[tactic(auto, using(crate::proofs::Beginnings::first_taking, crate::proofs::Beginnings::first_taking_is))]
    pub fn new(
        alloc: Global,
        plan: &'p CheckedPlan,
        start: &[u32],
        migration: u32,
        first: &[Held],
    ) -> Result<TwoWorlds<'p>, Memory>
        requires numbers { length start.now ≡ item_count plan.now.problem }
        requires pairs { length first.now ≡ item_count plan.now.problem }
        requires sound { IsTrue (is_sound plan.now.problem plan.now.plan start.now) }
        requires first { IsTrue (are_first_pairs plan.now.problem start.now migration first.now) }
        ensures { IfOk result
            (λ worlds. worlds
            ≡ record {
              rollout = plan.now;
              takeover = first_takeover plan.now.problem plan.now.plan
                  start.now migration first.now;
            }) }
    {
        checked_plan_is_valid(plan);
        let fenced = vec![in alloc; false; plan.problem().switches().len()]?;
        let older = World::new(alloc, plan, start, migration, first)?;
        match newer_world(alloc, plan, &fenced, &older) {
            Ok(newer) => Ok(TwoWorlds {
                plan,
                fenced,
                older,
                newer,
                alloc,
            }),
            Err(refused) => {
                drop(older);
                Err(refused)
            }
        }
    }

    /// Makes an event happen, where it is allowed. Lack of memory changes nothing.
    pub fn step(&mut self, event: &TwoEvent) -> Result<(), Memory>
        ensures ok { OnOk result
            (self.new
            ≡ record self.old {
              takeover = after_two_event self.old.rollout.problem self.old.rollout.plan
                  self.old.takeover event.now;
            }) }
        ensures err { OnErr result (self.new ≡ self.old) }
    {
        match event {
            TwoEvent::Old(of_old) => self.go_on(of_old),
            TwoEvent::Fence(switch) => self.fence(*switch),
            TwoEvent::New(of_new) => self.take_on(of_new),
        }
    }

    // An event of the older controller.
    #[tactic(auto, using(crate::proofs::Steppings::taking_old, crate::proofs::Steppings::taken_old))]
    fn go_on(&mut self, event: &Event) -> Result<(), Memory>
        ensures ok { OnOk result
            (self.new
            ≡ record self.old {
              takeover = after_two_event self.old.rollout.problem self.old.rollout.plan
                  self.old.takeover (two.Old event.now);
            }) }
        ensures err { OnErr result (self.new ≡ self.old) }
    {
        step_older(self.alloc, self.plan, &self.fenced, &mut self.older, event)?;
        share_with_newer(&self.older, &mut self.newer);
        Ok(())
    }

    // A fence more. With the last one that is wanted the newer world begins.
    #[tactic(auto, using(crate::proofs::Steppings::taking_fence, crate::proofs::Steppings::taken_fence, crate::proofs::Steppings::newer_stands, crate::proofs::Steppings::newer_none, crate::proofs::Steppings::kept_open))]
    fn fence(&mut self, switch: u32) -> Result<(), Memory>
        ensures ok { OnOk result
            (self.new
            ≡ record self.old {
              takeover = after_two_event self.old.rollout.problem self.old.rollout.plan
                  self.old.takeover (two.Fence switch);
            }) }
        ensures err { OnErr result (self.new ≡ self.old) }
    {
        let fenced = with_fence(self.alloc, &self.fenced, switch)?;
        if self.newer.is_some() {
            self.fenced = fenced;
            return Ok(());
        }
        self.newer = newer_world(self.alloc, self.plan, &fenced, &self.older)?;
        self.fenced = fenced;
        Ok(())
    }

    // An event of the newer controller.
    #[tactic(auto, using(crate::proofs::Steppings::taking_new, crate::proofs::Steppings::taken_new))]
    fn take_on(&mut self, event: &Event) -> Result<(), Memory>
        ensures ok { OnOk result
            (self.new
            ≡ record self.old {
              takeover = after_two_event self.old.rollout.problem self.old.rollout.plan
                  self.old.takeover (two.New event.now);
            }) }
        ensures err { OnErr result (self.new ≡ self.old) }
    {
        step_newer(self.alloc, &mut self.newer, event)?;
        share_with_older(&self.newer, &mut self.older);
        Ok(())
    }

    /// The older controller's world.
    pub fn old(&self) -> &World<'p>
        ensures world { result.now.world ≡ self.now.takeover.older }
        ensures rollout { result.now.rollout ≡ self.now.rollout }
    {
        &self.older
    }

    /// The newer controller's world; none while the switch of an item with an operation isn't fenced.
    pub fn new_world(&self) -> Option<&World<'p>>
        ensures { option_map (λ newer. newer.now.world) result ≡ self.now.takeover.newer }
    {
        self.newer.as_ref()
    }

    /// The pair that the item's switch holds, in both worlds.
    pub fn held(&self, item: u32) -> Held
        requires { item < item_count self.now.rollout.problem }
        ensures { result ≡ (held_of self.now.takeover.older item).held }
    {
        self.older.held(item)
    }
}
