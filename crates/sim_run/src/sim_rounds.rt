ghost use Rattle.std.specs.Prelude.{◌≡◌, ◌<◌, false, length, All, IfOk, IsTrue, OnErr, OnOk};
ghost use Rattle.rollout_rules.specs.History.{from_nothing};
ghost use Rattle.rollout_rules.specs.Items.{item_count};
ghost use Rattle.rollout_rules.specs.Legal.{is_legal};
ghost use Rattle.rollout_rules.specs.World.{in_flight};
ghost use Rattle.order_policy.specs.Answers.{rank_by};
ghost use Rattle.rollout_book.specs.Aliens.{told_by};
ghost use Rattle.rollout_book.specs.JournaledRounds.{turn_of};
ghost use Rattle.sim_run.specs.Keeping.{Keeping, MayTell, batch_over, first_keeping, with_round};

use dependency_graph::Graph;
use lists::Memory;
use order_policy::Policy;
use rollout_book::Turn;
use rollout_rules::{Entry, Op};
use std::alloc::Global;
use wan_model::CheckedPlan;
use wire_frames::Answer;

/// What keeps the rollout of a controller: rounds over its graph, and the list of the durable entries, which
/// a crash leaves. It lives until a round or a start finds no memory, and is then given up.
pub(crate) trait SimRounds: Drop {
    /// The rollout with its durable history, and whether it lives.
    ghost keeping: { Self → Keeping };

    /// Of a plan of which nothing is settled.
    fn first(alloc: Global, plan: CheckedPlan) -> Result<Self, Memory>
    where
        Self: Sized,
        ensures { IfOk result (λ rounds. keeping rounds ≡ first_keeping plan) };

    /// The graph of the rollout, which has followed its durable history.
    fn graph(&self) -> &Graph
        requires live { IsTrue (keeping self.now).live }
        ensures value { result.now ≡ (keeping self.now).graph }
        ensures legal { IsTrue (is_legal (keeping self.now).graph.rollout.problem
            (keeping self.now).graph.rollout.plan (keeping self.now).graph.history) };

    /// The operations in flight, by item.
    fn flying(&self) -> &[Op]
        requires live { IsTrue (keeping self.now).live }
        ensures value { result.now
            ≡ in_flight (keeping self.now).graph.rollout.problem (keeping self.now).graph.history }
        ensures items { All (λ op. op.item < item_count (keeping self.now).graph.rollout.problem)
            result.now };

    /// The durable entries.
    fn entries(&self) -> &[Entry]
        requires live { IsTrue (keeping self.now).live }
        ensures { from_nothing (keeping self.now).graph.rollout.problem result.now
            ≡ (keeping self.now).graph.history };

    /// Makes a round over these answers, and tells how many entries of the batch are Done and Begin.
    fn round(&mut self, policy: &Policy, answers: &[Answer]) -> Result<Turn, Memory>
        requires live { IsTrue (keeping self.old).live }
        requires told { All (MayTell (keeping self.old).graph) (told_by answers.now) }
        ensures state { OnOk result
            (keeping self.new
            ≡ with_round (keeping self.old) (rank_by policy.now.answers) answers.now) }
        ensures turn { IfOk result
            (λ turn. turn
            ≡ turn_of (batch_over (keeping self.old).graph (rank_by policy.now.answers)
            answers.now)) }
        ensures given_up { OnErr result ((keeping self.new).live ≡ false) };

    /// Brings the rollout up again over what a crash left, and tells how many entries are found there.
    fn start(&mut self) -> Result<usize, Memory>
        requires live { IsTrue (keeping self.old).live }
        ensures same { OnOk result (keeping self.new ≡ keeping self.old) }
        ensures found { IfOk result
            (λ found. found ≡ length (keeping self.old).graph.history.entries) }
        ensures given_up { OnErr result ((keeping self.new).live ≡ false) };
}
