ghost use Rattle.std.specs.Prelude.{◌≡◌, ℕ, ◌<◌, [], length, IsTrue, IsFalse};
ghost use Rattle.rollout_rules.specs.Network.{IsNetwork};
ghost use Rattle.rollout_rules.specs.Valid.{is_valid_plan};
ghost use Rattle.rollout_rules.specs.Legal.{is_legal, is_finished};
ghost use Rattle.rollout_rules.specs.declared.op.OpView.{OpView};
ghost use Rattle.rollout_laws.specs.Waiting.{NothingFlies, SomeMayBegin};
ghost use Rattle.dependency_graph.specs.Graph.{Followed};
ghost use Rattle.update_scheduler.specs.Benches.{ops_of};
ghost use Rattle.update_scheduler.specs.Tried.{released_by, IsAllHeld};

/// A rollout is never stuck but by its policy: in a legal history that isn't finished and has nothing in
/// flight some operation may begin, and a release begins none only where each such one is held back.
pub fn a_release_is_stuck_by_its_policy_alone()
    ensures some { (g : Followed)
        → IsNetwork g.rollout.problem
        → IsTrue (is_valid_plan g.rollout.problem g.rollout.plan)
        → IsTrue (is_legal g.rollout.problem g.rollout.plan g.history)
        → IsFalse (is_finished g.rollout.problem g.rollout.plan g.history)
        → NothingFlies g.rollout.problem g.history
        → SomeMayBegin g.rollout.problem g.rollout.plan g.history }
    ensures held { (g : Followed) (policy : OpView → ℕ)
        → ops_of (released_by g policy) ≡ []
        → IsAllHeld g policy }
{}
