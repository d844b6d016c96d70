//! Levelling: from any legal history to the contents of the stage to which it has come.
ghost use Rattle.std.specs.Prelude.{◌≡◌, ℕ, ◌<◌, ◌≤◌, [], List, IsTrue, IsFalse};
ghost use Rattle.rollout_rules.specs.Wan.{Problem, Plan, last_stage};
ghost use Rattle.rollout_rules.specs.Network.{IsNetwork};
ghost use Rattle.rollout_rules.specs.Items.{item_count, item_at, content};
ghost use Rattle.rollout_rules.specs.Operations.{content_after};
ghost use Rattle.rollout_rules.specs.History.{History, with_entries, settled, flies};
ghost use Rattle.rollout_rules.specs.Valid.{is_valid_plan};
ghost use Rattle.rollout_rules.specs.Legal.{is_legal, is_finished};
ghost use Rattle.rollout_rules.specs.Release.{release, batch, view_of};
ghost use Rattle.rollout_rules.specs.declared.op.Op.{Op};
ghost use Rattle.rollout_rules.specs.declared.op.OpView.{OpView};
ghost use Rattle.rollout_laws.specs.Waiting.{NothingFlies};
ghost use Rattle.order_policy.specs.Answers.{is_view};
ghost use Rattle.rollback_plan.specs.Levels.{ceiling, BegunUpTo, is_levelled, HoldsFrom, levelling};
ghost use Rattle.rollback_plan.specs.Levelling.{LevelsAt};

/// The ceiling of a legal history is a stage, nothing is begun that leads past it, and no lower stage is so.
pub fn a_history_is_begun_up_to_its_ceiling()
    ensures stage { (p : Problem) (plan : Plan) (h : History)
        → IsTrue (is_legal p plan h)
        → ceiling p plan h ≤ last_stage plan }
    ensures begun { (p : Problem) (plan : Plan) (h : History)
        → IsTrue (is_legal p plan h)
        → BegunUpTo p plan (ceiling p plan h) h }
    ensures least { (p : Problem) (plan : Plan) (h : History) (s : ℕ)
        → BegunUpTo p plan s h
        → ceiling p plan h ≤ s }
{}

/// What a policy sees of an operation of a legal history is a view, with numbers below 2^32.
pub fn policies_see_views()
    ensures { (p : Problem) (plan : Plan) (h : History) (n : ℕ)
        → IsNetwork p
        → IsTrue (is_valid_plan p plan)
        → IsTrue (is_legal p plan h)
        → n < item_count p
        → IsTrue (is_view (view_of p plan h n)) }
{}

/// The policy that levels at a stage holds from that stage on.
pub fn a_levelling_policy_holds_from_its_stage()
    ensures { (s : ℕ) → HoldsFrom s (levelling s) }
{}

/// Under a policy that holds from a stage on, a round of a history that leads up to that stage begins
/// operations up to there alone, whatever has been answered.
pub fn a_levelling_begins_nothing_past_its_stage()
    ensures release { (p : Problem) (plan : Plan) (policy : OpView → ℕ) (h : History) (s : ℕ)
        → IsNetwork p
        → IsTrue (is_valid_plan p plan)
        → IsTrue (is_legal p plan h)
        → s ≤ last_stage plan
        → HoldsFrom s policy
        → BegunUpTo p plan s h
        → BegunUpTo p plan s (with_entries h (release p plan policy h)) }
    ensures batch { (p : Problem) (plan : Plan) (policy : OpView → ℕ) (h : History) (s : ℕ)
        (answers : List Op)
        → IsNetwork p
        → IsTrue (is_valid_plan p plan)
        → IsTrue (is_legal p plan h)
        → s ≤ last_stage plan
        → HoldsFrom s policy
        → BegunUpTo p plan s h
        → BegunUpTo p plan s (with_entries h (batch p plan policy h answers)) }
{}

/// Such a history in which nothing flies is levelled where a release under that policy begins nothing, and
/// where it is finished.
pub fn a_held_history_is_levelled()
    ensures held { (p : Problem) (plan : Plan) (policy : OpView → ℕ) (h : History) (s : ℕ)
        → IsNetwork p
        → IsTrue (is_valid_plan p plan)
        → IsTrue (is_legal p plan h)
        → s ≤ last_stage plan
        → HoldsFrom s policy
        → BegunUpTo p plan s h
        → NothingFlies p h
        → release p plan policy h ≡ []
        → IsTrue (is_levelled p plan h s) }
    ensures finished { (p : Problem) (plan : Plan) (h : History) (s : ℕ)
        → s ≤ last_stage plan
        → BegunUpTo p plan s h
        → IsTrue (is_finished p plan h)
        → IsTrue (is_levelled p plan h s) }
{}

/// In a levelled history nothing flies, and each item has its content of that stage.
pub fn a_levelled_history_has_a_stages_contents()
    ensures idle { (p : Problem) (plan : Plan) (h : History) (s : ℕ)
        → IsTrue (is_legal p plan h)
        → IsTrue (is_levelled p plan h s)
        → NothingFlies p h }
    ensures content { (p : Problem) (plan : Plan) (h : History) (s n : ℕ)
        → IsTrue (is_legal p plan h)
        → s ≤ last_stage plan
        → IsTrue (is_levelled p plan h s)
        → n < item_count p
        → content_after p plan (item_at p n) (settled h n) ≡ content p plan (item_at p n) s }
{}

/// From every legal history there is a way to a levelled one: entries that may follow it, each history on
/// the way legal, safe and begun up to the stage alone, and the last one levelled there.
pub fn every_history_can_be_levelled()
    ensures { (p : Problem) (plan : Plan) (h : History) (s : ℕ)
        → IsNetwork p
        → IsTrue (is_valid_plan p plan)
        → IsTrue (is_legal p plan h)
        → s ≤ last_stage plan
        → BegunUpTo p plan s h
        → LevelsAt p plan s h }
{}
