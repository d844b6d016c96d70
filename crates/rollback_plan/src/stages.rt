//! Stages as starts: a rollout may begin where all items have the content of one stage.
ghost use Rattle.std.specs.Prelude.{◌≡◌, ℕ, ◌-◌, ◌<◌, ◌≤◌, slice_index, IsTrue};
ghost use Rattle.rollout_rules.specs.Wan.{Problem, Plan, last_stage};
ghost use Rattle.rollout_rules.specs.Network.{IsNetwork};
ghost use Rattle.rollout_rules.specs.Items.{item_count, item_at, content};
ghost use Rattle.rollout_rules.specs.Operations.{changes_to, operations, content_after};
ghost use Rattle.rollout_rules.specs.Valid.{is_valid_plan};
ghost use Rattle.rollout_rules.specs.Legal.{is_sound};
ghost use Rattle.rollback_plan.specs.Turning.{back_problem, back_plan};
ghost use Rattle.rollback_plan.specs.Levels.{stage_start, back_start, HasContentsOf};

/// Each stage of a valid plan is a sound start, with the content of that stage.
pub fn each_stage_is_a_sound_start()
    ensures sound { (p : Problem) (plan : Plan) (s : ℕ)
        → IsNetwork p
        → IsTrue (is_valid_plan p plan)
        → s ≤ last_stage plan
        → IsTrue (is_sound p plan (stage_start p plan s)) }
    ensures content { (p : Problem) (plan : Plan) (s : ℕ)
        → s ≤ last_stage plan
        → HasContentsOf p plan s (stage_start p plan s) }
{}

/// So the way back may begin at each stage of a valid plan, with the content that stage has on the way
/// there. Each item's number there is how many operations the stage left it.
pub fn the_way_back_begins_at_each_stage()
    ensures sound { (p : Problem) (plan : Plan) (s : ℕ)
        → IsNetwork p
        → IsTrue (is_valid_plan p plan)
        → s ≤ last_stage plan
        → IsTrue (is_sound (back_problem p) (back_plan plan) (back_start p plan s)) }
    ensures content { (p : Problem) (plan : Plan) (s n : ℕ)
        → IsTrue (is_valid_plan p plan)
        → s ≤ last_stage plan
        → n < item_count p
        → content_after (back_problem p) (back_plan plan) (item_at p n)
        (slice_index (back_start p plan s) n)
        ≡ content p plan (item_at p n) s }
    ensures number { (p : Problem) (plan : Plan) (s n : ℕ)
        → IsTrue (is_valid_plan p plan)
        → s ≤ last_stage plan
        → n < item_count p
        → slice_index (back_start p plan s) n
        ≡ operations p plan (item_at p n) - changes_to p plan (item_at p n) s }
{}
