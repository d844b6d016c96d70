//! The plan back: what it has at each stage, and that it is valid.
ghost use Rattle.std.specs.Prelude.{◌≡◌, ℕ, ◌+◌, ◌-◌, ◌<◌, ◌≤◌, IsTrue};
ghost use Rattle.rollout_rules.specs.Wan.{Problem, Plan, last_stage};
ghost use Rattle.rollout_rules.specs.Network.{IsNetwork};
ghost use Rattle.rollout_rules.specs.Items.{item_count, item_at, content};
ghost use Rattle.rollout_rules.specs.Operations.{changes_to, operations};
ghost use Rattle.rollout_rules.specs.Valid.{is_valid_plan};
ghost use Rattle.rollout_rules.specs.declared.item.Item.{Item};
ghost use Rattle.rollback_plan.specs.Turning.{back_problem, back_plan};

/// With its splits exchanged a network is one still, and a valid plan with its stages in reverse order is
/// valid for it. Turned round twice, both are as they were.
pub fn the_way_back_is_valid()
    ensures network { (p : Problem) → IsNetwork p → IsNetwork (back_problem p) }
    ensures valid { (p : Problem) (plan : Plan)
        → IsTrue (is_valid_plan p plan)
        → IsTrue (is_valid_plan (back_problem p) (back_plan plan)) }
    ensures problem_again { (p : Problem) → back_problem (back_problem p) ≡ p }
    ensures plan_again { (plan : Plan) → back_plan (back_plan plan) ≡ plan }
{}

/// The items are the same. Stage `s` of the way back has the content of stage Q - s of the way there, Q
/// being the last one, and so the operations up to both are all that an item has.
pub fn the_way_back_goes_through_the_same_stages()
    ensures count { (p : Problem) → item_count (back_problem p) ≡ item_count p }
    ensures items { (p : Problem) (n : ℕ) → item_at (back_problem p) n ≡ item_at p n }
    ensures stages { (plan : Plan) → last_stage (back_plan plan) ≡ last_stage plan }
    ensures content { (p : Problem) (plan : Plan) (i : Item) (s : ℕ)
        → IsTrue (is_valid_plan p plan)
        → s ≤ last_stage plan
        → content (back_problem p) (back_plan plan) i s ≡ content p plan i (last_stage plan - s) }
    ensures changes { (p : Problem) (plan : Plan) (i : Item) (s : ℕ)
        → IsTrue (is_valid_plan p plan)
        → s ≤ last_stage plan
        → changes_to (back_problem p) (back_plan plan) i s
        + changes_to p plan i (last_stage plan - s)
        ≡ operations p plan i }
{}
