//! Theorems on frames, as functions that only say them.

ghost use Rattle.std.specs.Prelude.{◌≡◌, ℕ, ◌≤◌, List, None, IsTrue, IsSome};
ghost use Rattle.rollout_rules.specs.Wan.{Problem};
ghost use Rattle.rollout_rules.specs.Network.{IsNetwork};
ghost use Rattle.rollout_rules.specs.Valid.{is_valid_plan};
ghost use Rattle.rollout_rules.specs.Slack.{has_slack, has_table_room};
ghost use Rattle.plan_check.specs.LeastSlack.{least_slack};
ghost use Rattle.scratch_plan.specs.Frame.{still, plan_over, has_equal_rates};
ghost use Rattle.scratch_plan.specs.Refusals.{refusal, first_short, has_room_for_loads};
ghost use Rattle.scratch_plan.specs.Scratch.{by_slack};
ghost use Rattle.scratch_plan.specs.Steps.{AreRateSteps};

/// With table room the frame over rates that may follow one another is a valid plan (SWAN's step rule).
pub fn rate_steps_give_a_plan()
    ensures { (p : Problem) (scale : ℕ) (rows : List (List ℕ))
        → IsNetwork p
        → IsTrue (has_table_room p)
        → AreRateSteps p scale rows
        → IsTrue (is_valid_plan p (plan_over p scale rows)) }
{}

/// With table room, slack 1/k gives a valid plan in k - 1 rate steps, for every k from 2 to 64 (SWAN).
pub fn slack_gives_a_plan()
    ensures { (p : Problem) (k : ℕ)
        → IsNetwork p
        → IsTrue (has_table_room p)
        → 2 ≤ k
        → k ≤ 64
        → IsTrue (has_slack p k)
        → IsTrue (is_valid_plan p (by_slack p k)) }
{}

/// Where nothing is refused and rates are equal, the plan without a rate step is valid.
pub fn equal_rates_give_a_still_plan()
    ensures { (p : Problem)
        → IsNetwork p
        → refusal p ≡ None
        → IsTrue (has_equal_rates p)
        → IsTrue (is_valid_plan p (still p)) }
{}

/// Nothing is refused where every link carries both loads and the tables have room.
pub fn what_fits_is_not_refused()
    ensures { (p : Problem)
        → IsTrue (has_room_for_loads p)
        → IsTrue (has_table_room p)
        → refusal p ≡ None }
{}

/// A problem that is not refused has table room, and where no share of every link is free, some link is
/// short of slack.
pub fn refusals_leave_nothing_out()
    ensures room { (p : Problem) → refusal p ≡ None → IsTrue (has_table_room p) }
    ensures short { (p : Problem) → least_slack p ≡ None → IsSome (first_short p) }
{}
