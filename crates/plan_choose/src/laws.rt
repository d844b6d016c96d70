//! Theorems on the choice, as functions that only say them.

ghost use Rattle.std.specs.Prelude.{◌≡◌, ℕ, ◌≤◌, None, Ok, Err, IsTrue, IsSome, IsOk};
ghost use Rattle.rollout_rules.specs.Wan.{Problem};
ghost use Rattle.rollout_rules.specs.Network.{IsNetwork};
ghost use Rattle.rollout_rules.specs.Valid.{is_valid_plan};
ghost use Rattle.rollout_rules.specs.Slack.{has_slack};
ghost use Rattle.plan_check.specs.LeastSlack.{least_slack};
ghost use Rattle.scratch_plan.specs.Frame.{has_equal_rates};
ghost use Rattle.scratch_plan.specs.Refusals.{refusal};
ghost use Rattle.scratch_plan.specs.declared.no_plan.NoPlan.TheVariants.{Memory};
ghost use Rattle.plan_choose.specs.Choice.{Choice, chosen, direct_plan, step_plan, most_tried};

/// A plan that is chosen is valid.
pub fn what_is_chosen_is_valid()
    ensures { (p : Problem) (choice : Choice)
        → IsNetwork p
        → chosen p ≡ Ok choice
        → IsTrue (is_valid_plan p choice.plan) }
{}

/// Where nothing is refused, each of these is enough for a plan: equal rates, a direct plan that is valid,
/// a number of steps with a plan, slack 1/k for some k from 2 to 64.
pub fn there_is_a_plan()
    ensures still { (p : Problem)
        → refusal p ≡ None
        → IsTrue (has_equal_rates p)
        → IsOk (chosen p) }
    ensures direct { (p : Problem)
        → refusal p ≡ None
        → IsTrue (is_valid_plan p (direct_plan p))
        → IsOk (chosen p) }
    ensures steps { (p : Problem) (q : ℕ)
        → refusal p ≡ None
        → 2 ≤ q
        → q ≤ most_tried (least_slack p)
        → IsSome (step_plan p q)
        → IsOk (chosen p) }
    ensures slack { (p : Problem) (k : ℕ)
        → refusal p ≡ None
        → 2 ≤ k
        → k ≤ 64
        → IsTrue (has_slack p k)
        → IsOk (chosen p) }
{}

/// Where there is no plan, the cause is a link or a table: the definition doesn't speak of memory.
pub fn every_cause_is_told()
    ensures { (p : Problem) → chosen p ≡ Err Memory → ⊥ }
{}
