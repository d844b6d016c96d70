//! Theorems on what is found, as functions that only say them.

ghost use Rattle.std.specs.Prelude.{◌≡◌, ◌≢◌, ℕ, ◌<◌, ◌≤◌, Bool, true, false, List, length, slice_index, Ok, Err, IsOk, IsTrue};
ghost use Rattle.rollout_rules.specs.Wan.{Problem, Plan};
ghost use Rattle.rollout_rules.specs.Network.{IsNetwork};
ghost use Rattle.rollout_rules.specs.Valid.{is_valid_plan};
ghost use Rattle.plan_choose.specs.Choice.{Choice, chosen};
ghost use Rattle.fewest_plan.specs.Greedy.{moved, step, AreShares, IsOrder};
ghost use Rattle.fewest_plan.specs.Fits.{Fits, IsFull};
ghost use Rattle.fewest_plan.specs.Marked.{is_marked};
ghost use Rattle.fewest_plan.specs.Stuck.{stay_full, rests};
ghost use Rattle.fewest_plan.specs.Fewest.{fewest};
ghost use Rattle.fewest_plan.specs.declared.cause.Cause.TheVariants.{Stuck};

/// A plan that is found is valid.
pub fn what_is_found_is_valid()
    ensures { (p : Problem) (found : Choice)
        → IsNetwork p
        → fewest p ≡ Ok found
        → IsTrue (is_valid_plan p found.plan) }
{}

/// It has no more rate steps than the one that is chosen without the greedy rule.
pub fn it_has_no_more_rate_steps()
    ensures { (p : Problem) (choice found : Choice)
        → chosen p ≡ Ok choice
        → fewest p ≡ Ok found
        → found.rate_steps ≤ choice.rate_steps }
{}

/// Where one is chosen without the rule, one is found.
pub fn there_is_one_where_one_is_chosen()
    ensures { (p : Problem) → IsOk (chosen p) → IsOk (fewest p) }
{}

/// Where the flows keep all of the marked links taken, whatever the plan, nothing across one of these may ever
/// move: where something is to, there is no plan, of any number of steps and any scale.
pub fn links_that_stay_full_leave_no_plan()
    ensures { (p : Problem) (marks : List Bool) (l : ℕ)
        → IsNetwork p
        → stay_full p marks ≡ true
        → is_marked marks l ≡ true
        → rests p l ≡ false
        → (plan : Plan)
        → IsTrue (is_valid_plan p plan)
        → ⊥ }
{}

/// Where the answer is that a link is stuck, there is no plan at all.
pub fn where_a_link_is_stuck_there_is_no_plan()
    ensures { (p : Problem) (link : ℕ)
        → IsNetwork p
        → fewest p ≡ Err (Stuck link)
        → (plan : Plan)
        → IsTrue (is_valid_plan p plan)
        → ⊥ }
{}

/// A rate step of the rule passes SWAN's test where it begins with loads that fit, and ends with such.
pub fn each_step_passes_the_test()
    ensures step { (p : Problem) (d : ℕ) (order before : List ℕ)
        → IsNetwork p
        → AreShares p d before
        → IsOrder p order
        → Fits p d before before
        → Fits p d before (step p d order before) }
    ensures next { (p : Problem) (d : ℕ) (before after : List ℕ)
        → Fits p d before after
        → Fits p d after after }
{}

/// A flow that is tried and does not arrive is stopped by a link that would not carry one part more.
pub fn a_flow_goes_as_far_as_it_may()
    ensures { (p : Problem) (d : ℕ) (before after : List ℕ) (f : ℕ)
        → IsNetwork p
        → AreShares p d after
        → f < length p.flows
        → slice_index before f ≤ slice_index after f
        → slice_index (moved p d before after f) f ≢ d
        → (l : ℕ) × IsFull p d before (moved p d before after f) f l }
{}
