//! What the contract of the commands says together with the rules, as functions that only say it.

ghost use Rattle.std.specs.Prelude.{◌≡◌, ◌≢◌, ℕ, ◌≤◌, List, length, None, Ok, Err, IsTrue, IsSome, IsOk};
ghost use Rattle.rollout_rules.specs.Network.{IsNetwork};
ghost use Rattle.rollout_rules.specs.Wan.{Problem, Plan};
ghost use Rattle.rollout_rules.specs.Valid.{is_valid_plan};
ghost use Rattle.rollout_rules.specs.Slack.{has_slack};
ghost use Rattle.rollout_rules.specs.declared.limits.TheConstants.{MOST_INPUT};
ghost use Rattle.rollout_rules.specs.declared.op.OpView.{OpView};
ghost use Rattle.plan_check.specs.LeastSlack.{least_slack};
ghost use Rattle.scratch_plan.specs.Frame.{has_equal_rates};
ghost use Rattle.scratch_plan.specs.Refusals.{refusal};
ghost use Rattle.plan_choose.specs.Choice.{direct_plan, step_plan, most_tried};
ghost use Rattle.fewest_plan.specs.declared.cause.Cause.TheVariants.{Stuck};
ghost use Rattle.problem_json.specs.Grammar.{problem_in};
ghost use Rattle.sim_run.specs.declared.script_shape.ScriptShape.{ScriptShape};
ghost use Rattle.text_commands.specs.Answers.{answer_to};
ghost use Rattle.text_commands.specs.Program.{Streams};
ghost use Rattle.text_commands.specs.Runs.{TellsInput};
ghost use Rattle.text_commands.specs.Taken.{IsShownDocument, IsValidDocument, IsValidScript};
ghost use Rattle.text_commands.specs.TextPromise.{TextPromise};
ghost use Rattle.text_commands.specs.Words.{TextAsked, a_plan, a_check, the_loads, the_way_back, a_rehearsal, a_script, the_explanation};
ghost use Rattle.text_commands.specs.declared.command_end.CommandEnd.TheVariants.{NoPlan};
ghost use Rattle.text_commands.specs.declared.words.Planner.{Planner};
ghost use Rattle.text_commands.specs.declared.words.Planner.TheVariants.{Slack};

/// Where the input is a problem whose loads and entries fit, each of these is enough for `plan` to have an
/// answer, whoever plans: equal rates, a direct plan that is valid, a number of steps with a plan, slack 1/k
/// for some k from 2 to 64.
pub fn what_fits_is_planned()
    ensures still { (planner : Planner) (input : List ℕ) (p : Problem)
        → length input ≤ MOST_INPUT
        → problem_in input ≡ Ok p
        → refusal p ≡ None
        → IsTrue (has_equal_rates p)
        → IsOk (answer_to (a_plan planner) input) }
    ensures direct { (planner : Planner) (input : List ℕ) (p : Problem)
        → length input ≤ MOST_INPUT
        → problem_in input ≡ Ok p
        → refusal p ≡ None
        → IsTrue (is_valid_plan p (direct_plan p))
        → IsOk (answer_to (a_plan planner) input) }
    ensures steps { (planner : Planner) (input : List ℕ) (p : Problem) (q : ℕ)
        → length input ≤ MOST_INPUT
        → problem_in input ≡ Ok p
        → refusal p ≡ None
        → 2 ≤ q
        → q ≤ most_tried (least_slack p)
        → IsSome (step_plan p q)
        → IsOk (answer_to (a_plan planner) input) }
    ensures slack { (planner : Planner) (input : List ℕ) (p : Problem) (k : ℕ)
        → length input ≤ MOST_INPUT
        → problem_in input ≡ Ok p
        → refusal p ≡ None
        → 2 ≤ k
        → k ≤ 64
        → IsTrue (has_slack p k)
        → IsOk (answer_to (a_plan planner) input) }
{}

/// Where `plan` has an answer by `slack`, it has one by every planner; that its plan never has more rate
/// steps is a part of the promise.
pub fn each_planner_plans_what_slack_does()
    ensures { (planner : Planner) (input : List ℕ)
        → IsOk (answer_to (a_plan Slack) input)
        → IsOk (answer_to (a_plan planner) input) }
{}

/// Where the answer of `plan` is that none exists, the problem has no valid plan, of any number of steps.
pub fn where_none_exists_there_is_no_valid_plan()
    ensures { (planner : Planner) (input : List ℕ) (p : Problem) (link : ℕ)
        → length input ≤ MOST_INPUT
        → problem_in input ≡ Ok p
        → IsNetwork p
        → answer_to (a_plan planner) input
        ≡ Err (NoPlan (record { problem = p; cause = Stuck link }))
        → (plan : Plan)
        → IsTrue (is_valid_plan p plan)
        → ⊥ }
{}

/// Every document with a valid plan has an answer of `loads`, `explain` and `back`, of `rehearse` whatever its
/// numbers and the policy, and of `check` where what it says of fewer rate steps, if it does, is shown; and
/// every script on one has an answer of `sim`, whatever the policy.
pub fn what_is_valid_is_answered()
    ensures check { (input : List ℕ) → IsShownDocument input → IsOk (answer_to a_check input) }
    ensures loads { (input : List ℕ) → IsValidDocument input → IsOk (answer_to the_loads input) }
    ensures back { (input : List ℕ) → IsValidDocument input → IsOk (answer_to the_way_back input) }
    ensures explain { (input : List ℕ)
        → IsValidDocument input
        → IsOk (answer_to the_explanation input) }
    ensures sim { (policy : OpView → ℕ) (input : List ℕ)
        → IsValidScript input
        → IsOk (answer_to (a_rehearsal policy) input) }
    ensures rehearse { (shape : ScriptShape) (policy : OpView → ℕ) (input : List ℕ)
        → IsValidDocument input
        → IsOk (answer_to (a_script shape policy) input) }
{}

/// A run whose source tells its input, by what it had left or by what was taken of it, and whose command has
/// an answer to it, ends with status 0 unless the source or the sink failed or memory ran out.
pub fn an_answer_is_written()
    ensures { (asked : TextAsked) (before after : Streams) (status : ℕ) (input : List ℕ)
        → TextPromise asked before after status
        → TellsInput before.source after.source input
        → IsOk (answer_to asked input)
        → status ≢ 6
        → status ≢ 7
        → status ≢ 12
        → status ≡ 0 }
{}
