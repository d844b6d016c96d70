ghost use Rattle.std.specs.Prelude.{◌≡◌, ◌+◌, ◌≤◌, ℕ, List, IsTrue};
ghost use Rattle.rand_pcg.specs.Lcg.{Lcg};
ghost use Rattle.rollout_rules.specs.Wan.{Problem, Plan};
ghost use Rattle.rollout_rules.specs.Network.{IsNetwork};
ghost use Rattle.rollout_rules.specs.Valid.{is_valid_plan};
ghost use Rattle.rollout_rules.specs.declared.limits.TheConstants.{MOST_SENT};
ghost use Rattle.rollout_rules.specs.declared.op.OpView.{OpView};
ghost use Rattle.rollout_rules.specs.declared.event.Act.{Act};
ghost use Rattle.rollout_laws.specs.Waiting.{HoldsNothing};
ghost use Rattle.sim_run.specs.Acts.{after_acts, first_rehearsal};
ghost use Rattle.sim_run.specs.Drafts.{IsDrawnScript, drawn_script};
ghost use Rattle.sim_run.specs.Rehearsed.{IsSafeRehearsal};
ghost use Rattle.sim_run.specs.Trials.{after_trial, all_operations, end_of_trial, is_finished, trial_script};

/// Every script is a schedule, whatever the policy, so over a valid plan each world on its way is safe, no
/// peak is above its capacity, and a script that ends finished leaves the switches at the new split.
pub fn every_rehearsal_is_safe()
    ensures { (p : Problem) (plan : Plan) (policy : OpView → ℕ) (script : List Act)
        → IsNetwork p
        → IsTrue (is_valid_plan p plan)
        → IsSafeRehearsal p plan policy script }
{}

/// The events of a trial are the script of the acts that were drawn, and so are its worlds; and with its
/// drain it is a script, too. So over a valid plan each of its worlds is safe.
pub fn a_trial_is_a_script()
    ensures events { (p : Problem) (plan : Plan) (policy : OpView → ℕ) (draws : Lcg) (events : ℕ)
        → (after_trial p plan policy draws events).rehearsal
        ≡ after_acts p plan policy (first_rehearsal p plan)
        (after_trial p plan policy draws events).acts }
    ensures whole { (p : Problem) (plan : Plan) (policy : OpView → ℕ) (draws : Lcg) (events : ℕ)
        → end_of_trial p plan policy draws events
        ≡ after_acts p plan policy (first_rehearsal p plan)
        (trial_script p plan policy draws events) }
    ensures safe { (p : Problem) (plan : Plan) (policy : OpView → ℕ) (draws : Lcg) (events : ℕ)
        → IsNetwork p
        → IsTrue (is_valid_plan p plan)
        → IsSafeRehearsal p plan policy (trial_script p plan policy draws events) }
{}

/// A trial ends finished, within the turns of its drain, where the policy holds nothing back and there is room
/// for a command for each event and each operation.
pub fn a_trial_ends_finished()
    ensures { (p : Problem) (plan : Plan) (policy : OpView → ℕ) (draws : Lcg) (events : ℕ)
        → IsNetwork p
        → IsTrue (is_valid_plan p plan)
        → HoldsNothing policy
        → events + all_operations p plan ≤ MOST_SENT
        → IsTrue (is_finished p plan (end_of_trial p plan policy draws events)) }
{}

/// A script that is drawn has the acts that happen, and no more than a script may have. It leads where the trial
/// of the same draws does, unless it ended for want of room; then, under a policy that holds nothing back, it
/// ends finished, where there is room for a command for each event and each operation. Each of its worlds is
/// safe.
pub fn a_drawn_script_happens()
    ensures { (p : Problem) (plan : Plan) (policy : OpView → ℕ) (draws : Lcg) (events : ℕ)
        → IsNetwork p
        → IsTrue (is_valid_plan p plan)
        → IsDrawnScript p plan policy draws events (drawn_script p plan policy draws events) }
{}
