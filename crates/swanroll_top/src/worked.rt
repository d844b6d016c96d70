//! Worked examples: of command lines, where proving each is computing it, and of what a run must find.

ghost use Rattle.std.specs.Prelude.{◌≡◌, [], ◌∷◌, codes, Some, None};
ghost use Rattle.rollout_rules.specs.Worked.{fresh};
ghost use Rattle.switch_laws.specs.Worked.{two_flows};
ghost use Rattle.completion_laws.specs.Worked.{begun_one};
ghost use Rattle.rollback_service.specs.declared.origin.BackFrom.TheVariants.{Here, Level};
ghost use Rattle.text_commands.specs.Worked.{by_item, chain_first, two_policies};
ghost use Rattle.swanroll_top.specs.Drains.{line_with_left};
ghost use Rattle.swanroll_top.specs.LiveWords.{live_in};
ghost use Rattle.swanroll_top.specs.Ready.{CountsNoFault, IsReadyFor};
ghost use Rattle.text_commands.specs.Words.{a_plan, a_check, the_loads, the_way_back, a_rehearsal, a_script, the_explanation, the_least};
ghost use Rattle.swanroll_top.specs.Words.{a_drain, a_report, a_rollback, a_text, a_trial, an_agent, asked_in, what_is_held};
ghost use Rattle.text_commands.specs.declared.words.Planner.TheVariants.{Slack, Fewest};
ghost use Rattle.swanroll_top.specs.Worked.{answered_once, failed_once, fleet_with, in_rounds, itself, never_used, none_begins, unanswered, waiting_at_first};

/// A command alone, and a rehearsal under the policy that is named.
pub fn command_lines()
    ensures plan { asked_in two_policies (codes "plan" ∷ []) ≡ Some (a_text (a_plan Slack)) }
    ensures slack { asked_in two_policies (codes "plan" ∷ codes "--planner" ∷ codes "slack" ∷ [])
        ≡ Some (a_text (a_plan Slack)) }
    ensures fewest { asked_in two_policies (codes "plan" ∷ codes "--planner" ∷ codes "fewest" ∷ [])
        ≡ Some (a_text (a_plan Fewest)) }
    ensures check { asked_in two_policies (codes "check" ∷ []) ≡ Some (a_text a_check) }
    ensures loads { asked_in two_policies (codes "loads" ∷ []) ≡ Some (a_text the_loads) }
    ensures back { asked_in two_policies (codes "back" ∷ []) ≡ Some (a_text the_way_back) }
    ensures explain { asked_in two_policies (codes "explain" ∷ []) ≡ Some (a_text the_explanation) }
    ensures least { asked_in two_policies (codes "least" ∷ []) ≡ Some (a_text the_least) }
    ensures sim { asked_in two_policies (codes "sim" ∷ [])
        ≡ Some (a_text (a_rehearsal chain_first)) }
    ensures critical { asked_in two_policies
        (codes "sim" ∷ codes "--policy" ∷ codes "critical" ∷ [])
        ≡ Some (a_text (a_rehearsal chain_first)) }
    ensures order { asked_in two_policies (codes "sim" ∷ codes "--policy" ∷ codes "order" ∷ [])
        ≡ Some (a_text (a_rehearsal by_item)) }
    ensures report { asked_in two_policies (codes "report" ∷ []) ≡ Some (a_report 0) }
    ensures agent { asked_in two_policies (codes "agent" ∷ []) ≡ Some (an_agent 1) }
    ensures guests { asked_in two_policies (codes "agent" ∷ codes "--guests" ∷ codes "40" ∷ [])
        ≡ Some (an_agent 40) }
    ensures migration { asked_in two_policies
        (codes "report" ∷ codes "--migration" ∷ codes "007" ∷ [])
        ≡ Some (a_report 7) }
{}

/// The word `--live` stands after that of a report, and before its pairs.
pub fn lines_of_a_live_report()
    ensures default { live_in (codes "report" ∷ codes "--live" ∷ [])
        ≡ Some (record { migration = 0; seconds = 0 }) }
    ensures named { live_in
        (codes "report"
        ∷ codes "--live"
        ∷ codes "--migration"
        ∷ codes "7"
        ∷ codes "--follow"
        ∷ codes "2"
        ∷ [])
        ≡ Some (record { migration = 7; seconds = 2 }) }
    ensures above { live_in
        (codes "report" ∷ codes "--live" ∷ codes "--follow" ∷ codes "86401" ∷ [])
        ≡ None }
    ensures without { live_in (codes "report" ∷ []) ≡ None }
    ensures behind { live_in
        (codes "report" ∷ codes "--migration" ∷ codes "7" ∷ codes "--live" ∷ [])
        ≡ None }
    ensures another { live_in (codes "run" ∷ codes "--live" ∷ []) ≡ None }
{}

/// A script is drawn of a seed and a number of events, under a policy; it takes no other number of a trial.
pub fn lines_of_a_rehearsal()
    ensures default { asked_in two_policies (codes "rehearse" ∷ [])
        ≡ Some (a_text (a_script (record { seed = 1; events = 1000 }) chain_first)) }
    ensures named { asked_in two_policies
        (codes "rehearse"
        ∷ codes "--events"
        ∷ codes "0"
        ∷ codes "--policy"
        ∷ codes "order"
        ∷ codes "--seed"
        ∷ codes "7"
        ∷ [])
        ≡ Some (a_text (a_script (record { seed = 7; events = 0 }) by_item)) }
    ensures above { asked_in two_policies
        (codes "rehearse" ∷ codes "--events" ∷ codes "100001" ∷ [])
        ≡ None }
    ensures other { asked_in two_policies (codes "rehearse" ∷ codes "--k" ∷ codes "4" ∷ [])
        ≡ None }
{}

/// A drain takes what a run does but for a policy; its migration may be the last one.
pub fn drain_lines()
    ensures default { asked_in two_policies (codes "drain" ∷ [])
        ≡ Some (a_drain (record { workers = 2; rounds = 1000; migration = 0 })) }
    ensures last { asked_in two_policies
        (codes "drain"
        ∷ codes "--migration"
        ∷ codes "4294967295"
        ∷ codes "--rounds"
        ∷ codes "200000"
        ∷ [])
        ≡ Some (a_drain (record { workers = 2; rounds = 200000; migration = 4294967295 })) }
    ensures workers { asked_in two_policies
        (codes "drain" ∷ codes "--workers" ∷ codes "17" ∷ [])
        ≡ None }
    ensures policy { asked_in two_policies
        (codes "drain" ∷ codes "--policy" ∷ codes "freeze" ∷ [])
        ≡ None }
{}

/// Of 16 operations 4 are left, or none.
pub fn the_line_of_a_drained_rollout()
    ensures some { line_with_left 16 4 ≡ codes "drained: operations 16, settled 12\n" }
    ensures all { line_with_left 16 0 ≡ codes "drained: operations 16, settled 16\n" }
{}

/// A rollback takes what a run does but for a policy, its migration must have a next one, and it says from where.
pub fn rollback_lines()
    ensures default { asked_in two_policies (codes "rollback" ∷ [])
        ≡ Some (a_rollback (record { workers = 2; rounds = 1000; migration = 0 }) Level) }
    ensures level { asked_in two_policies (codes "rollback" ∷ codes "--from" ∷ codes "level" ∷ [])
        ≡ Some (a_rollback (record { workers = 2; rounds = 1000; migration = 0 }) Level) }
    ensures here { asked_in two_policies
        (codes "rollback"
        ∷ codes "--from"
        ∷ codes "here"
        ∷ codes "--rounds"
        ∷ codes "7"
        ∷ [])
        ≡ Some (a_rollback (record { workers = 2; rounds = 7; migration = 0 }) Here) }
    ensures there { asked_in two_policies (codes "rollback" ∷ codes "--from" ∷ codes "there" ∷ [])
        ≡ None }
    ensures of_a_run { asked_in two_policies (codes "run" ∷ codes "--from" ∷ codes "here" ∷ [])
        ≡ None }
    ensures last { asked_in two_policies
        (codes "rollback"
        ∷ codes "--migration"
        ∷ codes "4294967294"
        ∷ codes "--workers"
        ∷ codes "16"
        ∷ [])
        ≡ Some (a_rollback (record { workers = 16; rounds = 1000; migration = 4294967294 })
        Level) }
    ensures no_next { asked_in two_policies
        (codes "rollback" ∷ codes "--migration" ∷ codes "4294967295" ∷ [])
        ≡ None }
    ensures policy { asked_in two_policies
        (codes "rollback" ∷ codes "--policy" ∷ codes "order" ∷ [])
        ≡ None }
    ensures joined { asked_in two_policies (codes "roll" ∷ codes "back" ∷ []) ≡ None }
{}

/// What switches hold is asked for in a number of rounds, and as no migration.
pub fn lines_on_what_is_held()
    ensures default { asked_in two_policies (codes "held" ∷ []) ≡ Some (what_is_held 10) }
    ensures most { asked_in two_policies
        (codes "held" ∷ codes "--rounds" ∷ codes "200000" ∷ [])
        ≡ Some (what_is_held 200000) }
    ensures none { asked_in two_policies (codes "held" ∷ codes "--rounds" ∷ codes "0" ∷ [])
        ≡ None }
    ensures above { asked_in two_policies
        (codes "held" ∷ codes "--rounds" ∷ codes "200001" ∷ [])
        ≡ None }
    ensures migration { asked_in two_policies
        (codes "held" ∷ codes "--migration" ∷ codes "1" ∷ [])
        ≡ None }
    ensures workers { asked_in two_policies (codes "held" ∷ codes "--workers" ∷ codes "1" ∷ [])
        ≡ None }
{}

/// A word that is no command, or none.
pub fn words_without_a_command()
    ensures none { asked_in two_policies [] ≡ None }
    ensures capital { asked_in two_policies (codes "Plan" ∷ []) ≡ None }
    ensures help { asked_in two_policies (codes "--help" ∷ []) ≡ None }
    ensures behind { asked_in two_policies (codes "--policy" ∷ codes "order" ∷ codes "sim" ∷ [])
        ≡ None }
{}

/// A name that the command doesn't take, that has no value, or that comes twice.
pub fn words_with_a_wrong_name()
    ensures other { asked_in two_policies (codes "sim" ∷ codes "--k" ∷ codes "3" ∷ []) ≡ None }
    ensures of_another { asked_in two_policies
        (codes "plan" ∷ codes "--policy" ∷ codes "order" ∷ [])
        ≡ None }
    ensures of_none { asked_in two_policies
        (codes "loads" ∷ codes "--policy" ∷ codes "order" ∷ [])
        ≡ None }
    ensures bare { asked_in two_policies (codes "sim" ∷ codes "policy" ∷ codes "order" ∷ [])
        ≡ None }
    ensures joined { asked_in two_policies (codes "sim" ∷ codes "--policy=order" ∷ []) ≡ None }
    ensures without_value { asked_in two_policies (codes "sim" ∷ codes "--policy" ∷ []) ≡ None }
    ensures twice { asked_in two_policies
        (codes "sim" ∷ codes "--policy" ∷ codes "order" ∷ codes "--policy" ∷ codes "order" ∷ [])
        ≡ None }
{}

/// A value before its name, that begins with `-`, or is no policy; a default that isn't there.
pub fn words_with_a_wrong_value()
    ensures before_the_name { asked_in two_policies
        (codes "sim" ∷ codes "order" ∷ codes "--policy" ∷ [])
        ≡ None }
    ensures dash { asked_in two_policies (codes "sim" ∷ codes "--policy" ∷ codes "-" ∷ []) ≡ None }
    ensures planner { asked_in two_policies (codes "plan" ∷ codes "--planner" ∷ codes "best" ∷ [])
        ≡ None }
    ensures unknown { asked_in two_policies (codes "sim" ∷ codes "--policy" ∷ codes "none" ∷ [])
        ≡ None }
    ensures empty { asked_in two_policies (codes "sim" ∷ codes "--policy" ∷ [] ∷ []) ≡ None }
    ensures no_digits { asked_in two_policies
        (codes "report" ∷ codes "--migration" ∷ codes "+1" ∷ [])
        ≡ None }
    ensures large { asked_in two_policies
        (codes "report" ∷ codes "--migration" ∷ codes "4294967296" ∷ [])
        ≡ None }
    ensures no_guest { asked_in two_policies (codes "agent" ∷ codes "--guests" ∷ codes "0" ∷ [])
        ≡ None }
    ensures no_default { asked_in [] (codes "sim" ∷ []) ≡ None }
{}

/// A trial with its defaults, under a policy that is named, and with each number at the end of its range.
pub fn trials()
    ensures default { asked_in two_policies (codes "trial" ∷ [])
        ≡ Some (a_trial (record { k = 4; switches = 24; flows = 24; seed = 1; events = 1000 })
        chain_first) }
    ensures named { asked_in two_policies
        (codes "trial" ∷ codes "--policy" ∷ codes "order" ∷ codes "--flows" ∷ codes "0" ∷ [])
        ≡ Some (a_trial (record { k = 4; switches = 24; flows = 0; seed = 1; events = 1000 })
        by_item) }
    ensures largest { asked_in two_policies
        (codes "trial"
        ∷ codes "--seed"
        ∷ codes "1000000000000000000"
        ∷ codes "--k"
        ∷ codes "64"
        ∷ [])
        ≡ Some (a_trial (record {
          k = 64;
          switches = 24;
          flows = 24;
          seed = 1000000000000000000;
          events = 1000;
        }) chain_first) }
    ensures above { asked_in two_policies
        (codes "trial" ∷ codes "--seed" ∷ codes "1000000000000000001" ∷ [])
        ≡ None }
    ensures long { asked_in two_policies
        (codes "trial" ∷ codes "--seed" ∷ codes "00000000000000000001" ∷ [])
        ≡ None }
    ensures wide { asked_in two_policies (codes "trial" ∷ codes "--k" ∷ codes "65" ∷ []) ≡ None }
    ensures two { asked_in two_policies (codes "trial" ∷ codes "--switches" ∷ codes "2" ∷ [])
        ≡ None }
{}

/// For two flows of one switch, with four operations: a fleet with a prompt port there, and four rounds.
/// Three are too few, the policy must let begin, the fleet must tell what waits, and no answer may be still
/// to come.
pub fn a_fleet_is_ready_for_a_rollout()
    ensures ready { IsReadyFor itself (in_rounds 4) by_item (waiting_at_first never_used) two_flows
        (fresh []) }
    ensures few_rounds { IsReadyFor itself (in_rounds 3) by_item (waiting_at_first never_used)
        two_flows (fresh [])
        → ⊥ }
    ensures held { IsReadyFor itself (in_rounds 4) none_begins (waiting_at_first never_used)
        two_flows (fresh [])
        → ⊥ }
    ensures untold { IsReadyFor itself (in_rounds 4) by_item None two_flows (fresh []) → ⊥ }
    ensures to_come { IsReadyFor itself (in_rounds 4) by_item (waiting_at_first unanswered)
        two_flows begun_one
        → ⊥ }
{}

/// The one port was given back as it had answered; it failed; the disk did.
pub fn a_fleet_counts_its_faults()
    ensures none { CountsNoFault itself 0 0 (fleet_with None) (fleet_with (Some answered_once)) }
    ensures port { CountsNoFault itself 0 0 (fleet_with None) (fleet_with (Some failed_once)) → ⊥ }
    ensures disk { CountsNoFault itself 0 1 (fleet_with None) (fleet_with (Some answered_once))
        → ⊥ }
{}
