//! What each switch holds after a run, whatever it may hold by what went out and came back.
ghost use Rattle.std.specs.Prelude.{◌≡◌, ℕ, ◌<◌, ◌^◌, ◌++◌, List, Option, Some, IsTrue};
ghost use Rattle.rollout_rules.specs.Network.{IsNetwork};
ghost use Rattle.rollout_rules.specs.Valid.{is_valid_plan};
ghost use Rattle.rollout_rules.specs.Legal.{is_finished};
ghost use Rattle.wan_edge.specs.Switches.{Holdings};
ghost use Rattle.switch_ports.specs.Views.{SessionTrace};
ghost use Rattle.shared_book.specs.declared.note.Written.{Written};
ghost use Rattle.shared_book.specs.Histories.{Opening, history_of};
ghost use Rattle.shared_book.specs.Legal.{is_legal_shared};
ghost use Rattle.switch_laws.specs.Holdings.{AreHeldAt, AreHeldAtEnd};
ghost use Rattle.controller_run.specs.PortRuns.{IsPortRun};
ghost use Rattle.completion_laws.specs.Untold.{EachMayHold, IsFoundWith, IsLeftTo, IsNewTo, MayHold};

/// After a run each item of a port's switch is held between what the history of the run settles and what it
/// begins, with the content of its number, or as an earlier migration left it: whatever the switch may hold
/// that began right after the list found.
pub fn each_switch_holds_what_a_run_has_begun()
    ensures { (o : Opening) (migration : ℕ) (homes : List (Option ℕ)) (log : List Written)
        (first now : SessionTrace)
        → IsNetwork o.rollout.problem
        → IsTrue (is_valid_plan o.rollout.problem o.rollout.plan)
        → IsTrue (is_legal_shared o log)
        → migration < 2 ^ 32
        → IsPortRun o migration homes log first now
        → EachMayHold o.rollout migration homes o.found first now.port
        (AreHeldAt o.rollout migration homes first.switch (history_of o log)) }
{}

/// After a run whose history is finished it holds exactly the target.
pub fn each_switch_holds_the_target_where_a_run_is_finished()
    ensures { (o : Opening) (migration : ℕ) (homes : List (Option ℕ)) (log : List Written)
        (first now : SessionTrace)
        → IsNetwork o.rollout.problem
        → IsTrue (is_valid_plan o.rollout.problem o.rollout.plan)
        → IsTrue (is_legal_shared o log)
        → migration < 2 ^ 32
        → IsTrue (is_finished o.rollout.problem o.rollout.plan (history_of o log))
        → IsPortRun o migration homes log first now
        → EachMayHold o.rollout migration homes o.found first now.port
        (AreHeldAtEnd o.rollout migration homes first.switch o.found.start) }
{}

/// The next run of the migration, over a new port, finds a switch right after the history of this one, with
/// the bytes of this run and of those before it still on their way.
pub fn the_next_run_finds_each_switch_right()
    ensures { (o : Opening) (migration : ℕ) (homes : List (Option ℕ)) (log : List Written)
        (first now next : SessionTrace) (offered heard earlier : List ℕ) (before after : Holdings)
        → IsNetwork o.rollout.problem
        → IsTrue (is_valid_plan o.rollout.problem o.rollout.plan)
        → IsTrue (is_legal_shared o log)
        → migration < 2 ^ 32
        → IsPortRun o migration homes log first now
        → now.port.offered ≡ Some offered
        → now.port.heard ≡ Some heard
        → IsFoundWith o.rollout migration homes o.found first earlier before
        → MayHold (earlier ++ offered) heard before after
        → IsNewTo first.switch next
        → IsLeftTo o.rollout migration homes (history_of o log) next (earlier ++ offered) after }
{}
