//! What switches hold after a run, from what their ports told.
ghost use Rattle.std.specs.Prelude.{ℕ, ◌<◌, ◌^◌, List, Option, IfSome, IsTrue};
ghost use Rattle.rollout_rules.specs.Network.{IsNetwork};
ghost use Rattle.rollout_rules.specs.Valid.{is_valid_plan};
ghost use Rattle.rollout_rules.specs.Legal.{is_finished};
ghost use Rattle.switch_ports.specs.Views.{SessionTrace};
ghost use Rattle.shared_book.specs.declared.note.Written.{Written};
ghost use Rattle.shared_book.specs.Histories.{Opening, history_of};
ghost use Rattle.shared_book.specs.Legal.{is_legal_shared};
ghost use Rattle.switch_laws.specs.Holdings.{AreHeldAt, AreHeldAtEnd};
ghost use Rattle.switch_laws.specs.Runs.{StartsAsFound};
ghost use Rattle.controller_run.specs.PortRuns.{IsPortRun};

/// Where the switch of a port held what the list found allows, it holds after the run what the history of
/// the run allows: each item between what is settled and what is begun, with the content of its number.
pub fn switches_hold_what_a_run_has_begun()
    ensures { (o : Opening) (migration : ℕ) (homes : List (Option ℕ)) (log : List Written)
        (first now : SessionTrace)
        → IsNetwork o.rollout.problem
        → IsTrue (is_valid_plan o.rollout.problem o.rollout.plan)
        → IsTrue (is_legal_shared o log)
        → migration < 2 ^ 32
        → StartsAsFound o.rollout migration homes o.found first
        → IsPortRun o migration homes log first now
        → IfSome now.port.offered
        (λ _. IfSome now.port.heard
        (λ _. IfSome now.port.held
        (AreHeldAt o.rollout migration homes first.switch (history_of o log)))) }
{}

/// After a run whose history is finished it holds exactly the target.
pub fn switches_hold_the_target_where_a_run_is_finished()
    ensures { (o : Opening) (migration : ℕ) (homes : List (Option ℕ)) (log : List Written)
        (first now : SessionTrace)
        → IsNetwork o.rollout.problem
        → IsTrue (is_valid_plan o.rollout.problem o.rollout.plan)
        → IsTrue (is_legal_shared o log)
        → migration < 2 ^ 32
        → IsTrue (is_finished o.rollout.problem o.rollout.plan (history_of o log))
        → StartsAsFound o.rollout migration homes o.found first
        → IsPortRun o migration homes log first now
        → IfSome now.port.offered
        (λ _. IfSome now.port.heard
        (λ _. IfSome now.port.held
        (AreHeldAtEnd o.rollout migration homes first.switch o.found.start))) }
{}
