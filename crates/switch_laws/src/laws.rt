ghost use Rattle.std.specs.Prelude.{◌≡◌, ℕ, ◌<◌, ◌^◌, [], All, List, Option, IfSome, IsTrue, is_some};
ghost use Rattle.rollout_rules.specs.Wan.{Rollout};
ghost use Rattle.rollout_rules.specs.Network.{IsNetwork};
ghost use Rattle.rollout_rules.specs.Valid.{is_valid_plan};
ghost use Rattle.rollout_rules.specs.History.{History, with_entries};
ghost use Rattle.rollout_rules.specs.Legal.{is_finished, is_legal};
ghost use Rattle.rollout_rules.specs.World.{in_flight};
ghost use Rattle.rollout_rules.specs.declared.op.Entry.{Entry};
ghost use Rattle.wan_edge.specs.Frames.{Command, IsCommand};
ghost use Rattle.rollout_book.specs.Commands.{asked};
ghost use Rattle.switch_ports.specs.Stories.{LastStory, Story};
ghost use Rattle.switch_ports.specs.Views.{SessionTrace};
ghost use Rattle.switch_laws.specs.Holdings.{AreHeldAt, AreHeldAtEnd, HaveGoneOn};
ghost use Rattle.switch_laws.specs.Runs.{IsBegunCommand, RunsAt, StartsAsFound};

/// The command of each operation that a legal history has begun fits into a frame.
pub fn begun_commands_have_frames()
    ensures { (r : Rollout) (migration : ℕ) (h : History) (c : Command)
        → IsNetwork r.problem
        → IsTrue (is_valid_plan r.problem r.plan)
        → IsTrue (is_legal r.problem r.plan h)
        → migration < 2 ^ 32
        → IsBegunCommand r h c
        → IsCommand (migration, c) }
{}

/// What is listed of a legal history as in flight is begun in it, and what is begun stays so.
pub fn listed_commands_are_begun()
    ensures listed { (r : Rollout) (h : History) (switches : List ℕ)
        → IsTrue (is_legal r.problem r.plan h)
        → All (IsBegunCommand r h) (asked r switches (in_flight r.problem h)) }
    ensures stays { (r : Rollout) (h : History) (more : List Entry) (c : Command)
        → IsBegunCommand r h c
        → IsBegunCommand r (with_entries h more) c }
{}

/// Whole rounds are a story that may end there.
pub fn whole_rounds_may_be_the_last()
    ensures { (migration : ℕ) (homes : List (Option ℕ)) (commands : List Command)
        (first now : SessionTrace)
        → Story migration homes commands first now
        → LastStory migration homes commands first now }
{}

/// After a run of a legal history each item of a port's switch is held between what is settled and what
/// is begun, with the content of its number, or as an earlier migration left it. No switch goes back, and
/// what still has a pair of an earlier migration is as it was found.
pub fn switches_hold_what_stands()
    ensures held { (r : Rollout) (migration : ℕ) (homes : List (Option ℕ)) (found : History)
        (added : List Entry) (sent : List Command) (first now : SessionTrace)
        → IsNetwork r.problem
        → IsTrue (is_valid_plan r.problem r.plan)
        → IsTrue (is_legal r.problem r.plan (with_entries found added))
        → migration < 2 ^ 32
        → RunsAt r migration homes found added sent first now
        → IfSome now.port.offered
        (λ _. IfSome now.port.heard
        (λ _. IfSome now.port.held
        (AreHeldAt r migration homes first.switch (with_entries found added)))) }
    ensures since { (r : Rollout) (migration : ℕ) (homes : List (Option ℕ)) (found : History)
        (added : List Entry) (sent : List Command) (first now : SessionTrace)
        → IsNetwork r.problem
        → IsTrue (is_valid_plan r.problem r.plan)
        → IsTrue (is_legal r.problem r.plan (with_entries found added))
        → migration < 2 ^ 32
        → RunsAt r migration homes found added sent first now
        → IfSome now.port.offered
        (λ _. IfSome first.port.held
        (λ before. IfSome now.port.held (HaveGoneOn r migration homes first.switch before))) }
{}

/// Where a run ended with a whole round and left no answer half read, the next run of the migration finds
/// the port as it is to be found.
pub fn the_next_run_starts_as_found()
    ensures { (r : Rollout) (migration : ℕ) (homes : List (Option ℕ)) (found : History)
        (added : List Entry) (sent : List Command) (first now : SessionTrace)
        → IsNetwork r.problem
        → IsTrue (is_valid_plan r.problem r.plan)
        → IsTrue (is_legal r.problem r.plan (with_entries found added))
        → migration < 2 ^ 32
        → RunsAt r migration homes found added sent first now
        → Story migration homes sent first now
        → now.stream.kept ≡ []
        → IsTrue (is_some now.port.offered)
        → IsTrue (is_some now.port.heard)
        → StartsAsFound r migration homes (with_entries found added) now }
{}

/// Once every operation is settled, each item of a port's switch is held at its target.
pub fn finished_switches_hold_the_target()
    ensures { (r : Rollout) (migration : ℕ) (homes : List (Option ℕ)) (found : History)
        (added : List Entry) (sent : List Command) (first now : SessionTrace)
        → IsNetwork r.problem
        → IsTrue (is_valid_plan r.problem r.plan)
        → IsTrue (is_legal r.problem r.plan (with_entries found added))
        → migration < 2 ^ 32
        → IsTrue (is_finished r.problem r.plan (with_entries found added))
        → RunsAt r migration homes found added sent first now
        → IfSome now.port.offered
        (λ _. IfSome now.port.heard
        (λ _. IfSome now.port.held (AreHeldAtEnd r migration homes first.switch found.start))) }
{}
