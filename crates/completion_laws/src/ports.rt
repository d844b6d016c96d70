//! What comes of ports that answer all.
ghost use Rattle.std.specs.Prelude.{◌≡◌, ◌≢◌, ℕ, ◌<◌, ◌^◌, List, Option, map, IsTrue};
ghost use Rattle.rollout_rules.specs.Wan.{Rollout};
ghost use Rattle.rollout_rules.specs.Network.{IsNetwork};
ghost use Rattle.rollout_rules.specs.Valid.{is_valid_plan};
ghost use Rattle.rollout_rules.specs.History.{History};
ghost use Rattle.rollout_rules.specs.Legal.{is_legal};
ghost use Rattle.rollout_rules.specs.World.{in_flight};
ghost use Rattle.wan_edge.specs.Frames.{Answer};
ghost use Rattle.rollout_book.specs.Commands.{asked};
ghost use Rattle.switch_ports.specs.Hearing.{HearsOut};
ghost use Rattle.switch_ports.specs.Outboxes.{own};
ghost use Rattle.switch_ports.specs.Offering.{OffersAll};
ghost use Rattle.switch_ports.specs.Views.{SessionTrace};
ghost use Rattle.completion_laws.specs.Answering.{IsReady, IsUpToDate, answer_for};

/// A port that is ready for a run has answered all, and what its switch holds is on the way after the
/// history found.
pub fn a_ready_port_is_up_to_date()
    ensures { (r : Rollout) (migration : ℕ) (homes : List (Option ℕ)) (found : History)
        (first : SessionTrace)
        → IsReady r migration homes found first
        → IsUpToDate r migration homes found first }
{}

/// Where a port is up to date, and a round offers it its own among the commands of what is in flight, it
/// tells the answer to each of them, of just its number, and nothing else; and then it is up to date again.
pub fn a_port_that_is_up_to_date_answers_each_command()
    ensures { (r : Rollout) (migration : ℕ) (homes : List (Option ℕ)) (h : History)
        (switches : List ℕ) (before offered now : SessionTrace) (told : List Answer)
        → IsNetwork r.problem
        → IsTrue (is_valid_plan r.problem r.plan)
        → IsTrue (is_legal r.problem r.plan h)
        → migration < 2 ^ 32
        → IsUpToDate r migration homes h before
        → OffersAll migration (own homes before.switch (asked r switches (in_flight r.problem h)))
        before offered
        → HearsOut migration homes offered told now
        → (told
        ≡ map answer_for (own homes before.switch (asked r switches (in_flight r.problem h))))
        × IsUpToDate r migration homes h now }
{}
