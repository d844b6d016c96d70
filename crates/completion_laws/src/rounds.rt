//! Rounds over ports that answer all.
ghost use Rattle.std.specs.Prelude.{◌≡◌, ℕ, ◌+◌, ◌<◌, ◌≤◌, ◌^◌, ◌∷◌, All, List, Option, IsTrue};
ghost use Rattle.rollout_rules.specs.Network.{IsNetwork};
ghost use Rattle.rollout_rules.specs.Valid.{is_valid_plan};
ghost use Rattle.rollout_rules.specs.Legal.{unsettled};
ghost use Rattle.shared_book.specs.declared.call_reply.Halt.{Halt};
ghost use Rattle.shared_book.specs.declared.call_reply.Wake.TheVariants as wake;
ghost use Rattle.shared_book.specs.Histories.{Opening, history_of};
ghost use Rattle.shared_book.specs.Legal.{is_legal_shared};
ghost use Rattle.shared_book.specs.Homes.{homes_of};
ghost use Rattle.switch_ports.specs.Views.{view};
ghost use Rattle.controller_run.specs.Promises.{StopsNothing, switches_of};
ghost use Rattle.controller_run.specs.Serving.{AreWhole, Moment, Served};
ghost use Rattle.controller_run.specs.Working.{Standing};
ghost use Rattle.completion_laws.specs.Answering.{IsUpToDate};
ghost use Rattle.completion_laws.specs.Faults.{IsExcused};
ghost use Rattle.completion_laws.specs.Turns.{OthersEndElsewhere};

use wan_edge::Port;

/// Over prompt ports that have answered all, each round of a worker which lists a command settles at least
/// one operation: so many fewer are unsettled as rounds were spent. After each round the ports have
/// answered all again.
pub fn each_round_settles_an_operation<T: Port>()
    ensures { (o : Opening) (seat : ℕ) (joined : List ℕ) (migration : ℕ) (homes : List (Option ℕ))
        (rounds : ℕ) (before : Standing T) (moments : List (Moment T)) (at : Moment T)
        → IsNetwork o.rollout.problem
        → IsTrue (is_valid_plan o.rollout.problem o.rollout.plan)
        → migration < 2 ^ 32
        → homes ≡ homes_of o.rollout.problem
        → IsTrue (is_legal_shared o before.seen)
        → StopsNothing seat before.seen
        → All (λ t. IsUpToDate o.rollout migration homes (history_of o before.seen)
        (view T.told t))
        before.ports
        → AreWhole T.told o
        (seat ∷ joined) seat migration homes rounds (record { stands = before; left = rounds })
        moments at
        → OthersEndElsewhere homes (switches_of before.ports) seat at.stands.seen
        → (unsettled o.rollout.problem o.rollout.plan (history_of o at.stands.seen) + rounds
        ≤ unsettled o.rollout.problem o.rollout.plan (history_of o before.seen) + at.left)
        × All (λ t. IsUpToDate o.rollout migration homes (history_of o at.stands.seen)
        (view T.told t))
        at.stands.ports }
{}

/// So a worker that has at least as many rounds as operations are unsettled asks that all stop only where
/// memory ran out, or where the disk or a port failed: no answer of such ports is amiss, and no rounds are
/// spent in vain.
pub fn a_worker_stops_for_an_excuse<T: Port>()
    ensures { (o : Opening) (seat : ℕ) (joined : List ℕ) (migration : ℕ) (homes : List (Option ℕ))
        (rounds : ℕ) (before : Standing T) (halt : Halt) (now : Standing T)
        → IsNetwork o.rollout.problem
        → IsTrue (is_valid_plan o.rollout.problem o.rollout.plan)
        → migration < 2 ^ 32
        → homes ≡ homes_of o.rollout.problem
        → IsTrue (is_legal_shared o before.seen)
        → StopsNothing seat before.seen
        → All (λ t. IsUpToDate o.rollout migration homes (history_of o before.seen) (view T.told t))
        before.ports
        → unsettled o.rollout.problem o.rollout.plan (history_of o before.seen) ≤ rounds
        → Served T.told o (seat ∷ joined) seat migration homes rounds before (wake.Stopped halt) now
        → OthersEndElsewhere homes (switches_of before.ports) seat now.seen
        → halt.seat ≡ seat
        → IsExcused halt.cause }
{}
