//! Runs that finish.
ghost use Rattle.std.specs.Prelude.{◌≡◌, ◌++◌, ℕ, List, [], ◌∷◌, IsPermutation, IsTrue, map, nat_eq};
ghost use Rattle.std.specs.List.{IsDistinct};
ghost use Rattle.rollout_rules.specs.Legal.{may_begin};
ghost use Rattle.rollout_rules.specs.Release.{is_held_back, next_op, view_of};
ghost use Rattle.wan_edge.specs.Streams.{Rose};
ghost use Rattle.rollout_book.specs.JournaledRounds.{Journaled};
ghost use Rattle.switch_ports.specs.Berths.{FleetPorts};
ghost use Rattle.switch_ports.specs.Hands.{first_sessions};
ghost use Rattle.port_session.specs.Sessions.{SessionView};
ghost use Rattle.shared_book.specs.Histories.{Opening, history_of};
ghost use Rattle.shared_book.specs.Legal.{is_still};
ghost use Rattle.shared_book.specs.Homes.{homes_of};
ghost use Rattle.controller_run.specs.Ran.{Ran};
ghost use Rattle.controller_run.specs.Shifts.{Shift};
ghost use Rattle.controller_run.specs.Together.{given_ports};
ghost use Rattle.controller_run.specs.declared.end.RunEnd.{RunEnd};
ghost use Rattle.controller_run.specs.declared.end.RunEnd.TheVariants as run;
ghost use Rattle.completion_laws.specs.Faults.{IsWithoutFault};
ghost use Rattle.completion_laws.specs.Finishing.{AreServedApart, EndsOrIsExcused, FinishesOrIsExcused, FinishesOrWants, IsProvided, IsServed, IsSure};

use disk_model::Disk;
use wan_edge::Port;

/// A run over ports that are ready, with a round for each operation that isn't settled and a policy that
/// holds nothing back, finishes, or ends for lack of memory or because the disk or a port failed: its rounds
/// aren't spent, no answer stops it, and nothing is held.
pub fn a_run_over_ready_ports_stops_for_an_excuse<D: Disk, T: Port>()
    ensures { (o : Opening) (from count migration rounds : ℕ) (homes : List ℕ)
        (before : FleetPorts T) (end : RunEnd) (book : Journaled D) (now : FleetPorts T)
        (ran : Ran D.told T.told o from count migration rounds homes before end book now)
        → IsSure T.told o migration (homes_of o.rollout.problem) rounds (first_sessions ran.berths)
        → FinishesOrIsExcused end }
{}

/// Whatever its policy, a run over ports that are ready, with a round for each operation that isn't settled,
/// finishes, or is held by its policy, or ends for such an excuse.
pub fn a_run_over_ready_ports_ends_for_an_excuse<D: Disk, T: Port>()
    ensures { (o : Opening) (from count migration rounds : ℕ) (homes : List ℕ)
        (before : FleetPorts T) (end : RunEnd) (book : Journaled D) (now : FleetPorts T)
        (ran : Ran D.told T.told o from count migration rounds homes before end book now)
        → IsProvided T.told o migration (homes_of o.rollout.problem) rounds
        (first_sessions ran.berths)
        → EndsOrIsExcused end }
{}

/// So it is over ports that have answered all that went over them by now, whatever that was, where their
/// switches hold what is on the way after the history found.
pub fn a_run_over_ports_that_have_answered_ends_for_an_excuse<D: Disk, T: Port>()
    ensures { (o : Opening) (from count migration rounds : ℕ) (homes : List ℕ)
        (before : FleetPorts T) (end : RunEnd) (book : Journaled D) (now : FleetPorts T)
        (ran : Ran D.told T.told o from count migration rounds homes before end book now)
        → IsServed T.told o migration (homes_of o.rollout.problem) rounds
        (first_sessions ran.berths)
        → EndsOrIsExcused end }
{}

/// So where no count of faults has risen such a run finishes, or ends for lack of memory.
pub fn a_run_over_ready_ports_finishes<D: Disk, T: Port>()
    ensures { (o : Opening) (from count migration rounds : ℕ) (homes : List ℕ)
        (before : FleetPorts T) (end : RunEnd) (book : Journaled D) (now : FleetPorts T)
        (ran : Ran D.told T.told o from count migration rounds homes before end book now)
        → IsSure T.told o migration (homes_of o.rollout.problem) rounds (first_sessions ran.berths)
        → IsWithoutFault T.told (Rose count (D.told book.disk).faults) (first_sessions ran.berths)
        now.kept
        → FinishesOrWants end }
{}

/// A run that says that the rest is held back leaves nothing in flight, and each operation that may begin
/// then is one that the policy holds back.
pub fn a_held_run_is_held_by_its_policy<D: Disk, T: Port>()
    ensures { (o : Opening) (from count migration rounds : ℕ) (homes : List ℕ)
        (before : FleetPorts T) (book : Journaled D) (now : FleetPorts T)
        (ran : Ran D.told T.told o from count migration rounds homes before run.Held book now)
        → IsTrue (is_still o.rollout.problem (history_of o ran.log))
        × ((n : ℕ)
        → IsTrue (may_begin o.rollout.problem o.rollout.plan (history_of o ran.log)
        (next_op (history_of o ran.log) n))
        → IsTrue (is_held_back o.policy
        (view_of o.rollout.problem o.rollout.plan (history_of o ran.log) n))) }
{}

/// Workers whose ports are to switches of their own, each to one, are served apart.
pub fn ports_that_are_apart_are_served_apart<T: Port>()
    ensures { (shifts : List (Shift T)) (spare opened : List (SessionView T))
        → IsPermutation opened (given_ports shifts ++ spare)
        → IsDistinct nat_eq (map (λ t. t.switch) opened)
        → AreServedApart shifts }
{}

/// The ports of a worker that is alone are served apart from all others.
pub fn one_worker_serves_apart<T: Port>()
    ensures { (shifts : List (Shift T)) (ports : List (SessionView T))
        → map (λ s. s.now.ports) shifts ≡ ports ∷ []
        → AreServedApart shifts }
{}
