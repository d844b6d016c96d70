//! Runs that no fault stops.
ghost use Rattle.std.specs.Prelude.{ℕ, List, Option};
ghost use Rattle.wan_edge.specs.Streams.{Rose};
ghost use Rattle.port_session.specs.Sessions.{SessionView};
ghost use Rattle.shared_book.specs.declared.note.Cause.{Cause};
ghost use Rattle.shared_book.specs.declared.note.Written.{Written};
ghost use Rattle.shared_book.specs.Histories.{Opening};
ghost use Rattle.controller_run.specs.Causes.{HasCause};
ghost use Rattle.completion_laws.specs.Faults.{IsNoFault, IsWithoutFault};

use wan_edge::Port;

/// Where no count of faults has risen, what a run was stopped by is no failure of its disk or of a port.
pub fn a_run_without_faults_is_stopped_by_none<T: Port>()
    ensures { (o : Opening) (migration : ℕ) (homes : List (Option ℕ)) (rounds count later : ℕ)
        (log : List Written) (opened : List (SessionView T)) (kept : ℕ → Option T) (why : Cause)
        → IsWithoutFault T.told (Rose count later) opened kept
        → HasCause T.told o migration homes rounds (Rose count later) log opened kept why
        → IsNoFault why }
{}
