//! Worked examples of what a takeover must find.
ghost use Rattle.std.specs.Prelude.{None};
ghost use Rattle.switch_laws.specs.Worked.{two_flows};
ghost use Rattle.swanroll_top.specs.Worked.{in_rounds, itself, never_used, unanswered, waiting_at_first};
ghost use Rattle.takeover_top.specs.ReadyToTake.{IsReadyToTake};
ghost use Rattle.takeover_top.specs.WorkedTakeovers.{ahead, none_settled};

/// For two flows of one switch, with four operations, in migration 4: a fleet with a prompt port there whose switch
/// holds nothing, and four rounds. Three are too few, the fleet must tell what waits, no answer may be still to
/// come, and no pair of migration 5 may be held.
pub fn a_fleet_is_ready_to_be_taken_over()
    ensures ready { IsReadyToTake itself (in_rounds 4) (waiting_at_first never_used) two_flows
        none_settled }
    ensures few_rounds { IsReadyToTake itself (in_rounds 3) (waiting_at_first never_used) two_flows
        none_settled
        → ⊥ }
    ensures untold { IsReadyToTake itself (in_rounds 4) None two_flows none_settled → ⊥ }
    ensures to_come { IsReadyToTake itself (in_rounds 4) (waiting_at_first unanswered) two_flows
        none_settled
        → ⊥ }
    ensures later { IsReadyToTake itself (in_rounds 4) (waiting_at_first ahead) two_flows
        none_settled
        → ⊥ }
{}
