//! Worked examples, in migration 4 of two flows: what a switch may hold whose one command went out, and what
//! may be at a port that was never used.
ghost use Rattle.std.specs.Prelude.{◌≡◌, [], ◌∷◌};
ghost use Rattle.rollout_rules.specs.Worked.{begin_of, fresh};
ghost use Rattle.wan_edge.specs.Frames.{answer_bytes};
ghost use Rattle.wan_edge.specs.Switches.{after_command, after_commands, holding_nothing};
ghost use Rattle.port_session.specs.Offers.{frames_of};
ghost use Rattle.switch_laws.specs.Worked.{both_at_first, first_answer, first_command, holding_with, two_flows, unused};
ghost use Rattle.completion_laws.specs.Untold.{IsFoundWith, MayHold};
ghost use Rattle.completion_laws.specs.WorkedHoldings.{at_start, second_ahead, second_command};

/// Where nothing was heard the command may have come, or be lost.
pub fn a_silent_switch_may_hold_what_was_offered_or_not()
    ensures came { MayHold (frames_of 4 (first_command ∷ [])) [] holding_nothing
        (after_command holding_nothing (4, first_command)) }
    ensures lost { MayHold (frames_of 4 (first_command ∷ [])) [] holding_nothing holding_nothing }
{}

/// Once its answer was heard the command has come.
pub fn a_switch_that_answered_holds_what_it_answered()
    ensures came { MayHold (frames_of 4 (first_command ∷ [])) (answer_bytes (4, first_answer))
        holding_nothing (after_command holding_nothing (4, first_command)) }
    ensures lost { MayHold (frames_of 4 (first_command ∷ [])) (answer_bytes (4, first_answer))
        holding_nothing holding_nothing
        → ⊥ }
{}

/// Commands may come in another order than they went out in: here the first one after the second, which is
/// then carried out.
pub fn commands_may_overtake_each_other()
    ensures may { MayHold (frames_of 4 second_ahead) [] at_start
        (after_commands at_start ((4, first_command) ∷ (4, second_command) ∷ [])) }
    ensures is { after_commands at_start ((4, first_command) ∷ (4, second_command) ∷ []) 0
        ≡ holding_with 4 2 (0 ∷ 2 ∷ 0 ∷ []) }
{}

/// What was never offered hasn't come.
pub fn a_switch_holds_nothing_that_was_not_offered()
    ensures { MayHold [] [] holding_nothing (after_command holding_nothing (4, first_command)) → ⊥ }
{}

/// A command of an earlier connection may be on its way where its operation is begun, and not before.
pub fn begun_commands_may_be_on_their_way()
    ensures begun { IsFoundWith two_flows 4 both_at_first (fresh (begin_of 0 1 ∷ [])) unused
        (frames_of 4 (first_command ∷ [])) holding_nothing }
    ensures unbegun { IsFoundWith two_flows 4 both_at_first (fresh []) unused
        (frames_of 4 (first_command ∷ [])) holding_nothing
        → ⊥ }
{}
