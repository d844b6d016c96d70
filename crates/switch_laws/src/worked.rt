//! Worked examples, in migration 4 of two flows: what a switch may hold and may not, what may come to it,
//! a port that starts as found, and a run.
ghost use Rattle.std.specs.Prelude.{[], ◌∷◌};
ghost use Rattle.rollout_rules.specs.Agent.{nothing_held};
ghost use Rattle.rollout_rules.specs.Worked.{fresh, op_of};
ghost use Rattle.wan_edge.specs.Switches.{holding_nothing};
ghost use Rattle.rollout_book.specs.Commands.{command_of};
ghost use Rattle.switch_laws.specs.Holdings.{IsHeldAt, IsHeldAtEnd};
ghost use Rattle.switch_laws.specs.Runs.{MayCome, RunsAt, StartsAsFound};
ghost use Rattle.switch_laws.specs.Worked.{answering, begun_and_done, both_at_first, first_command, holding_with, left_by_third, port_of, silent, two_flows, under_way, unused};

/// Of a flow whose first operation is done and whose second is in flight, each with its content; at number 0
/// none is asked for.
pub fn a_switch_holds_what_is_settled_or_in_flight()
    ensures settled { IsHeldAt two_flows 4 under_way 0 (holding_with 4 1 (0 ∷ 0 ∷ 2 ∷ [])) }
    ensures in_flight { IsHeldAt two_flows 4 under_way 0 (holding_with 4 2 (0 ∷ 2 ∷ 0 ∷ [])) }
    ensures nothing { IsHeldAt two_flows 0 (fresh []) 0 nothing_held }
{}

/// With number 3, which isn't begun.
pub fn a_switch_holds_nothing_above_what_is_begun()
    ensures { IsHeldAt two_flows 4 under_way 0 (holding_with 4 3 (0 ∷ 0 ∷ 2 ∷ [])) → ⊥ }
{}

/// With number 0, after which one operation is settled.
pub fn a_switch_holds_nothing_below_what_is_settled()
    ensures { IsHeldAt two_flows 4 under_way 0 (holding_with 4 0 (2 ∷ 0 ∷ 0 ∷ [])) → ⊥ }
{}

/// With number 1, and what operation 2 brings.
pub fn a_switch_holds_no_other_content()
    ensures { IsHeldAt two_flows 4 under_way 0 (holding_with 4 1 (0 ∷ 2 ∷ 0 ∷ [])) → ⊥ }
{}

/// Whatever it is, where nothing is settled; a pair of a later migration never.
pub fn a_switch_holds_what_an_earlier_migration_left()
    ensures untouched { IsHeldAt two_flows 4 under_way 1 (holding_with 3 7 (5 ∷ [])) }
    ensures touched { IsHeldAt two_flows 4 under_way 0 (holding_with 3 7 (5 ∷ [])) → ⊥ }
    ensures later { IsHeldAt two_flows 4 under_way 0 (holding_with 5 1 (0 ∷ 0 ∷ 2 ∷ [])) → ⊥ }
{}

/// With the last of three operations, or with none to come after the start.
pub fn a_switch_ends_at_the_target()
    ensures moved { IsHeldAtEnd two_flows 4 [] 0 (holding_with 4 3 (0 ∷ 0 ∷ 2 ∷ [])) }
    ensures under_way { IsHeldAtEnd two_flows 4 [] 0 (holding_with 4 2 (0 ∷ 2 ∷ 0 ∷ [])) → ⊥ }
    ensures other_content { IsHeldAtEnd two_flows 4 [] 0 (holding_with 4 3 (0 ∷ 2 ∷ 0 ∷ [])) → ⊥ }
    ensures left { IsHeldAtEnd two_flows 4 (3 ∷ []) 0 (holding_with 3 7 (5 ∷ [])) }
    ensures not_moved { IsHeldAtEnd two_flows 4 [] 0 (holding_with 3 7 (5 ∷ [])) → ⊥ }
{}

/// What was begun, what is late: at most the pair held, of an earlier migration; and a question.
pub fn begun_and_late_commands_may_come()
    ensures begun { MayCome two_flows 4 under_way left_by_third
        (4, command_of two_flows (op_of 0 2)) }
    ensures unbegun { MayCome two_flows 4 under_way left_by_third
        (4, command_of two_flows (op_of 0 3))
        → ⊥ }
    ensures late { MayCome two_flows 4 under_way left_by_third
        (3, command_of two_flows (op_of 0 7)) }
    ensures above { MayCome two_flows 4 under_way left_by_third
        (3, command_of two_flows (op_of 0 8))
        → ⊥ }
    ensures asked { MayCome two_flows 4 under_way left_by_third
        (4, record { item = 0; number = 0; scale = 1; content = 0 ∷ [] }) }
{}

/// Of a switch that holds nothing, before the first entry; a byte of a command that was cut off doesn't do.
pub fn a_port_that_was_never_used_starts_as_found()
    ensures unused { StartsAsFound two_flows 4 both_at_first (fresh []) unused }
    ensures cut { StartsAsFound two_flows 4 both_at_first (fresh [])
        (port_of (77 ∷ []) [] holding_nothing)
        → ⊥ }
{}

/// It was begun, sent, applied, answered and done; without an answer it can't be done.
pub fn a_run_of_one_operation_is_a_run()
    ensures answered { RunsAt two_flows 4 both_at_first (fresh []) begun_and_done
        (first_command ∷ []) unused answering }
    ensures unanswered { RunsAt two_flows 4 both_at_first (fresh []) begun_and_done
        (first_command ∷ []) unused silent
        → ⊥ }
{}
