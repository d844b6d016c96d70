//! The worked examples: facts of a few commands, and proving one is computing it.
ghost use Rattle.std.specs.Prelude.{◌≡◌, [], ◌∷◌, Some, None};
ghost use Rattle.wan_edge.specs.Switches.{holding_nothing};
ghost use Rattle.fenced_agent.specs.Frames.{floored_bytes};
ghost use Rattle.fenced_agent.specs.Agents.{after_all_termed, answers_to_termed};
ghost use Rattle.fenced_agent.specs.Worked.{first_answer, floored, four_commands, probe, termed};

/// A probe of term 2 fences the switch off from a controller without a term, and from one of term 1.
pub fn a_fenced_agent_carries_out_its_own_term_alone()
    ensures answers { answers_to_termed (record { floor = 0; held = holding_nothing }) four_commands
        ≡ floored (Some 2) (first_answer 0) ∷ floored None (first_answer 0)
        ∷ floored (Some 2) (first_answer 1) ∷ floored (Some 2) (first_answer 1) ∷ [] }
    ensures floor { (after_all_termed (record { floor = 0; held = holding_nothing })
        four_commands).floor ≡ 2 }
    ensures probed { (after_all_termed (record { floor = 0; held = holding_nothing })
        (termed (Some 2) probe ∷ [])).held 0 ≡ holding_nothing 0 }
{}

/// After it stands the answer as it is without terms.
pub fn the_floor_stands_in_front_of_an_answer()
    ensures with_floor { floored_bytes (floored (Some 2) (first_answer 1))
        ≡ 0x46 ∷ 0 ∷ 0 ∷ 0 ∷ 2 ∷ 0x4E ∷ 0 ∷ 0 ∷ 0 ∷ 0 ∷ 0 ∷ 0 ∷ 0 ∷ 0 ∷ 0 ∷ 0 ∷ 0 ∷ 1 ∷ [] }
    ensures without { floored_bytes (floored None (first_answer 0))
        ≡ 0x4E ∷ 0 ∷ 0 ∷ 0 ∷ 0 ∷ 0 ∷ 0 ∷ 0 ∷ 0 ∷ 0 ∷ 0 ∷ 0 ∷ 0 ∷ [] }
{}
