//! The worked examples: facts of a few bytes, and proving one is computing it.
ghost use Rattle.std.specs.Prelude.{◌≡◌, [], ◌∷◌, ◌++◌, None, Some, false, true};
ghost use Rattle.wan_edge.specs.Frames.{answer_bytes};
ghost use Rattle.fenced_agent.specs.Frames.{floored_bytes};
ghost use Rattle.fenced_agent.specs.Worked.{first_answer, first_command, floored};
ghost use Rattle.fenced_ports.specs.Framing.{with_terms};
ghost use Rattle.fenced_ports.specs.Sieves.{after_bytes, first_sifting};

/// A controller of term 2 is handed the answer after floor 2. The one after floor 1 tells nothing, and after
/// floor 3 nothing is read.
pub fn an_answer_is_handed_on_behind_its_own_floor()
    ensures own { after_bytes 2 first_sifting (floored_bytes (floored (Some 2) (first_answer 1)))
        ≡ record {
          at = 0;
          floor = 2;
          plain = answer_bytes (first_answer 1);
          lows = 0;
          broken = false;
        } }
    ensures lower { after_bytes 2 first_sifting (floored_bytes (floored (Some 1) (first_answer 1)))
        ≡ record { at = 0; floor = 1; plain = []; lows = 1; broken = false } }
    ensures above { (after_bytes 2 first_sifting
        (floored_bytes (floored (Some 3) (first_answer 1)))).broken
        ≡ true }
    ensures none { (after_bytes 2 first_sifting
        (floored_bytes (floored None (first_answer 1)))).broken
        ≡ true }
{}

/// After a lower floor comes the answer to a command of this term.
pub fn a_late_answer_is_passed_over()
    ensures { (after_bytes 2 first_sifting
        (floored_bytes (floored (Some 1) (first_answer 0))
        ++ floored_bytes (floored (Some 2) (first_answer 1)))).plain
        ≡ answer_bytes (first_answer 1) }
{}

/// After either floor a byte that begins no answer is handed on.
pub fn a_byte_that_begins_no_answer_is_handed_on()
    ensures own { (after_bytes 2 first_sifting (0x46 ∷ 0 ∷ 0 ∷ 0 ∷ 2 ∷ 0x46 ∷ [])).plain
        ≡ 0x46 ∷ [] }
    ensures lower { (after_bytes 2 first_sifting (0x46 ∷ 0 ∷ 0 ∷ 0 ∷ 1 ∷ 0x46 ∷ [])).plain
        ≡ 0x46 ∷ [] }
{}

/// The term stands in front of each command.
pub fn a_command_goes_out_behind_the_term()
    ensures { with_terms 2 (first_command 1 ∷ [])
        ≡ 0x46 ∷ 0 ∷ 0 ∷ 0 ∷ 2 ∷ 0x4D ∷ 0 ∷ 0 ∷ 0 ∷ 0 ∷ 0 ∷ 0 ∷ 0 ∷ 0 ∷ 0 ∷ 0 ∷ 0 ∷ 1 ∷ 0 ∷ 0 ∷ 0
        ∷ 1 ∷ 1 ∷ 0 ∷ 0 ∷ 0 ∷ 0 ∷ 0 ∷ 0 ∷ 0 ∷ 0 ∷ [] }
{}
