//! Worked examples of what is honest, what is prompt, what becomes of a command by its fate, and when a
//! gate opens: each function states a fact of a small case, some that hold and some that fail.
ghost use Rattle.std.specs.Prelude.{◌≡◌, [], ◌∷◌, ◌++◌, true, false};
ghost use Rattle.lossy_link.specs.Gates.{crossing, have_met, inside_at};
ghost use Rattle.lossy_link.specs.Traffic.{after_sending, after_turn, no_traffic};
ghost use Rattle.lossy_link.specs.Worked.{first, first_held, lost, twice_late};
ghost use Rattle.wan_edge.specs.Frames.{answer_bytes, command_bytes};
ghost use Rattle.wan_edge.specs.Ports.{AllAnswered, AnswersHeld, AnswersInOrder, MovesByRule};
ghost use Rattle.wan_edge.specs.Switches.{Holdings, after_command, after_commands, holding_nothing};

/// A command that comes twice is one that was offered.
pub fn a_repeat_is_by_the_rule()
    ensures { MovesByRule (command_bytes first) holding_nothing
        (after_commands holding_nothing (first ∷ first ∷ [])) }
{}

pub fn a_command_that_was_never_offered_is_not_by_the_rule()
    ensures { MovesByRule [] holding_nothing (after_command holding_nothing first) → ⊥ }
{}

pub fn an_answer_above_what_is_held_is_not_honest()
    ensures { AnswersHeld (answer_bytes first_held) holding_nothing → ⊥ }
{}

pub fn an_answer_that_is_heard_twice_is_not_prompt()
    ensures { (now : Holdings)
        → AnswersInOrder holding_nothing (command_bytes first)
        (answer_bytes first_held ++ answer_bytes first_held) now
        → ⊥ }
{}

pub fn an_answer_that_was_not_heard_is_still_to_come()
    ensures { AllAnswered holding_nothing (command_bytes first) [] → ⊥ }
{}

/// A lost command changes nothing, and nothing comes back.
pub fn a_lost_command_has_no_answer()
    ensures held { (after_sending (no_traffic (lost ∷ [])) first).held ≡ holding_nothing }
    ensures waiting { (after_sending (no_traffic (lost ∷ [])) first).waiting ≡ [] }
{}

/// The first hear finds nothing, the second both answers.
pub fn two_answers_come_a_hear_late()
    ensures early { (after_turn (after_sending (no_traffic (twice_late ∷ [])) first)).back.due
        ≡ [] }
    ensures then { (after_turn (after_turn (after_sending (no_traffic (twice_late ∷ []))
        first))).back.due
        ≡ answer_bytes first_held ++ (answer_bytes first_held ++ []) }
{}

/// The first half comes in, and then the second: both are inside at once.
pub fn two_halves_inside_have_met()
    ensures { have_met (crossing false true ∷ crossing true true ∷ []) ≡ true }
{}

/// The first half has gone out when the second comes in.
pub fn a_half_that_went_out_is_not_met()
    ensures apart { have_met (crossing false true ∷ crossing false false ∷ crossing true true ∷ [])
        ≡ false }
    ensures inside { inside_at (crossing false true
        ∷ crossing false false
        ∷ crossing true true
        ∷ [])
        ≡ record { first = false; second = true } }
{}

/// Once they have met, going out closes nothing.
pub fn a_gate_that_was_opened_stays_open()
    ensures { have_met (crossing false true ∷ crossing true true ∷ crossing false false ∷ [])
        ≡ true }
{}
