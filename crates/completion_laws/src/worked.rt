//! Worked examples: which ports are ready for a run and which have answered all, what rounds of others may
//! settle, and which notes say that a round turned.
ghost use Rattle.std.specs.Prelude.{[], ◌∷◌};
ghost use Rattle.rollout_rules.specs.Worked.{fresh};
ghost use Rattle.shared_book.specs.declared.note.What.TheVariants as what;
ghost use Rattle.shared_book.specs.Worked.{says};
ghost use Rattle.switch_laws.specs.Worked.{answering, both_at_first, silent, two_flows, unused};
ghost use Rattle.completion_laws.specs.Answering.{HasAnswered, IsReady};
ghost use Rattle.controller_run.specs.Shifts.{HasTurned};
ghost use Rattle.completion_laws.specs.Turns.{EndsNoneAt, OthersEndElsewhere};
ghost use Rattle.completion_laws.specs.Worked.{begins_first, begun_one, one_sent, promptly, settles_first};

/// One that was never used; not one that doesn't call itself prompt, nor one of which an answer is still to
/// come.
pub fn a_prompt_port_that_was_never_used_is_ready()
    ensures unused { IsReady two_flows 4 both_at_first (fresh []) (promptly unused) }
    ensures not_prompt { IsReady two_flows 4 both_at_first (fresh []) unused → ⊥ }
    ensures to_come { IsReady two_flows 4 both_at_first begun_one (promptly silent) → ⊥ }
{}

/// Once its one answer was heard, and not before.
pub fn a_port_has_answered_what_was_heard()
    ensures answering { HasAnswered one_sent (promptly answering) }
    ensures silent { HasAnswered one_sent (promptly silent) → ⊥ }
{}

/// What is at home at other switches, and nothing of these. The seat's own notes may settle anything.
pub fn others_may_settle_what_is_at_home_elsewhere()
    ensures elsewhere { EndsNoneAt both_at_first (7 ∷ []) settles_first }
    ensures here { EndsNoneAt both_at_first (0 ∷ []) settles_first → ⊥ }
    ensures begins { EndsNoneAt both_at_first (0 ∷ []) begins_first }
    ensures others { OthersEndElsewhere both_at_first (0 ∷ []) 0 (begins_first ∷ settles_first ∷ [])
        → ⊥ }
    ensures own { OthersEndElsewhere both_at_first (0 ∷ []) 1 (begins_first ∷ settles_first ∷ []) }
{}

/// A round of the book is one that turned.
pub fn a_note_says_that_a_round_turned()
    ensures turned { HasTurned (says 0 0 what.Work ∷ begins_first ∷ []) }
    ensures none { HasTurned (says 0 0 what.Work ∷ []) → ⊥ }
{}
