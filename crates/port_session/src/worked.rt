//! Worked examples: facts of a few bytes, and proving one is computing it.
ghost use Rattle.std.specs.Prelude.{◌≡◌, [], ◌∷◌, Some, take};
ghost use Rattle.wan_edge.specs.Frames.{answer_bytes};
ghost use Rattle.port_session.specs.Reading.{answers_of};
ghost use Rattle.port_session.specs.Sessions.{EndsAnswer};

/// Of two answers that were read, the one of migration 7 is told.
pub fn an_answer_of_another_migration_tells_nothing()
    ensures { answers_of 7
        ((6, record { item = 3; held = 9 }) ∷ (7, record { item = 5; held = 1 }) ∷ [])
        ≡ record { item = 5; held = 1 } ∷ [] }
{}

/// Where the last byte of an answer comes, after the twelve that were kept, an answer ends.
pub fn the_last_byte_ends_an_answer()
    ensures { EndsAnswer (take 12 (answer_bytes (7, record { item = 5; held = 1 }))) (Some [])
        (Some (1 ∷ [])) }
{}

/// Twelve bytes end none.
pub fn twelve_bytes_end_no_answer()
    ensures { EndsAnswer [] (Some [])
        (Some (take 12 (answer_bytes (7, record { item = 5; held = 1 }))))
        → ⊥ }
{}
