//! Worked examples: each function states a fact of a small case.
ghost use Rattle.std.specs.Prelude.{◌≡◌, [], ◌∷◌, codes, None, Some, true, false};
ghost use Rattle.rollout_rules.specs.Agent.{is_next_command, pair_of};
ghost use Rattle.rollout_rules.specs.Named.{one, one_plan};
ghost use Rattle.held_service.specs.HeldText.{greatest_of, last_line, line_by, told_count};
ghost use Rattle.held_service.specs.Hearing.{lacking};
ghost use Rattle.held_service.specs.Noting.{no_notes, noted_at, untold, with_answers};
ghost use Rattle.wan_edge.specs.Frames.{command_bytes};
ghost use Rattle.held_service.specs.Questions.{asked_homes, asked_switches, has_items, items_at, question};

/// Number 1 of a later migration is applied, and number 0 of one is not; nor is number 0 of the same migration, or
/// of an earlier one.
pub fn number_0_of_a_later_migration_is_not_applied()
    ensures first { is_next_command (pair_of 2 5) (pair_of 3 1) ≡ true }
    ensures none { is_next_command (pair_of 2 5) (pair_of 3 0) ≡ false }
    ensures same { is_next_command (pair_of 2 5) (pair_of 2 0) ≡ false }
    ensures earlier { is_next_command (pair_of 2 5) (pair_of 1 0) ≡ false }
{}

/// A question of migration 7 about item 4: the kind, the migration, the item, number 0, scale 1, and one rate, 0.
pub fn a_question_names_its_migration()
    ensures { command_bytes (question 7 4)
        ≡ 0x4D
        ∷ 0 ∷ 0 ∷ 0 ∷ 7
        ∷ 0 ∷ 0 ∷ 0 ∷ 4
        ∷ 0 ∷ 0 ∷ 0 ∷ 0
        ∷ 0 ∷ 0 ∷ 0 ∷ 1
        ∷ 1
        ∷ 0 ∷ 0 ∷ 0 ∷ 0 ∷ 0 ∷ 0 ∷ 0 ∷ 0
        ∷ [] }
{}

/// Switch 0 is asked about items 0 and 2, switch 1 about none, and switch 2 about item 3. Nobody is asked
/// about item 1.
pub fn each_home_is_asked_about_its_own_items()
    ensures first { items_at (Some 0 ∷ None ∷ Some 0 ∷ Some 2 ∷ []) 0 ≡ 0 ∷ 2 ∷ [] }
    ensures second { has_items (Some 0 ∷ None ∷ Some 0 ∷ Some 2 ∷ []) 1 ≡ false }
    ensures third { items_at (Some 0 ∷ None ∷ Some 0 ∷ Some 2 ∷ []) 2 ≡ 3 ∷ [] }
    ensures switches { asked_switches (Some 0 ∷ None ∷ Some 0 ∷ Some 2 ∷ []) 3 ≡ 0 ∷ 2 ∷ [] }
{}

/// The flow has its one operation at A; entries that stay aren't asked about.
pub fn an_item_without_operations_is_not_asked_about()
    ensures { items_at (asked_homes one one_plan) 0 ≡ 0 ∷ [] }
{}

/// Of two answers about an item the later one stands, and what no answer tells of is asked about again.
pub fn the_last_answer_stands()
    ensures noted { noted_at
        (with_answers (no_notes 3)
        ((4, record { item = 1; held = 2 }) ∷ (5, record { item = 1; held = 0 }) ∷ []))
        1
        ≡ Some (pair_of 5 0) }
    ensures left { untold (with_answers (no_notes 3) ((4, record { item = 1; held = 2 }) ∷ []))
        (0 ∷ 1 ∷ 2 ∷ [])
        ≡ 0 ∷ 2 ∷ [] }
{}

/// Where two answers came to three questions, the port was quiet once.
pub fn a_round_that_lacks_an_answer_is_quiet_once()
    ensures lacks { lacking 3 2 ≡ 1 }
    ensures full { lacking 3 3 ≡ 0 }
{}

/// The line of an item that switch 0, A, holds by the second operation of migration 7.
pub fn the_line_of_an_item()
    ensures line { line_by one 0 0 (Some (pair_of 7 2)) 3
        ≡ codes "item 0 \"A\": migration 7, number 2 of 3\n" }
    ensures none { line_by one 0 0 None 3 ≡ [] }
{}

/// Of two items that were told the greatest migration is 9.
pub fn the_last_line_counts_what_was_told()
    ensures count { told_count (Some (pair_of 7 2) ∷ None ∷ Some (pair_of 9 0) ∷ []) ≡ 2 }
    ensures greatest { greatest_of (Some (pair_of 7 2) ∷ None ∷ Some (pair_of 9 0) ∷ []) 3 ≡ 9 }
    ensures line { last_line 2 9 ≡ codes "held: items 2, greatest migration 9\n" }
{}
