//! What a switch does with a command.
ghost use Rattle.std.specs.Prelude.{◌≡◌, Bool, true, false, [], ◌∷◌};
ghost use Rattle.rollout_rules.specs.Agent.{pair_of, is_at_most, nothing_held, is_next_command, held_after};

/// Also the first one, where nothing is held.
pub fn a_switch_applies_the_next_command()
    ensures first { held_after nothing_held (pair_of 0 1) (0 ∷ 3 ∷ []) ≡ record { held = pair_of 0 1; content = 0 ∷ 3 ∷ [] } }
    ensures second { held_after (record { held = pair_of 0 1; content = 0 ∷ [] }) (pair_of 0 2) (1 ∷ []) ≡ record { held = pair_of 0 2; content = 1 ∷ [] } }
    ensures of_its_migration { held_after (record { held = pair_of 3 1; content = 0 ∷ [] }) (pair_of 3 2) (1 ∷ []) ≡ record { held = pair_of 3 2; content = 1 ∷ [] } }
{}

/// Of the operation last applied, or of one before it.
pub fn a_switch_ignores_a_repeat()
    ensures last { held_after (record { held = pair_of 0 2; content = 1 ∷ [] }) (pair_of 0 2) (5 ∷ []) ≡ record { held = pair_of 0 2; content = 1 ∷ [] } }
    ensures earlier { held_after (record { held = pair_of 0 2; content = 1 ∷ [] }) (pair_of 0 1) (0 ∷ []) ≡ record { held = pair_of 0 2; content = 1 ∷ [] } }
    ensures none { held_after nothing_held (pair_of 0 0) (1 ∷ []) ≡ nothing_held }
{}

/// A command may overtake the one before it.
pub fn a_switch_ignores_a_later_command()
    ensures { held_after nothing_held (pair_of 0 2) (1 ∷ []) ≡ nothing_held }
{}

/// With any operation from the first on: what an earlier migration had applied is settled at its start.
pub fn a_later_migration_takes_over()
    ensures first { held_after (record { held = pair_of 1 5; content = 0 ∷ [] }) (pair_of 2 1) (1 ∷ []) ≡ record { held = pair_of 2 1; content = 1 ∷ [] } }
    ensures past_a_start { held_after (record { held = pair_of 1 5; content = 0 ∷ [] }) (pair_of 4 3) (1 ∷ []) ≡ record { held = pair_of 4 3; content = 1 ∷ [] } }
    ensures untouched { is_next_command (pair_of 0 0) (pair_of 2 1) ≡ true }
    ensures no_operation { held_after (record { held = pair_of 1 5; content = 0 ∷ [] }) (pair_of 2 0) (1 ∷ []) ≡ record { held = pair_of 1 5; content = 0 ∷ [] } }
{}

/// Though its number be the next, or a higher one.
pub fn a_switch_ignores_a_late_command_of_an_earlier_migration()
    ensures next_number { held_after (record { held = pair_of 2 1; content = 1 ∷ [] }) (pair_of 1 2) (9 ∷ []) ≡ record { held = pair_of 2 1; content = 1 ∷ [] } }
    ensures higher_number { held_after (record { held = pair_of 2 1; content = 1 ∷ [] }) (pair_of 1 6) (9 ∷ []) ≡ record { held = pair_of 2 1; content = 1 ∷ [] } }
    ensures same_number { is_next_command (pair_of 2 0) (pair_of 1 1) ≡ false }
{}

/// The migration decides, and then the number.
pub fn pairs_are_ordered_by_migration_and_then_number()
    ensures equal { is_at_most (pair_of 1 2) (pair_of 1 2) ≡ true }
    ensures lower_number { is_at_most (pair_of 1 1) (pair_of 1 2) ≡ true }
    ensures higher_number { is_at_most (pair_of 1 3) (pair_of 1 2) ≡ false }
    ensures earlier { is_at_most (pair_of 1 9) (pair_of 2 0) ≡ true }
    ensures later { is_at_most (pair_of 2 0) (pair_of 1 9) ≡ false }
{}
