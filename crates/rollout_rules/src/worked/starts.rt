//! Starts: where a rollout may begin, and histories behind them.
ghost use Rattle.std.specs.Prelude.{◌≡◌, Bool, true, false, [], ◌∷◌};
ghost use Rattle.rollout_rules.specs.Items.{the_link, all_items};
ghost use Rattle.rollout_rules.specs.History.{started, no_start, begun, settled, flies, places_of};
ghost use Rattle.rollout_rules.specs.Room.{room};
ghost use Rattle.rollout_rules.specs.Legal.{has_settled, had_its_needs, is_sound, is_legal, is_finished};
ghost use Rattle.rollout_rules.specs.Plans.{direct_plan};
ghost use Rattle.rollout_rules.specs.Named.{one, swap, ahead, late, table_network, one_plan, ahead_plan, late_plan, table_plan};
ghost use Rattle.rollout_rules.specs.Worked.{begin_of, done_of};

/// They come before those of the list; an operation of the start isn't in flight.
pub fn operations_of_the_start_are_settled()
    ensures settled { settled (record { start = 1 ∷ []; entries = begin_of 0 2 ∷ [] }) 0 ≡ 1 }
    ensures begun { begun (record { start = 1 ∷ []; entries = begin_of 0 2 ∷ [] }) 0 ≡ 2 }
    ensures in_flight { flies (record { start = 1 ∷ []; entries = begin_of 0 2 ∷ [] }) 0 ≡ true }
    ensures at_rest { flies (started (1 ∷ [])) 0 ≡ false }
    ensures done { settled (record { start = 1 ∷ []; entries = begin_of 0 2 ∷ done_of 0 2 ∷ [] }) 0 ≡ 2 }
    ensures no_number { settled (started (1 ∷ [])) 1 ≡ 0 }
    ensures finished { is_finished one one_plan (started (1 ∷ [])) ≡ true }
{}

/// A third flow may be anywhere, and the two that change places at the same stage or next to each other.
pub fn starts_in_the_middle_of_ahead_are_sound()
    ensures at_first { is_sound ahead ahead_plan (no_start ahead) ≡ true }
    ensures halfway { is_sound ahead ahead_plan (1 ∷ 1 ∷ 1 ∷ []) ≡ true }
    ensures beside { is_sound ahead ahead_plan (0 ∷ 0 ∷ 2 ∷ []) ≡ true }
    ensures one_ahead { is_sound ahead ahead_plan (1 ∷ 0 ∷ 0 ∷ []) ≡ true }
    ensures two_ahead { is_sound ahead ahead_plan (2 ∷ 0 ∷ 0 ∷ []) ≡ false }
    ensures at_the_end { is_sound ahead ahead_plan (2 ∷ 2 ∷ 2 ∷ []) ≡ true }
{}

/// Without the entries that carry it a flow can't have moved.
pub fn a_start_whose_needs_are_not_met_is_not_sound()
    ensures exists { all_items table_network (has_settled table_network table_plan (places_of table_network (started (1 ∷ [])))) ≡ true }
    ensures needs { all_items table_network (had_its_needs table_network table_plan (places_of table_network (started (1 ∷ [])))) ≡ false }
    ensures refused { is_sound table_network table_plan (1 ∷ []) ≡ false }
    ensures with_entries { is_sound table_network table_plan (1 ∷ 0 ∷ 0 ∷ 0 ∷ 1 ∷ 1 ∷ 1 ∷ 1 ∷ 1 ∷ 1 ∷ []) ≡ true }
{}

/// The second flow of late would meet the first one on its way: 4 against 2 at stage 1.
pub fn a_start_without_room_is_not_sound()
    ensures exists { all_items late (has_settled late late_plan (places_of late (started (0 ∷ 1 ∷ [])))) ≡ true }
    ensures needs { all_items late (had_its_needs late late_plan (places_of late (started (0 ∷ 1 ∷ [])))) ≡ true }
    ensures taken { room late late_plan (places_of late (started (0 ∷ 1 ∷ []))) 1 (the_link 2) ≡ 4 }
    ensures refused { is_sound late late_plan (0 ∷ 1 ∷ []) ≡ false }
    ensures once_it_has_passed { is_sound late late_plan (3 ∷ 1 ∷ []) ≡ true }
    ensures no_plan { is_sound (swap 2 2) (direct_plan (swap 2 2)) [] ≡ false }
{}

/// The flow of the first network has one operation.
pub fn a_start_above_an_items_count_is_not_sound()
    ensures all { is_sound one one_plan (1 ∷ []) ≡ true }
    ensures exists { all_items one (has_settled one one_plan (places_of one (started (2 ∷ [])))) ≡ false }
    ensures refused { is_sound one one_plan (2 ∷ []) ≡ false }
{}

/// Its operations go on from there.
pub fn a_history_goes_on_from_a_sound_start()
    ensures next { is_legal late late_plan (record { start = 1 ∷ []; entries = begin_of 0 2 ∷ [] }) ≡ true }
    ensures again { is_legal late late_plan (record { start = 1 ∷ []; entries = begin_of 0 1 ∷ [] }) ≡ false }
    ensures start_alone { is_legal late late_plan (started (1 ∷ [])) ≡ true }
    ensures not_sound { is_legal late late_plan (started (0 ∷ 1 ∷ [])) ≡ false }
{}
