//! Safe histories, and what makes one unsafe.
ghost use Rattle.std.specs.Prelude.{◌≡◌, Bool, true, false, [], ◌∷◌, slice_index};
ghost use Rattle.rollout_rules.specs.History.{places_of};
ghost use Rattle.rollout_rules.specs.Plans.{direct_plan};
ghost use Rattle.rollout_rules.specs.Safe.{stand_next, settled_rate, next_rate, settled_mark, next_mark, IsRateChoice, IsMarkChoice, IsSafe};
ghost use Rattle.rollout_rules.specs.Named.{one, swap, table_network, replaced, one_plan, table_plan, replaced_plan};
ghost use Rattle.rollout_rules.specs.Worked.{fresh, begin_of, done_of};

use crate::item::Item;

/// What is in flight may be applied or not; what is at rest has one value.
pub fn an_item_in_flight_has_two_values()
    ensures rate { settled_rate one one_plan (places_of one (fresh (begin_of 0 1 ∷ []))) 1 ≡ 0 }
    ensures next_rate { next_rate one one_plan (places_of one (fresh (begin_of 0 1 ∷ []))) 1 ≡ 3 }
    ensures rate_at_rest { next_rate one one_plan (places_of one (fresh [])) 1 ≡ 0 }
    ensures rate_when_done { settled_rate one one_plan (places_of one (fresh (begin_of 0 1 ∷ done_of 0 1 ∷ []))) 1 ≡ 3 }
    ensures mark { settled_mark table_network table_plan (places_of table_network (fresh (begin_of 7 1 ∷ []))) 2 0 ≡ false }
    ensures next_mark { next_mark table_network table_plan (places_of table_network (fresh (begin_of 7 1 ∷ []))) 2 0 ≡ true }
    ensures mark_at_rest { next_mark table_network table_plan (places_of table_network (fresh [])) 2 0 ≡ false }
{}

/// Each tunnel is chosen for by itself.
pub fn tunnels_of_a_flow_in_flight_are_chosen_for_one_by_one()
    ensures mixed { IsRateChoice one one_plan (places_of one (fresh (begin_of 0 1 ∷ []))) (λ t. slice_index (4 ∷ 3 ∷ []) t) }
    ensures between { ¬ IsRateChoice one one_plan (places_of one (fresh (begin_of 0 1 ∷ []))) (λ t. slice_index (2 ∷ 2 ∷ []) t) }
    ensures at_rest { ¬ IsRateChoice one one_plan (places_of one (fresh [])) (λ t. slice_index (4 ∷ 3 ∷ []) t) }
{}

/// There is room for each of the choices.
pub fn a_direct_step_with_room_is_safe()
    ensures { IsSafe one one_plan (places_of one (fresh (begin_of 0 1 ∷ []))) }
{}

/// The flow that moves would meet the one that is still there: 4 against 2.
pub fn a_full_swap_in_one_step_is_not_safe()
    ensures { ¬ IsSafe (swap 2 2) (direct_plan (swap 2 2)) (places_of (swap 2 2) (fresh (begin_of 0 1 ∷ []))) }
{}

/// The table of A would hold 3 entries against 2.
pub fn an_installation_before_the_removal_is_not_safe()
    ensures { ¬ IsSafe table_network table_plan (places_of table_network (fresh (begin_of 7 1 ∷ []))) }
{}

/// The flow would carry traffic over entries that aren't there.
pub fn a_passage_before_the_installation_is_not_safe()
    ensures { ¬ IsSafe table_network table_plan (places_of table_network (fresh (begin_of 0 1 ∷ []))) }
{}

/// The flow still carries traffic over the entry that goes.
pub fn a_removal_before_the_passage_is_not_safe()
    ensures { ¬ IsSafe replaced replaced_plan (places_of replaced (fresh (begin_of 1 1 ∷ []))) }
{}
