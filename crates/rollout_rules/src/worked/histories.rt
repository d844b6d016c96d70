//! Histories: what is begun, settled and in flight, and which are legal.
ghost use Rattle.std.specs.Prelude.{◌≡◌, Bool, true, false, [], ◌∷◌};
ghost use Rattle.rollout_rules.specs.History.{begun, settled, flies, places_of};
ghost use Rattle.rollout_rules.specs.Needs.{needs_met};
ghost use Rattle.rollout_rules.specs.Room.{fits};
ghost use Rattle.rollout_rules.specs.Legal.{is_next, may_begin, may_end, may_follow, is_legal, is_finished};
ghost use Rattle.rollout_rules.specs.Building.{no_problem};
ghost use Rattle.rollout_rules.specs.Named.{all_installed, one, late, table_network, replaced, one_plan, late_plan, table_plan, replaced_plan};
ghost use Rattle.rollout_rules.specs.Worked.{fresh, op_of, begin_of, done_of};

use crate::item::Item;

/// An operation is in flight from its begin to its end.
pub fn begins_and_ends_are_counted_by_item()
    ensures begun { begun (fresh (begin_of 0 1 ∷ done_of 0 1 ∷ begin_of 0 2 ∷ [])) 0 ≡ 2 }
    ensures settled { settled (fresh (begin_of 0 1 ∷ done_of 0 1 ∷ begin_of 0 2 ∷ [])) 0 ≡ 1 }
    ensures in_flight { flies (fresh (begin_of 0 1 ∷ done_of 0 1 ∷ begin_of 0 2 ∷ [])) 0 ≡ true }
    ensures landed { flies (fresh (begin_of 0 1 ∷ done_of 0 1 ∷ [])) 0 ≡ false }
    ensures another { begun (fresh (begin_of 0 1 ∷ [])) 1 ≡ 0 }
    ensures at_rest { flies (fresh (begin_of 0 1 ∷ [])) 1 ≡ false }
{}

/// Operations of several items may be in flight side by side.
pub fn one_operation_after_another_is_legal()
    ensures empty { is_legal late late_plan (fresh []) ≡ true }
    ensures late { is_legal late late_plan (fresh (begin_of 0 1 ∷ done_of 0 1 ∷ begin_of 0 2 ∷ [])) ≡ true }
    ensures side_by_side { is_legal table_network table_plan (fresh (begin_of 8 1 ∷ begin_of 4 1 ∷ [])) ≡ true }
    ensures after_its_end { is_legal table_network table_plan (fresh (begin_of 4 1 ∷ done_of 4 1 ∷ begin_of 7 1 ∷ [])) ≡ true }
    ensures continued { may_follow late late_plan (fresh (begin_of 0 1 ∷ [])) (done_of 0 1 ∷ begin_of 0 2 ∷ []) ≡ true }
    ensures not_continued { may_follow late late_plan (fresh (begin_of 0 1 ∷ [])) (begin_of 0 2 ∷ done_of 0 1 ∷ []) ≡ false }
{}

/// Its needs are met and there is room for it.
pub fn an_operation_that_is_not_the_next_may_not_begin()
    ensures next { may_begin late late_plan (fresh []) (op_of 0 1) ≡ true }
    ensures skipped { is_next late late_plan (fresh []) (op_of 0 2) ≡ false }
    ensures refused { is_legal late late_plan (fresh (begin_of 0 2 ∷ [])) ≡ false }
    ensures none { is_next late late_plan (fresh []) (op_of 0 0) ≡ false }
{}

/// It is the next after what is settled, and may still not begin twice.
pub fn an_operation_in_flight_may_not_begin_again()
    ensures same { is_legal late late_plan (fresh (begin_of 0 1 ∷ begin_of 0 1 ∷ [])) ≡ false }
    ensures following { is_legal late late_plan (fresh (begin_of 0 1 ∷ begin_of 0 2 ∷ [])) ≡ false }
{}

/// An entry that stays has no first operation, a finished item none more, and there is no item 17.
pub fn an_operation_that_does_not_exist_may_not_begin()
    ensures kept_entry { is_legal late late_plan (fresh (begin_of 2 1 ∷ [])) ≡ false }
    ensures none_more { is_legal one one_plan (fresh (begin_of 0 1 ∷ done_of 0 1 ∷ begin_of 0 2 ∷ [])) ≡ false }
    ensures no_item { is_legal late late_plan (fresh (begin_of 17 1 ∷ [])) ≡ false }
{}

/// It is the next and has room, and its entries aren't there.
pub fn a_flow_may_not_move_to_entries_that_are_missing()
    ensures next { is_next table_network table_plan (fresh []) (op_of 0 1) ≡ true }
    ensures room { fits table_network table_plan (places_of table_network (fresh (begin_of 0 1 ∷ []))) ≡ true }
    ensures refused { is_legal table_network table_plan (fresh (begin_of 0 1 ∷ [])) ≡ false }
{}

/// Neither at first nor while the flow is under way, but once it has left.
pub fn an_entry_may_not_go_before_its_flow_has_left()
    ensures at_first { is_legal replaced replaced_plan (fresh (begin_of 1 1 ∷ [])) ≡ false }
    ensures under_way { is_legal replaced replaced_plan (fresh (begin_of 3 1 ∷ begin_of 4 1 ∷ begin_of 5 1 ∷ done_of 3 1 ∷ done_of 4 1 ∷ done_of 5 1 ∷ begin_of 0 1 ∷ begin_of 1 1 ∷ [])) ≡ false }
    ensures once_left { is_legal replaced replaced_plan (fresh (begin_of 3 1 ∷ begin_of 4 1 ∷ begin_of 5 1 ∷ done_of 3 1 ∷ done_of 4 1 ∷ done_of 5 1 ∷ begin_of 0 1 ∷ done_of 0 1 ∷ begin_of 1 1 ∷ [])) ≡ true }
{}

/// It is the next and needs nothing, and a table or a link is full.
pub fn an_operation_without_room_may_not_begin()
    ensures next { is_next table_network table_plan (fresh []) (op_of 7 1) ≡ true }
    ensures needs { needs_met table_network table_plan (places_of table_network (fresh [])) (Item.Entry 2 0) ≡ true }
    ensures table { is_legal table_network table_plan (fresh (begin_of 7 1 ∷ [])) ≡ false }
    ensures link_needs { needs_met late late_plan (places_of late (fresh [])) (Item.Flow 1) ≡ true }
    ensures link { is_legal late late_plan (fresh (begin_of 1 1 ∷ [])) ≡ false }
{}

/// Only what is in flight ends, and by its own number.
pub fn what_is_not_in_flight_may_not_end()
    ensures in_flight { may_end (fresh (begin_of 0 1 ∷ [])) (op_of 0 1) ≡ true }
    ensures nothing { is_legal late late_plan (fresh (done_of 0 1 ∷ [])) ≡ false }
    ensures another_number { is_legal late late_plan (fresh (begin_of 0 1 ∷ done_of 0 2 ∷ [])) ≡ false }
    ensures another_item { is_legal late late_plan (fresh (begin_of 0 1 ∷ done_of 1 1 ∷ [])) ≡ false }
    ensures twice { is_legal late late_plan (fresh (begin_of 0 1 ∷ done_of 0 1 ∷ done_of 0 1 ∷ [])) ≡ false }
{}

/// An operation in flight isn't settled; without items all is.
pub fn a_rollout_is_finished_once_all_is_settled()
    ensures settled { is_finished one one_plan (fresh (begin_of 0 1 ∷ done_of 0 1 ∷ [])) ≡ true }
    ensures in_flight { is_finished one one_plan (fresh (begin_of 0 1 ∷ [])) ≡ false }
    ensures no_items { is_finished no_problem (all_installed 0 1 ([] ∷ [])) (fresh []) ≡ true }
{}
