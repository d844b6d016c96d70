//! Chains, ranks and what a round begins.
ghost use Rattle.std.specs.Prelude.{◌≡◌, ◌-◌, Bool, true, false, [], ◌∷◌, ◌++◌};
ghost use Rattle.rollout_rules.specs.Release.{chain, view_of, waiting, in_order_of, is_held_back, released, release, is_covered, dones, batch};
ghost use Rattle.rollout_rules.specs.Legal.{may_begin};
ghost use Rattle.rollout_rules.specs.Named.{one, late, table_network, three, ahead, replaced, crowd, one_plan, late_plan, table_plan, three_plan, ahead_plan, replaced_plan, crowd_plan};
ghost use Rattle.rollout_rules.specs.Worked.{fresh, op_of, begin_of, done_of, chain_first, item_first, last_item_first, below_stage};

use crate::item::Item;

/// The flow's move needs the new entries, and the old entries' removal needs the flow's move.
pub fn a_chain_goes_from_installation_to_removal()
    ensures installation { chain replaced replaced_plan (Item.Entry 1 0) 0 ≡ 3 }
    ensures passage { chain replaced replaced_plan (Item.Flow 0) 1 ≡ 2 }
    ensures removal { chain replaced replaced_plan (Item.Entry 0 0) 2 ≡ 1 }
{}

/// The second flow of late needs entries that were always there.
pub fn a_chain_goes_on_with_the_same_item()
    ensures first { chain late late_plan (Item.Flow 0) 0 ≡ 3 }
    ensures second { chain late late_plan (Item.Flow 0) 1 ≡ 2 }
    ensures third { chain late late_plan (Item.Flow 0) 2 ≡ 1 }
    ensures alone { chain late late_plan (Item.Flow 1) 3 ≡ 1 }
    ensures after_a_rest { chain three three_plan (Item.Flow 1) 0 ≡ 2 }
{}

/// The removal of an idle tunnel leads to nothing: what waits for its room doesn't need it.
pub fn new_entries_have_longer_chains_than_idle_ones()
    ensures new { chain table_network table_plan (Item.Entry 2 0) 1 ≡ 2 }
    ensures idle { chain table_network table_plan (Item.Entry 1 0) 0 ≡ 1 }
    ensures passage { chain table_network table_plan (Item.Flow 0) 2 ≡ 1 }
{}

/// With the item's next operation, its operations not yet begun, and the longest chain from there.
pub fn a_policy_sees_where_an_item_stands()
    ensures at_first { view_of table_network table_plan (fresh []) 7 ≡ record { item = 7; number = 1; stage = 1; left = 1; chain = 2 } }
    ensures on_its_way { view_of late late_plan (fresh (begin_of 0 1 ∷ done_of 0 1 ∷ [])) 0 ≡ record { item = 0; number = 2; stage = 1; left = 2; chain = 2 } }
{}

/// An item waits that has an operation left and none in flight.
pub fn items_wait_for_their_next_operation()
    ensures at_first { waiting table_network table_plan (fresh []) ≡ 0 ∷ 4 ∷ 5 ∷ 6 ∷ 7 ∷ 8 ∷ 9 ∷ [] }
    ensures in_flight { waiting late late_plan (fresh (begin_of 0 1 ∷ [])) ≡ 1 ∷ [] }
    ensures finished { waiting one one_plan (fresh (begin_of 0 1 ∷ done_of 0 1 ∷ [])) ≡ [] }
{}

/// Items of one rank stay in order.
pub fn lower_ranks_go_first()
    ensures by_rank { in_order_of (λ n. 9 - n) (1 ∷ 4 ∷ 2 ∷ []) ≡ 4 ∷ 2 ∷ 1 ∷ [] }
    ensures by_item { in_order_of (λ n. 0) (3 ∷ 1 ∷ 2 ∷ []) ≡ 1 ∷ 2 ∷ 3 ∷ [] }
{}

/// The new entry at Z has the longest chain of those that may begin.
pub fn longer_chains_begin_first()
    ensures { release table_network table_plan chain_first (fresh []) ≡ begin_of 8 1 ∷ begin_of 4 1 ∷ begin_of 5 1 ∷ begin_of 6 1 ∷ [] }
{}

/// Where all ranks are the same, the lower item goes first.
pub fn without_a_rank_items_begin_in_order()
    ensures { release table_network table_plan item_first (fresh []) ≡ begin_of 4 1 ∷ begin_of 5 1 ∷ begin_of 6 1 ∷ begin_of 8 1 ∷ [] }
{}

/// A release follows the rank, whatever it is.
pub fn a_rank_may_turn_the_order_round()
    ensures { release table_network table_plan last_item_first (fresh []) ≡ begin_of 8 1 ∷ begin_of 6 1 ∷ begin_of 5 1 ∷ begin_of 4 1 ∷ [] }
{}

/// The entries of either new tunnel have room, and those of both have not.
pub fn a_release_counts_what_it_has_begun()
    ensures first { may_begin crowd crowd_plan (fresh []) (op_of 5 1) ≡ true }
    ensures second { may_begin crowd crowd_plan (fresh []) (op_of 7 1) ≡ true }
    ensures by_item { release crowd crowd_plan item_first (fresh []) ≡ begin_of 3 1 ∷ begin_of 4 1 ∷ begin_of 5 1 ∷ begin_of 6 1 ∷ [] }
    ensures by_chain { release crowd crowd_plan chain_first (fresh []) ≡ begin_of 5 1 ∷ begin_of 6 1 ∷ begin_of 3 1 ∷ begin_of 4 1 ∷ [] }
    ensures last_first { release crowd crowd_plan last_item_first (fresh []) ≡ begin_of 8 1 ∷ begin_of 7 1 ∷ begin_of 4 1 ∷ begin_of 3 1 ∷ [] }
{}

/// Nothing more begins until something is done.
pub fn a_second_release_begins_nothing()
    ensures { release table_network table_plan chain_first (fresh (begin_of 8 1 ∷ begin_of 4 1 ∷ begin_of 5 1 ∷ begin_of 6 1 ∷ [])) ≡ [] }
{}

/// The first flow begins, as the second one finds no room behind it.
pub fn late_begins_one_operation_at_a_time()
    ensures by_chain { release late late_plan chain_first (fresh []) ≡ begin_of 0 1 ∷ [] }
    ensures by_item { release late late_plan item_first (fresh []) ≡ begin_of 0 1 ∷ [] }
    ensures last { release late late_plan last_item_first (fresh []) ≡ begin_of 0 1 ∷ [] }
{}

/// Only an operation in flight is covered, by an answer with its number or a higher one.
pub fn an_answer_covers_what_is_in_flight()
    ensures same_number { is_covered (fresh (begin_of 2 1 ∷ [])) (op_of 2 1 ∷ []) 2 ≡ true }
    ensures higher_number { is_covered (fresh (begin_of 2 1 ∷ [])) (op_of 2 7 ∷ []) 2 ≡ true }
    ensures lower_number { is_covered (fresh (begin_of 2 1 ∷ [])) (op_of 2 0 ∷ []) 2 ≡ false }
    ensures another_item { is_covered (fresh (begin_of 2 1 ∷ [])) (op_of 1 1 ∷ []) 2 ≡ false }
    ensures not_in_flight { is_covered (fresh []) (op_of 2 1 ∷ []) 2 ≡ false }
    ensures done_before { is_covered (fresh (begin_of 2 1 ∷ done_of 2 1 ∷ [])) (op_of 2 1 ∷ []) 2 ≡ false }
{}

/// Each operation ends once, with its own number and by item, however often and in which order it is answered.
pub fn covered_operations_end_by_item()
    ensures in_order { dones ahead (fresh (begin_of 0 1 ∷ begin_of 1 1 ∷ begin_of 2 1 ∷ [])) (op_of 1 1 ∷ op_of 0 1 ∷ []) ≡ done_of 0 1 ∷ done_of 1 1 ∷ [] }
    ensures once { dones ahead (fresh (begin_of 0 1 ∷ begin_of 1 1 ∷ begin_of 2 1 ∷ [])) (op_of 2 1 ∷ op_of 2 1 ∷ []) ≡ done_of 2 1 ∷ [] }
    ensures own_number { dones ahead (fresh (begin_of 2 1 ∷ [])) (op_of 2 7 ∷ []) ≡ done_of 2 1 ∷ [] }
    ensures none { dones ahead (fresh (begin_of 2 1 ∷ [])) [] ≡ [] }
{}

/// The flow beside the two that change places goes on before they are through with their step.
pub fn a_flow_goes_on_without_waiting_for_the_others()
    ensures first_round { batch ahead ahead_plan item_first (fresh []) [] ≡ begin_of 0 1 ∷ begin_of 1 1 ∷ begin_of 2 1 ∷ [] }
    ensures then { batch ahead ahead_plan item_first (fresh (begin_of 0 1 ∷ begin_of 1 1 ∷ begin_of 2 1 ∷ [])) (op_of 2 1 ∷ []) ≡ done_of 2 1 ∷ begin_of 2 2 ∷ [] }
{}

/// With one of the two answered, neither of them goes on.
pub fn flows_that_change_places_wait_for_each_other()
    ensures one_of_two { batch ahead ahead_plan item_first (fresh (begin_of 0 1 ∷ begin_of 1 1 ∷ begin_of 2 1 ∷ [])) (op_of 1 1 ∷ op_of 2 1 ∷ []) ≡ done_of 1 1 ∷ done_of 2 1 ∷ begin_of 2 2 ∷ [] }
    ensures unanswered { batch ahead ahead_plan item_first (fresh (begin_of 0 1 ∷ begin_of 1 1 ∷ begin_of 2 1 ∷ [])) [] ≡ [] }
{}

/// Each place that an old entry leaves goes to the new one in the same batch.
pub fn a_batch_begins_what_its_ends_make_room_for()
    ensures at_both { batch table_network table_plan chain_first (fresh (begin_of 8 1 ∷ begin_of 4 1 ∷ begin_of 5 1 ∷ begin_of 6 1 ∷ [])) (op_of 4 1 ∷ op_of 5 1 ∷ op_of 6 1 ∷ op_of 8 1 ∷ [])
        ≡ done_of 4 1 ∷ done_of 5 1 ∷ done_of 6 1 ∷ done_of 8 1 ∷ begin_of 7 1 ∷ begin_of 9 1 ∷ [] }
    ensures at_b { batch table_network table_plan chain_first (fresh (begin_of 8 1 ∷ begin_of 4 1 ∷ begin_of 5 1 ∷ begin_of 6 1 ∷ [])) (op_of 6 1 ∷ []) ≡ done_of 6 1 ∷ begin_of 9 1 ∷ [] }
{}

/// Each flow of ahead goes to stage 1; from there its next operation is admissible, and held back.
pub fn a_policy_may_hold_operations_back()
    ensures first_round { release ahead ahead_plan (below_stage 1) (fresh []) ≡ begin_of 0 1 ∷ begin_of 1 1 ∷ begin_of 2 1 ∷ [] }
    ensures then { release ahead ahead_plan (below_stage 1) (fresh (begin_of 0 1 ∷ begin_of 1 1 ∷ begin_of 2 1 ∷ done_of 0 1 ∷ done_of 1 1 ∷ done_of 2 1 ∷ [])) ≡ [] }
    ensures waiting { waiting ahead ahead_plan (fresh (begin_of 2 1 ∷ done_of 2 1 ∷ [])) ≡ 0 ∷ 1 ∷ 2 ∷ [] }
    ensures released { released ahead ahead_plan (below_stage 1) (fresh (begin_of 2 1 ∷ done_of 2 1 ∷ [])) ≡ 0 ∷ 1 ∷ [] }
    ensures admissible { may_begin ahead ahead_plan (fresh (begin_of 2 1 ∷ done_of 2 1 ∷ [])) (op_of 2 2) ≡ true }
    ensures held { is_held_back (below_stage 1) (view_of ahead ahead_plan (fresh (begin_of 2 1 ∷ done_of 2 1 ∷ [])) 2) ≡ true }
    ensures not_held { is_held_back chain_first (view_of ahead ahead_plan (fresh (begin_of 2 1 ∷ done_of 2 1 ∷ [])) 2) ≡ false }
    ensures last_rank { is_held_back (λ view. 4294967295) (view_of ahead ahead_plan (fresh []) 2) ≡ false }
    ensures above_the_last_rank { is_held_back (λ view. 4294967296) (view_of ahead ahead_plan (fresh []) 2) ≡ true }
    ensures everything_held { release ahead ahead_plan (below_stage 0) (fresh []) ≡ [] }
{}
