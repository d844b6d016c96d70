//! Operations, where items stand, what an operation needs and what room it finds.
ghost use Rattle.std.specs.Prelude.{◌≡◌, Bool, true, false, [], ◌∷◌};
ghost use Rattle.rollout_rules.specs.Items.{the_link, the_table};
ghost use Rattle.rollout_rules.specs.Operations.{changes_behind, changes_to, operations, stand_after, content_after};
ghost use Rattle.rollout_rules.specs.History.{places_of, stand};
ghost use Rattle.rollout_rules.specs.Needs.{installed_since, idle_since, entries_past, needs_met_at, needs_met};
ghost use Rattle.rollout_rules.specs.Room.{least_stage, room, fits_at, fits};
ghost use Rattle.rollout_rules.specs.Building.{no_problem};
ghost use Rattle.rollout_rules.specs.Named.{stay_plan, all_installed, late, table_network, three, replaced, late_plan, table_plan, three_plan, replaced_plan};
ghost use Rattle.rollout_rules.specs.Worked.{fresh, begin_of, done_of};

use crate::item::Item;

/// To stages 1, 2 and 3.
pub fn the_first_flow_of_late_has_three_operations()
    ensures count { operations late late_plan (Item.Flow 0) ≡ 3 }
    ensures first { changes_behind late late_plan (Item.Flow 0) 0 ≡ true }
    ensures third { changes_behind late late_plan (Item.Flow 0) 2 ≡ true }
    ensures no_fourth { changes_behind late late_plan (Item.Flow 0) 3 ≡ false }
    ensures so_far { changes_to late late_plan (Item.Flow 0) 2 ≡ 2 }
{}

/// At the stage before its next operation, and at the last stage once it has none.
pub fn an_item_stands_before_its_next_operation()
    ensures at_first { stand_after late late_plan (Item.Flow 0) 0 ≡ 0 }
    ensures then { stand_after late late_plan (Item.Flow 0) 1 ≡ 1 }
    ensures later { stand_after late late_plan (Item.Flow 0) 2 ≡ 2 }
    ensures finished { stand_after late late_plan (Item.Flow 0) 3 ≡ 4 }
    ensures held { content_after late late_plan (Item.Flow 0) 2 ≡ 0 ∷ 2 ∷ 0 ∷ [] }
    ensures held_at_the_end { content_after late late_plan (Item.Flow 0) 3 ≡ 0 ∷ 0 ∷ 2 ∷ [] }
{}

/// To stage 4, so it stands at 3 from the start.
pub fn the_second_flow_of_late_starts_late()
    ensures count { operations late late_plan (Item.Flow 1) ≡ 1 }
    ensures at_first { stand_after late late_plan (Item.Flow 1) 0 ≡ 3 }
    ensures finished { stand_after late late_plan (Item.Flow 1) 1 ≡ 4 }
{}

/// An entry that stays has no operation and stands at the last stage.
pub fn entries_are_installed_and_removed_once()
    ensures removal { stand_after table_network table_plan (Item.Entry 1 0) 0 ≡ 0 }
    ensures installation_at_a { operations table_network table_plan (Item.Entry 2 0) ≡ 1 }
    ensures before_at_a { stand_after table_network table_plan (Item.Entry 2 0) 0 ≡ 1 }
    ensures installation_at_b { operations table_network table_plan (Item.Entry 2 2) ≡ 1 }
    ensures before_at_b { stand_after table_network table_plan (Item.Entry 2 2) 0 ≡ 1 }
    ensures behind { stand_after table_network table_plan (Item.Entry 2 2) 1 ≡ 3 }
    ensures kept { operations table_network table_plan (Item.Entry 0 0) ≡ 0 }
    ensures kept_stand { stand_after table_network table_plan (Item.Entry 0 0) 0 ≡ 3 }
{}

/// The second flow of three rests at stage 2, between its operations to 1 and 3.
pub fn an_item_may_rest_for_a_stage()
    ensures count { operations three three_plan (Item.Flow 1) ≡ 2 }
    ensures resting { stand_after three three_plan (Item.Flow 1) 1 ≡ 2 }
    ensures once { operations three three_plan (Item.Flow 0) ≡ 1 }
    ensures waiting { stand_after three three_plan (Item.Flow 0) 0 ≡ 1 }
{}

/// A run of stages that goes back to the start begins at 0.
pub fn runs_of_stages_begin_where_the_tunnel_changed()
    ensures installed { installed_since table_plan 2 3 ≡ 2 }
    ensures always_installed { installed_since table_plan 0 3 ≡ 0 }
    ensures idle { idle_since replaced_plan 0 2 ≡ 2 }
    ensures idle_at_first { idle_since table_plan 1 0 ≡ 0 }
{}

/// The flow's operation needs the entries at A, Z and B, and none of them alone will do.
pub fn a_flow_needs_the_entries_that_carry_it()
    ensures at_first { needs_met table_network table_plan (places_of table_network (fresh [])) (Item.Flow 0) ≡ false }
    ensures begun_alone { needs_met table_network table_plan (places_of table_network (fresh (begin_of 7 1 ∷ begin_of 8 1 ∷ begin_of 9 1 ∷ []))) (Item.Flow 0) ≡ false }
    ensures without_a { entries_past table_network table_plan (places_of table_network (fresh (done_of 8 1 ∷ done_of 9 1 ∷ []))) 2 2 ≡ false }
    ensures without_z { entries_past table_network table_plan (places_of table_network (fresh (done_of 7 1 ∷ done_of 9 1 ∷ []))) 2 2 ≡ false }
    ensures without_b { entries_past table_network table_plan (places_of table_network (fresh (done_of 7 1 ∷ done_of 8 1 ∷ []))) 2 2 ≡ false }
    ensures with_all { needs_met table_network table_plan (places_of table_network (fresh (done_of 7 1 ∷ done_of 8 1 ∷ done_of 9 1 ∷ []))) (Item.Flow 0) ≡ true }
{}

/// Also those of a tunnel that carries it on the way alone.
pub fn a_flow_needs_the_entries_of_a_stay_between()
    ensures without { needs_met table_network stay_plan (places_of table_network (fresh [])) (Item.Flow 0) ≡ false }
    ensures with_all { needs_met table_network stay_plan (places_of table_network (fresh (done_of 7 1 ∷ done_of 8 1 ∷ done_of 9 1 ∷ []))) (Item.Flow 0) ≡ true }
{}

/// A flow under way has not left yet; a tunnel that was idle from the start has none to leave it.
pub fn a_removal_needs_that_its_flow_has_left()
    ensures at_first { needs_met replaced replaced_plan (places_of replaced (fresh [])) (Item.Entry 0 0) ≡ false }
    ensures under_way { needs_met replaced replaced_plan (places_of replaced (fresh (begin_of 0 1 ∷ []))) (Item.Entry 0 0) ≡ false }
    ensures once_left { needs_met replaced replaced_plan (places_of replaced (fresh (begin_of 0 1 ∷ done_of 0 1 ∷ []))) (Item.Entry 0 0) ≡ true }
    ensures idle { needs_met table_network table_plan (places_of table_network (fresh [])) (Item.Entry 1 0) ≡ true }
{}

/// Wherever its flow stands.
pub fn an_installation_needs_nothing()
    ensures table { needs_met table_network table_plan (places_of table_network (fresh [])) (Item.Entry 2 0) ≡ true }
    ensures replaced { needs_met replaced replaced_plan (places_of replaced (fresh [])) (Item.Entry 1 1) ≡ true }
{}

/// The least stage at which an item stands is where room begins; without items it is the last stage.
pub fn room_begins_where_the_last_item_stands()
    ensures at_first { least_stage table_network table_plan (places_of table_network (fresh [])) ≡ 0 }
    ensures later { least_stage table_network table_plan (places_of table_network (fresh (done_of 4 1 ∷ done_of 5 1 ∷ done_of 6 1 ∷ []))) ≡ 1 }
    ensures no_items { least_stage no_problem (all_installed 0 1 ([] ∷ [])) (places_of no_problem (fresh [])) ≡ 0 }
    ensures no_items_nor_room { least_stage no_problem (all_installed 0 1 ([] ∷ [] ∷ [])) (places_of no_problem (fresh [])) ≡ 1 }
    ensures no_stages_to_fit { fits no_problem (all_installed 0 1 ([] ∷ [])) (places_of no_problem (fresh [])) ≡ true }
{}

/// At the start the entries of the new tunnel find 3 against 2 at A and at B, and room at Z.
pub fn new_entries_find_no_room_before_the_idle_ones_left()
    ensures at_first { room table_network table_plan (places_of table_network (fresh [])) 0 (the_table 0) ≡ 2 }
    ensures at_a { room table_network table_plan (places_of table_network (fresh (begin_of 7 1 ∷ []))) 0 (the_table 0) ≡ 3 }
    ensures none_at_a { fits_at table_network table_plan (places_of table_network (fresh (begin_of 7 1 ∷ []))) 0 ≡ false }
    ensures at_b { room table_network table_plan (places_of table_network (fresh (begin_of 9 1 ∷ []))) 0 (the_table 1) ≡ 3 }
    ensures none_at_b { fits_at table_network table_plan (places_of table_network (fresh (begin_of 9 1 ∷ []))) 0 ≡ false }
    ensures at_z { fits table_network table_plan (places_of table_network (fresh (begin_of 8 1 ∷ []))) ≡ true }
    ensures removal_under_way { fits table_network table_plan (places_of table_network (fresh (begin_of 4 1 ∷ begin_of 7 1 ∷ []))) ≡ false }
    ensures once_left { fits table_network table_plan (places_of table_network (fresh (begin_of 4 1 ∷ done_of 4 1 ∷ begin_of 7 1 ∷ []))) ≡ true }
{}

/// The second flow of late has room on the link at stage 0, and finds 4 against 2 at stage 1.
pub fn room_is_looked_for_at_later_stages_too()
    ensures at_first { room late late_plan (places_of late (fresh (begin_of 1 1 ∷ []))) 0 (the_link 2) ≡ 2 }
    ensures fits_at_first { fits_at late late_plan (places_of late (fresh (begin_of 1 1 ∷ []))) 0 ≡ true }
    ensures next { room late late_plan (places_of late (fresh (begin_of 1 1 ∷ []))) 1 (the_link 2) ≡ 4 }
    ensures none_next { fits_at late late_plan (places_of late (fresh (begin_of 1 1 ∷ []))) 1 ≡ false }
    ensures without_it { fits late late_plan (places_of late (fresh [])) ≡ true }
{}
