//! Tunnels that take several entries in each table on their paths.
ghost use Rattle.std.specs.Prelude.{◌≡◌, Bool, true, false, [], ◌∷◌};
ghost use Rattle.rollout_rules.specs.Wan.{mark_at};
ghost use Rattle.rollout_rules.specs.Items.{the_table, use_at, step_maximum, entries_at};
ghost use Rattle.rollout_rules.specs.Valid.{step_total, is_valid_plan};
ghost use Rattle.rollout_rules.specs.History.{places_of};
ghost use Rattle.rollout_rules.specs.Room.{room, fits};
ghost use Rattle.rollout_rules.specs.Safe.{IsSafe};
ghost use Rattle.rollout_rules.specs.Release.{release};
ghost use Rattle.rollout_rules.specs.Slack.{is_wanted_or_carrying, has_table_room};
ghost use Rattle.rollout_rules.specs.Named.{table_network, wide_with, wide_network, table_plan};
ghost use Rattle.rollout_rules.specs.Worked.{fresh, begin_of, done_of, broken_clauses, chain_first};

use crate::item::Item;

/// At every switch on its path, where it is there.
pub fn an_entry_takes_its_tunnels_width()
    ensures first_hop { use_at wide_network table_plan 0 (Item.Entry 0 0) (the_table 0) ≡ 2 }
    ensures last_hop { use_at wide_network table_plan 0 (Item.Entry 0 2) (the_table 1) ≡ 2 }
    ensures on_the_way { use_at wide_network table_plan 3 (Item.Entry 2 1) (the_table 4) ≡ 3 }
    ensures not_yet { use_at wide_network table_plan 0 (Item.Entry 2 0) (the_table 0) ≡ 0 }
    ensures in_the_step { step_maximum wide_network table_plan 1 (Item.Entry 2 0) (the_table 0) ≡ 3 }
    ensures plain { use_at table_network table_plan 0 (Item.Entry 0 0) (the_table 0) ≡ 1 }
{}

/// 2 and 1 at first, 2 and 3 in the end, of 5.
pub fn a_table_sums_the_widths_of_its_entries()
    ensures at_first { entries_at wide_network (λ t h. mark_at table_plan 0 t) 0 ≡ 3 }
    ensures in_the_end { entries_at wide_network (λ t h. mark_at table_plan 3 t) 1 ≡ 5 }
    ensures in_the_step { step_total wide_network table_plan 1 (the_table 0) ≡ 5 }
    ensures valid { is_valid_plan wide_network table_plan ≡ true }
    ensures one_wider { broken_clauses (wide_with 4) table_plan ≡ 3 ∷ [] }
{}

/// The new tunnel wants 6 of 5 where it takes 4.
pub fn table_room_is_asked_in_widths()
    ensures room { has_table_room wide_network ≡ true }
    ensures wanted { entries_at (wide_with 4) (is_wanted_or_carrying (wide_with 4)) 0 ≡ 6 }
    ensures no_room { has_table_room (wide_with 4) ≡ false }
{}

/// Beside the two that are there it finds 6 against 5, and once the idle one has left 5.
pub fn a_wide_entry_waits_for_its_room()
    ensures before { room wide_network table_plan (places_of wide_network (fresh (begin_of 7 1 ∷ []))) 0 (the_table 0) ≡ 6 }
    ensures refused { fits wide_network table_plan (places_of wide_network (fresh (begin_of 7 1 ∷ []))) ≡ false }
    ensures once_left { fits wide_network table_plan (places_of wide_network (fresh (begin_of 4 1 ∷ done_of 4 1 ∷ begin_of 7 1 ∷ []))) ≡ true }
    ensures not_safe { ¬ IsSafe wide_network table_plan (places_of wide_network (fresh (begin_of 7 1 ∷ []))) }
    ensures released { release wide_network table_plan chain_first (fresh []) ≡ begin_of 8 1 ∷ begin_of 4 1 ∷ begin_of 5 1 ∷ begin_of 6 1 ∷ [] }
{}
