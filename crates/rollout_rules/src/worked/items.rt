//! Items, their numbers and homes, and what they take of links and tables.
ghost use Rattle.std.specs.Prelude.{◌≡◌, Bool, true, false, [], ◌∷◌, codes};
ghost use Rattle.rollout_rules.specs.Wan.{mark_at, rate_at};
ghost use Rattle.rollout_rules.specs.Items.{the_link, the_table, is_item, item_count, number_of, item_at, is_resource, home_of, capacity_of, takes, content, use_at, step_maximum, load, entries_at};
ghost use Rattle.rollout_rules.specs.Valid.{step_total};
ghost use Rattle.rollout_rules.specs.Building.{no_problem, with_flow};
ghost use Rattle.rollout_rules.specs.Plans.{direct_plan};
ghost use Rattle.rollout_rules.specs.Named.{one, swap, table_network, branch, one_plan, halfway_plan, table_plan};

use crate::item::Item;

/// The flows come first, then each tunnel's entries in order of its path.
pub fn flows_are_counted_before_entries()
    ensures count { item_count one ≡ 6 }
    ensures none { item_count no_problem ≡ 0 }
    ensures flow { number_of table_network (Item.Flow 0) ≡ 0 }
    ensures first_entry { number_of table_network (Item.Entry 0 0) ≡ 1 }
    ensures last_entry { number_of table_network (Item.Entry 2 2) ≡ 9 }
{}

/// An item is found by its number; past the end there is none.
pub fn items_are_found_by_their_numbers()
    ensures flow { item_at table_network 0 ≡ Item.Flow 0 }
    ensures first_entry { item_at table_network 1 ≡ Item.Entry 0 0 }
    ensures next_tunnel { item_at table_network 4 ≡ Item.Entry 1 0 }
    ensures last_entry { item_at table_network 9 ≡ Item.Entry 2 2 }
    ensures found { is_item table_network (item_at table_network 9) ≡ true }
    ensures past_the_end { is_item table_network (item_at table_network 10) ≡ false }
    ensures no_flow { is_item table_network (Item.Flow 1) ≡ false }
    ensures no_hop { is_item table_network (Item.Entry 0 3) ≡ false }
{}

/// A flow is at home where its paths begin, an entry at its switch, a flow without tunnels nowhere.
pub fn an_item_is_at_home_at_its_switch()
    ensures flow { home_of one (Item.Flow 0) ≡ Some 0 }
    ensures entry { home_of one (Item.Entry 1 1) ≡ Some 2 }
    ensures no_tunnels { home_of (with_flow one (codes "g")) (Item.Flow 1) ≡ None }
{}

/// Links hold their capacity in units of 1/scale, tables their size.
pub fn a_link_holds_its_capacity_times_the_scale()
    ensures link { capacity_of (swap 9 6) halfway_plan (the_link 3) ≡ 18 }
    ensures table { capacity_of table_network table_plan (the_table 1) ≡ 2 }
    ensures last_link { is_resource one (the_link 2) ≡ true }
    ensures no_link { is_resource one (the_link 3) ≡ false }
    ensures no_table { is_resource one (the_table 3) ≡ false }
{}

/// A flow takes of links alone, an entry of its own switch's table alone.
pub fn flows_take_of_links_and_entries_of_tables()
    ensures content_of_flow { content table_network table_plan (Item.Flow 0) 3 ≡ 2 ∷ 0 ∷ 2 ∷ [] }
    ensures content_of_entry { content table_network table_plan (Item.Entry 1 2) 0 ≡ 1 ∷ [] }
    ensures content_once_gone { content table_network table_plan (Item.Entry 1 2) 1 ≡ 0 ∷ [] }
    ensures flow_at_link { use_at table_network table_plan 3 (Item.Flow 0) (the_link 4) ≡ 2 }
    ensures flow_at_table { use_at table_network table_plan 3 (Item.Flow 0) (the_table 0) ≡ 0 }
    ensures entry_at_table { use_at table_network table_plan 0 (Item.Entry 1 2) (the_table 1) ≡ 1 }
    ensures entry_elsewhere { use_at table_network table_plan 0 (Item.Entry 1 2) (the_table 0) ≡ 0 }
    ensures entry_at_link { use_at table_network table_plan 0 (Item.Entry 1 2) (the_link 2) ≡ 0 }
    ensures entry_once_gone { use_at table_network table_plan 1 (Item.Entry 1 2) (the_table 1) ≡ 0 }
    ensures entries { entries_at table_network (λ t h. mark_at table_plan 0 t) 0 ≡ 2 }
{}

/// While a flow moves between two tunnels over one link, it may take both rates there.
pub fn a_step_takes_more_than_either_end()
    ensures before { use_at branch (direct_plan branch) 0 (Item.Flow 0) (the_link 0) ≡ 4 }
    ensures behind { use_at branch (direct_plan branch) 1 (Item.Flow 0) (the_link 0) ≡ 4 }
    ensures between { step_maximum branch (direct_plan branch) 0 (Item.Flow 0) (the_link 0) ≡ 8 }
    ensures at_the_end { step_maximum branch (direct_plan branch) 1 (Item.Flow 0) (the_link 0) ≡ 4 }
    ensures apart { step_maximum branch (direct_plan branch) 0 (Item.Flow 0) (the_link 1) ≡ 4 }
    ensures entry { step_maximum table_network table_plan 0 (Item.Entry 1 2) (the_table 1) ≡ 1 }
    ensures entry_once_gone { step_maximum table_network table_plan 1 (Item.Entry 1 2) (the_table 1) ≡ 0 }
{}

/// Two flows that change places load a link twice in the step, and once at each end.
pub fn two_flows_meet_in_a_step()
    ensures before { load (swap 2 2) (rate_at (direct_plan (swap 2 2)) 0) 0 ≡ 2 }
    ensures behind { load (swap 2 2) (rate_at (direct_plan (swap 2 2)) 1) 0 ≡ 2 }
    ensures between { step_total (swap 2 2) (direct_plan (swap 2 2)) 0 (the_link 0) ≡ 4 }
    ensures in_halves { step_total (swap 9 6) halfway_plan 0 (the_link 0) ≡ 18 }
{}
