//! Worked examples of the switches at which there is work, and of berths dealt in turn: each function
//! states a fact of a small case.
ghost use Rattle.std.specs.Prelude.{◌≡◌, ℕ, ◌%◌, ◌==◌, [], ◌∷◌, codes, false, None, Some};
ghost use Rattle.rollout_rules.specs.Building.{with_flow, with_switch};
ghost use Rattle.rollout_rules.specs.Named.{one, one_plan, table_network, table_plan};
ghost use Rattle.switch_ports.specs.Berths.{named_each};
ghost use Rattle.switch_ports.specs.Hands.{at_places, hand_count};
ghost use Rattle.switch_ports.specs.Homes.{is_working_home, working_homes};

/// The entries at A and B of two tunnels go and come, that at Y goes, and that at Z comes. The entry at X
/// stays, so that there is no work at its home.
pub fn there_is_work_where_an_item_has_an_operation()
    ensures homes { working_homes table_network table_plan ≡ 0 ∷ 1 ∷ 3 ∷ 4 ∷ [] }
    ensures stays { is_working_home table_network table_plan 2 ≡ false }
{}

/// The flow has its one operation at A. D is the home of nothing, and a flow without tunnels has none.
pub fn there_is_no_work_at_a_switch_that_is_no_home()
    ensures alone { working_homes one one_plan ≡ 0 ∷ [] }
    ensures no_home { working_homes (with_switch one (codes "D") 8) one_plan ≡ 0 ∷ [] }
    ensures no_tunnels { working_homes (with_flow one (codes "g")) one_plan ≡ 0 ∷ [] }
{}

/// The first two switches are called A and B, and go by these names once they are asked for; Y isn't asked for.
pub fn each_switch_goes_by_its_own_name()
    ensures first { named_each (λ n. None) table_network (0 ∷ 1 ∷ []) 0 ≡ Some (codes "A") }
    ensures second { named_each (λ n. None) table_network (0 ∷ 1 ∷ []) 1 ≡ Some (codes "B") }
    ensures other { named_each (λ n. None) table_network (0 ∷ 1 ∷ []) 3 ≡ None }
{}

/// Of seven in a row, dealt to three.
pub fn each_third_goes_to_one_of_three()
    ensures first { at_places {A = ℕ} (λ place. (place % 3) == 0) 0
        (5 ∷ 6 ∷ 7 ∷ 8 ∷ 9 ∷ 10 ∷ 11 ∷ [])
        ≡ 5 ∷ 8 ∷ 11 ∷ [] }
    ensures second { at_places {A = ℕ} (λ place. (place % 3) == 1) 0
        (5 ∷ 6 ∷ 7 ∷ 8 ∷ 9 ∷ 10 ∷ 11 ∷ [])
        ≡ 6 ∷ 9 ∷ [] }
    ensures last { at_places {A = ℕ} (λ place. (place % 3) == 2) 0
        (5 ∷ 6 ∷ 7 ∷ 8 ∷ 9 ∷ 10 ∷ 11 ∷ [])
        ≡ 7 ∷ 10 ∷ [] }
{}

/// No worker is without a port, and one has them all where none is asked for.
pub fn there_are_no_more_workers_than_berths()
    ensures few { hand_count 4 3 ≡ 3 }
    ensures many { hand_count 2 3 ≡ 2 }
    ensures none_asked { hand_count 0 3 ≡ 1 }
    ensures no_berths { hand_count 2 0 ≡ 0 }
{}
