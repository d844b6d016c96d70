//! The worked examples: each function states a fact of a small network, and proving it is computing it.
ghost use Rattle.std.specs.Prelude.{◌≡◌, true, false, Some, None, [], ◌∷◌, codes, replicate};
ghost use Rattle.rollout_rules.specs.Plans.{direct_plan};
ghost use Rattle.rollout_rules.specs.Building.{no_problem};
ghost use Rattle.rollout_rules.specs.Named.{stage_with, switch_named, all_installed, one, swap, table_network, replaced, pipe, one_plan, halfway_plan, table_plan, replaced_plan, without_stage};
ghost use Rattle.rollout_rules.specs.declared.item.Spot.TheVariants as spot;
ghost use Rattle.plan_check.specs.FirstBroken.{breaks, first_broken};
ghost use Rattle.plan_check.specs.LeastSlack.{least_slack};

pub fn a_valid_plan_breaks_no_clause()
    ensures one { first_broken one one_plan ≡ None }
    ensures halfway { first_broken (swap 9 6) halfway_plan ≡ None }
    ensures table { first_broken table_network table_plan ≡ None }
{}

/// Too few of them are told from too many by the limit that is named.
pub fn a_scale_or_a_number_of_stages_is_outside()
    ensures scale_0 { first_broken one (all_installed 2 0 []) ≡ Some (breaks 0 0 spot.Whole 0 1) }
    ensures large_scale { first_broken one (all_installed 2 65537 [])
        ≡ Some (breaks 0 0 spot.Whole 65537 65536) }
    ensures no_stage { first_broken no_problem (all_installed 0 1 [])
        ≡ Some (breaks 0 0 spot.Whole 0 1) }
    ensures many_stages { first_broken one (all_installed 2 1 (replicate 257 []))
        ≡ Some (breaks 0 0 spot.Whole 257 256) }
{}

/// Rates come before marks.
pub fn a_stage_has_another_length()
    ensures rates { first_broken one
        (record {
          scale = 1;
          stages = stage_with (4 ∷ 0 ∷ []) (true ∷ true ∷ []) ∷ stage_with (1 ∷ []) [] ∷ [];
        })
        ≡ Some (breaks 0 1 spot.Whole 1 2) }
    ensures marks { first_broken one
        (record {
          scale = 1;
          stages = stage_with (4 ∷ 0 ∷ []) (true ∷ true ∷ [])
              ∷ stage_with (1 ∷ 3 ∷ []) (true ∷ true ∷ true ∷ [])
              ∷ [];
        })
        ≡ Some (breaks 0 1 spot.Whole 3 2) }
{}

/// By a rate, and by a mark; the start comes before the end.
pub fn another_start_is_found()
    ensures rate { first_broken one (all_installed 2 1 ((3 ∷ 1 ∷ []) ∷ (2 ∷ 2 ∷ []) ∷ []))
        ≡ Some (breaks 1 0 (spot.Tunnel 0) 3 4) }
    ensures mark { first_broken replaced (without_stage 0 replaced_plan)
        ≡ Some (breaks 1 0 (spot.Tunnel 1) 1 0) }
{}

pub fn another_end_is_found()
    ensures rate { first_broken one (all_installed 2 1 ((4 ∷ 0 ∷ []) ∷ (1 ∷ 2 ∷ []) ∷ []))
        ≡ Some (breaks 2 1 (spot.Tunnel 1) 2 3) }
    ensures mark { first_broken replaced (without_stage 3 replaced_plan)
        ≡ Some (breaks 2 2 (spot.Tunnel 0) 1 0) }
{}

/// A link has 4 against 2, and at the last stage 3 against 2; a table has 3 against 2.
pub fn a_step_that_takes_too_much_is_found()
    ensures link { first_broken (swap 2 2) (direct_plan (swap 2 2))
        ≡ Some (breaks 3 0 (spot.Link 0) 4 2) }
    ensures last { first_broken (pipe 0 3) (direct_plan (pipe 0 3))
        ≡ Some (breaks 3 0 (spot.Link 0) 3 2) }
    ensures table { first_broken table_network (without_stage 1 table_plan)
        ≡ Some (breaks 3 0 (spot.Table 0) 3 2) }
{}

/// The tables hold nothing, and still the link is found; where it has room, the first table is.
pub fn links_come_before_tables()
    ensures link { first_broken (record (pipe 3 3)
        { switches = switch_named (codes "A") 0 ∷ switch_named (codes "B") 0 ∷ [] })
        (direct_plan (pipe 3 3))
        ≡ Some (breaks 3 0 (spot.Link 0) 3 2) }
    ensures table { first_broken (record (pipe 1 1)
        { switches = switch_named (codes "A") 1 ∷ switch_named (codes "B") 0 ∷ [] })
        (direct_plan (pipe 1 1))
        ≡ Some (breaks 3 0 (spot.Table 1) 1 0) }
{}

/// A link counts in units of 1/scale: 2 of capacity are 6 of these.
pub fn a_capacity_is_scaled()
    ensures { first_broken (pipe 1 1) (all_installed 1 3 ((3 ∷ []) ∷ (7 ∷ []) ∷ (3 ∷ []) ∷ []))
        ≡ Some (breaks 3 0 (spot.Link 0) 7 6) }
{}

/// What is found is the stage at which the tunnel is missing: before, here, or after, the first of them.
pub fn a_tunnel_that_carries_uninstalled_is_found()
    ensures before { first_broken table_network (without_stage 2 table_plan)
        ≡ Some (breaks 4 2 (spot.Tunnel 2) 1 2) }
    ensures behind { first_broken replaced (without_stage 2 replaced_plan)
        ≡ Some (breaks 4 1 (spot.Tunnel 0) 2 1) }
    ensures before_and_here { first_broken (pipe 0 0)
        (record {
          scale = 1;
          stages = stage_with (0 ∷ []) (true ∷ [])
              ∷ stage_with (0 ∷ []) (false ∷ [])
              ∷ stage_with (1 ∷ []) (false ∷ [])
              ∷ stage_with (0 ∷ []) (true ∷ [])
              ∷ [];
        })
        ≡ Some (breaks 4 2 (spot.Tunnel 0) 1 2) }
    ensures here_and_behind { first_broken (pipe 0 0)
        (record {
          scale = 1;
          stages = stage_with (0 ∷ []) (true ∷ [])
              ∷ stage_with (1 ∷ []) (false ∷ [])
              ∷ stage_with (0 ∷ []) (false ∷ [])
              ∷ stage_with (0 ∷ []) (true ∷ [])
              ∷ [];
        })
        ≡ Some (breaks 4 1 (spot.Tunnel 0) 1 1) }
{}

/// The bound that a total passes is named.
pub fn a_total_outside_its_bounds_is_found()
    ensures below { first_broken (pipe 1 2)
        (all_installed 1 1 ((1 ∷ []) ∷ (0 ∷ []) ∷ (2 ∷ []) ∷ []))
        ≡ Some (breaks 5 1 (spot.Flow 0) 0 1) }
    ensures above { first_broken (pipe 0 1)
        (all_installed 1 1 ((0 ∷ []) ∷ (2 ∷ []) ∷ (1 ∷ []) ∷ []))
        ≡ Some (breaks 5 1 (spot.Flow 0) 2 1) }
{}

/// The fuller split decides; 63 of 64 leave the least share, and 64 of 65 none that counts.
pub fn the_least_slack_is_that_of_the_fullest_link()
    ensures half { least_slack one ≡ Some 2 }
    ensures third { least_slack (swap 9 6) ≡ Some 3 }
    ensures new_is_full { least_slack (pipe 1 2) ≡ None }
    ensures least { least_slack (swap 64 63) ≡ Some 64 }
    ensures less { least_slack (swap 65 64) ≡ None }
    ensures no_flow { least_slack no_problem ≡ Some 2 }
{}
