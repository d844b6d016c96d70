//! The worked examples: each function states a fact of a small network, and proving it is computing it.
ghost use Rattle.std.specs.Prelude.{◌≡◌, pos, Some, None, [], ◌∷◌, map};
ghost use Rattle.rollout_rules.specs.Building.{no_problem};
ghost use Rattle.rollout_rules.specs.Named.{pause, table_network, ahead, all_installed, pause_plan};
ghost use Rattle.scratch_plan.specs.Frame.{frame};
ghost use Rattle.fraction_lp.specs.Ratio.{ratio};
ghost use Rattle.fraction_lp.specs.Worked.{trade};
ghost use Rattle.step_lp.specs.Program.{whole, used_tunnels, unknowns, move_program, cells};
ghost use Rattle.step_lp.specs.Moves.{AreMoves};
ghost use Rattle.step_lp.specs.Words.{resting, lacking_a_top, overlapping};
ghost use Rattle.step_lp.specs.Points.{lcm, scale_of, plan_of};

/// Two flows that trade a link, in two steps.
pub fn a_pause_is_a_trade()
    ensures { move_program pause 2 ≡ trade }
{}

/// The first flow may leave its link before the second comes. It may not do so without a top, nor stay
/// while the second comes: both tops would be 4 of 2.
pub fn a_trade_is_a_move_by_way_of_rest()
    ensures rest { AreMoves pause 2 1 resting }
    ensures top { AreMoves pause 2 1 lacking_a_top → ⊥ }
    ensures link { AreMoves pause 2 1 overlapping → ⊥ }
{}

/// The one link idles at the stage between.
pub fn the_point_of_a_trade_is_a_pause()
    ensures { plan_of pause 2 (map whole (pos 0 ∷ pos 0 ∷ pos 2 ∷ pos 0 ∷ pos 0 ∷ pos 2 ∷ []))
        ≡ Some pause_plan }
{}

/// 14 rows times 7; 150 rows times 67 are 10,050, and times 66 would be 9,900.
pub fn cells_are_rows_times_one_more_than_the_unknowns()
    ensures empty { cells no_problem 8 ≡ Some 0 }
    ensures few { cells pause 2 ≡ Some 98 }
    ensures most { cells ahead 5 ≡ Some 6820 }
    ensures more { cells ahead 6 ≡ None }
{}

/// The second tunnel is neither wanted nor carrying: it has no unknown, and no rate in the plan.
pub fn an_idle_tunnel_has_no_unknown()
    ensures used { used_tunnels table_network ≡ 0 ∷ 2 ∷ [] }
    ensures unknowns { unknowns table_network 2 ≡ 6 }
    ensures plan { plan_of table_network 2
        (map whole (pos 3 ∷ pos 1 ∷ pos 4 ∷ pos 1 ∷ pos 3 ∷ pos 2 ∷ []))
        ≡ Some (frame table_network 1 ((3 ∷ 0 ∷ 1 ∷ []) ∷ [])) }
{}

/// Rates of 1/2 and 1/3 are 3 and 2 units of 1/6, whatever the tops are.
pub fn the_scale_is_common_to_the_rates_alone()
    ensures lcm { lcm 4 6 ≡ 12 }
    ensures scale { scale_of pause 2
        (ratio (pos 1) 2
        ∷ ratio (pos 1) 3
        ∷ whole (pos 2)
        ∷ ratio (pos 1) 7
        ∷ ratio (pos 1) 2
        ∷ whole (pos 2)
        ∷ [])
        ≡ 6 }
    ensures plan { plan_of pause 2
        (ratio (pos 1) 2
        ∷ ratio (pos 1) 3
        ∷ whole (pos 2)
        ∷ ratio (pos 1) 7
        ∷ ratio (pos 1) 2
        ∷ whole (pos 2)
        ∷ [])
        ≡ Some (all_installed 2 6 ((12 ∷ 0 ∷ []) ∷ (3 ∷ 2 ∷ []) ∷ (0 ∷ 12 ∷ []) ∷ [])) }
{}

/// 65,536 is the largest scale.
pub fn a_finer_rate_has_no_plan()
    ensures largest { plan_of pause 2
        (ratio (pos 1) 65536 ∷ map whole (pos 0 ∷ pos 2 ∷ pos 0 ∷ pos 1 ∷ pos 2 ∷ []))
        ≡ Some (all_installed 2 65536 ((131072 ∷ 0 ∷ []) ∷ (1 ∷ 0 ∷ []) ∷ (0 ∷ 131072 ∷ []) ∷ [])) }
    ensures finer { plan_of pause 2
        (ratio (pos 1) 65537 ∷ map whole (pos 0 ∷ pos 2 ∷ pos 0 ∷ pos 1 ∷ pos 2 ∷ []))
        ≡ None }
{}
