//! The worked examples: each function states a fact of a small network, and proving it is computing it.
ghost use Rattle.std.specs.Prelude.{◌≡◌, Ok, [], ◌∷◌};
ghost use Rattle.rollout_rules.specs.Named.{pipe, swap, pause, three, table_network, wide_network, all_installed, halfway_plan, pause_plan, three_plan, table_plan};
ghost use Rattle.plan_choose.specs.Choice.{chosen};

/// Equal rates need no step.
pub fn equal_rates_stand_still()
    ensures { chosen (pipe 2 2)
        ≡ Ok (record { plan = all_installed 1 1 ((2 ∷ []) ∷ []); rate_steps = 0 }) }
{}

/// Links of 10 carry both flows of 5 in the one step, and tables have room where an idle tunnel goes first.
pub fn a_step_that_fits_is_direct()
    ensures swap { chosen (swap 10 5)
        ≡ Ok (record {
          plan = all_installed 4 1 ((5 ∷ 0 ∷ 0 ∷ 5 ∷ []) ∷ (0 ∷ 5 ∷ 5 ∷ 0 ∷ []) ∷ []);
          rate_steps = 1;
        }) }
    ensures table { chosen table_network ≡ Ok (record { plan = table_plan; rate_steps = 1 }) }
    ensures wide { chosen wide_network ≡ Ok (record { plan = table_plan; rate_steps = 1 }) }
{}

/// The link is full before and after, and idles between.
pub fn a_pause_takes_two_steps()
    ensures { chosen pause ≡ Ok (record { plan = pause_plan; rate_steps = 2 }) }
{}

/// Two flows on full links change places by way of a third path.
pub fn a_detour_takes_three_steps()
    ensures { chosen three ≡ Ok (record { plan = three_plan; rate_steps = 3 }) }
{}

/// With slack 1/3 scratch takes two steps, so no program is run.
pub fn a_third_that_is_free_is_used_from_scratch()
    ensures { chosen (swap 9 6) ≡ Ok (record { plan = halfway_plan; rate_steps = 2 }) }
{}
