//! The worked examples: each function states a fact of a small network, and proving it is computing it.
ghost use Rattle.std.specs.Prelude.{◌≡◌, true, false, [], IsTrue};
ghost use Rattle.rollout_rules.specs.Named.{pipe, swap, pause, three, table_network, halfway_plan, pause_plan, three_plan, table_plan};
ghost use Rattle.rollout_rules.specs.Valid.{is_valid_plan};
ghost use Rattle.fraction_lp.specs.declared.proof.Proof.TheVariants.{Plain, Link, Rows};
ghost use Rattle.lp_proof.specs.RateSteps.{rate_steps};
ghost use Rattle.lp_proof.specs.Shown.{shows_least};
ghost use Rattle.lp_proof.specs.Least.{least_of};
ghost use Rattle.lp_proof.specs.declared.least.Least.TheVariants.{Shown, Wide};
ghost use Rattle.lp_proof.specs.Words.{three_multipliers, without_the_last, ones_among, beside_rest, rest_multipliers, by_the_path};

/// Steps in which tunnels come and go aren't rate steps.
pub fn steps_that_move_rates_are_counted()
    ensures halfway { rate_steps (swap 9 6) halfway_plan ≡ 2 }
    ensures pause { rate_steps pause pause_plan ≡ 2 }
    ensures detour { rate_steps three three_plan ≡ 3 }
    ensures table { rate_steps table_network table_plan ≡ 1 }
{}

/// Equal rates need no step, and other rates one.
pub fn no_step_or_one_needs_no_proof()
    ensures none { shows_least (pipe 2 2) 0 Plain ≡ true }
    ensures equal { shows_least (pipe 2 2) 1 Plain ≡ false }
    ensures one { shows_least pause 1 Plain ≡ true }
    ensures two { shows_least pause 2 Plain ≡ false }
{}

/// The larger rates on the first link sum to 12: more than 9, and not more than 12. There is no tenth link,
/// and a link says nothing of more than two steps.
pub fn a_link_that_is_too_small_shows_two_steps()
    ensures over { shows_least (swap 9 6) 2 (Link 0) ≡ true }
    ensures full { shows_least (swap 12 6) 2 (Link 0) ≡ false }
    ensures outside { shows_least (swap 9 6) 2 (Link 9) ≡ false }
    ensures more { shows_least (swap 9 6) 3 (Link 0) ≡ false }
    ensures found { least_of (swap 9 6) 2 ≡ Shown (Link 0) }
{}

/// The bounds times these multipliers sum to -2, and each unknown gets 0; without the last of them the
/// bounds sum to 0. They say nothing of four steps.
pub fn multipliers_show_three_steps()
    ensures shown { shows_least three 3 (Rows three_multipliers) ≡ true }
    ensures lacking { shows_least three 3 (Rows without_the_last) ≡ false }
    ensures none { shows_least three 3 (Rows (ones_among 40 [])) ≡ false }
    ensures more { shows_least three 4 (Rows three_multipliers) ≡ false }
{}

/// They are those with which the method ends on the program for two steps.
pub fn the_method_finds_these_multipliers()
    ensures { least_of three 3 ≡ Shown (Rows three_multipliers) }
{}

/// No program for more than eight steps is built.
pub fn ten_steps_are_too_wide()
    ensures { least_of pause 10 ≡ Wide }
{}

/// Multipliers exclude two steps for flows that leave a path at rest which neither of their splits has; by
/// way of that path a valid plan takes two.
pub fn a_path_at_rest_may_save_a_step()
    ensures shown { shows_least beside_rest 3 (Rows rest_multipliers) ≡ true }
    ensures valid { IsTrue (is_valid_plan beside_rest by_the_path) }
    ensures steps { rate_steps beside_rest by_the_path ≡ 2 }
{}
