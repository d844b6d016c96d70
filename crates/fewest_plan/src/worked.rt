//! The worked examples: each function states a fact of small numbers, and proving it is computing it.
ghost use Rattle.std.specs.Prelude.{◌≡◌, Some, None, [], ◌∷◌};
ghost use Rattle.rollout_rules.specs.Named.{swap, pause, three};
ghost use Rattle.fewest_plan.specs.Relief.{by_loads};
ghost use Rattle.fewest_plan.specs.Stuck.{stuck_link};

/// Of three flows the last one relieves the marked links of 3, the first one of nothing, and the second one
/// loads them with 2 more.
pub fn flows_that_relieve_come_first()
    ensures { by_loads (5 ∷ 1 ∷ 4 ∷ []) (5 ∷ 3 ∷ 1 ∷ []) ≡ 2 ∷ 0 ∷ 1 ∷ [] }
{}

/// Two flows that fill both links from A can't change places, by a weight on both.
pub fn full_links_are_stuck()
    ensures { stuck_link (swap 6 6) ≡ Some 0 }
{}

/// They can where a third path has room, or where a flow may pause.
pub fn a_detour_or_a_pause_is_left()
    ensures detour { stuck_link three ≡ None }
    ensures pause { stuck_link pause ≡ None }
{}
