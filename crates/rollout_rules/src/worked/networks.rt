//! Loads, and how problems are built and looked up.
ghost use Rattle.std.specs.Prelude.{◌≡◌, Bool, true, false, [], ◌∷◌, codes, slice_index};
ghost use Rattle.rollout_rules.specs.Wan.{crosses, old_rate, new_rate, tunnel_at, rate_at, last_stage, next_stage};
ghost use Rattle.rollout_rules.specs.Items.{load};
ghost use Rattle.rollout_rules.specs.Building.{no_problem, find_switch, find_flow, find_link, links_along, with_switch, with_link, with_flow, with_tunnel, has_ends};
ghost use Rattle.rollout_rules.specs.Named.{one, late, one_plan, late_plan};

/// A link carries the rates of the tunnels that cross it, and of no other.
pub fn a_link_carries_the_tunnels_that_cross_it()
    ensures crossed { crosses late 1 2 ≡ true }
    ensures passed_by { crosses late 0 2 ≡ false }
    ensures shared { load late (λ t. slice_index (1 ∷ 2 ∷ 4 ∷ 8 ∷ 16 ∷ []) t) 2 ≡ 18 }
    ensures alone { load late (λ t. slice_index (1 ∷ 2 ∷ 4 ∷ 8 ∷ 16 ∷ []) t) 7 ≡ 8 }
    ensures old { load one (λ t. old_rate (tunnel_at one t)) 0 ≡ 4 }
    ensures new { load one (λ t. new_rate (tunnel_at one t)) 2 ≡ 3 }
{}

/// The stage behind the last is the last itself.
pub fn the_last_stage_has_none_behind()
    ensures last { last_stage late_plan ≡ 4 }
    ensures within { next_stage late_plan 3 ≡ 4 }
    ensures at_the_end { next_stage late_plan 4 ≡ 4 }
    ensures carried { rate_at late_plan 4 4 ≡ 2 }
{}

/// Names and links are found by what they are, in one direction alone.
pub fn names_and_links_are_found()
    ensures switch { find_switch one (codes "C") ≡ Some 2 }
    ensures no_switch { find_switch one (codes "f") ≡ None }
    ensures flow { find_flow one (codes "f") ≡ Some 0 }
    ensures no_flow { find_flow one (codes "A") ≡ None }
    ensures link { find_link one 2 1 ≡ Some 2 }
    ensures not_back { find_link one 1 2 ≡ None }
    ensures along { links_along one (0 ∷ 2 ∷ 1 ∷ []) ≡ 1 ∷ 2 ∷ [] }
{}

/// A tunnel has the ends of the first one of its flow.
pub fn tunnels_of_a_flow_have_its_ends()
    ensures same { has_ends one 0 (0 ∷ 2 ∷ 1 ∷ []) ≡ true }
    ensures other_end { has_ends one 0 (0 ∷ 2 ∷ []) ≡ false }
    ensures other_start { has_ends one 0 (2 ∷ 1 ∷ []) ≡ false }
    ensures first_tunnel { has_ends (with_flow one (codes "g")) 1 (2 ∷ 1 ∷ []) ≡ true }
{}

/// A problem built row by row has these rows, with the links of each path looked up.
pub fn a_problem_is_built_row_by_row()
    ensures { let switches = with_switch (with_switch (with_switch no_problem (codes "A") 8) (codes "B") 8) (codes "C") 8 in
        let links = with_link (with_link (with_link switches 0 1 10) 0 2 10) 2 1 10 in
        let direct = with_tunnel (with_flow links (codes "f")) (0 ∷ 1 ∷ []) (Some 4) (Some 1) 1 in
        with_tunnel direct (0 ∷ 2 ∷ 1 ∷ []) (Some 0) (Some 3) 1 ≡ one }
{}
