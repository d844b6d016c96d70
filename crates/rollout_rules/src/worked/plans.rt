//! Which plans are valid, and which clause alone a wrong one breaks.
ghost use Rattle.std.specs.Prelude.{◌≡◌, ◌*◌, Bool, true, false, [], ◌∷◌, replicate};
ghost use Rattle.rollout_rules.specs.Plans.{direct_plan};
ghost use Rattle.rollout_rules.specs.Valid.{has_shape, same_mark, flow_total, is_valid_plan};
ghost use Rattle.rollout_rules.specs.Building.{no_problem};
ghost use Rattle.rollout_rules.specs.Named.{stage_with, all_installed, one, swap, pause, three, table_network, ahead, late, replaced, branch, crowd, pipe, one_plan, halfway_plan, pause_plan, three_plan, table_plan, ahead_plan, late_plan, replaced_plan, crowd_plan, without_stage};
ghost use Rattle.rollout_rules.specs.Worked.{broken_clauses};

/// There is room on all links for both splits at once.
pub fn one_goes_in_a_direct_step()
    ensures direct { direct_plan one ≡ one_plan }
    ensures valid { is_valid_plan one one_plan ≡ true }
{}

/// Each step's sum is 10 of 10.
pub fn a_swap_of_half_the_capacity_goes_in_one_step()
    ensures { is_valid_plan (swap 10 5) (direct_plan (swap 10 5)) ≡ true }
{}

/// Each step's sum is 18 of 18, where one step would have 12 of 9.
pub fn a_swap_of_two_thirds_goes_in_two_steps()
    ensures two { is_valid_plan (swap 9 6) halfway_plan ≡ true }
    ensures one { broken_clauses (swap 9 6) (direct_plan (swap 9 6)) ≡ 3 ∷ [] }
{}

/// By way of stages at rest, of third paths, and of tables and links with no place to spare.
pub fn plans_of_the_named_networks_are_valid()
    ensures pause { is_valid_plan pause pause_plan ≡ true }
    ensures three { is_valid_plan three three_plan ≡ true }
    ensures table { is_valid_plan table_network table_plan ≡ true }
    ensures ahead { is_valid_plan ahead ahead_plan ≡ true }
    ensures late { is_valid_plan late late_plan ≡ true }
    ensures replaced { is_valid_plan replaced replaced_plan ≡ true }
    ensures crowd { is_valid_plan crowd crowd_plan ≡ true }
    ensures branch { is_valid_plan branch (direct_plan branch) ≡ true }
{}

/// Without flows one empty stage is a plan, and no stage is none.
pub fn an_empty_network_has_a_plan_of_one_stage()
    ensures one_stage { is_valid_plan no_problem (all_installed 0 1 ([] ∷ [])) ≡ true }
    ensures no_stage { broken_clauses no_problem (all_installed 0 1 []) ≡ 0 ∷ [] }
{}

/// Scales go from 1 to 65,536.
pub fn a_scale_above_the_limit_breaks_p0()
    ensures largest { broken_clauses one (all_installed 2 65536 ((262144 ∷ 0 ∷ []) ∷ (65536 ∷ 196608 ∷ []) ∷ [])) ≡ [] }
    ensures above { broken_clauses one (all_installed 2 65537 ((262148 ∷ 0 ∷ []) ∷ (65537 ∷ 196611 ∷ []) ∷ [])) ≡ 0 ∷ [] }
    ensures zero { has_shape one (all_installed 2 0 ((0 ∷ 0 ∷ []) ∷ [])) ≡ false }
{}

/// Stages are 256 at most, each with a rate and a mark per tunnel.
pub fn a_mark_too_many_breaks_p0()
    ensures marks { broken_clauses one (record { scale = 1; stages = stage_with (4 ∷ 0 ∷ []) (true ∷ true ∷ []) ∷ stage_with (1 ∷ 3 ∷ []) (true ∷ true ∷ true ∷ []) ∷ [] }) ≡ 0 ∷ [] }
    ensures rates { has_shape one (all_installed 2 1 ((4 ∷ []) ∷ (1 ∷ 3 ∷ []) ∷ [])) ≡ false }
    ensures most_stages { has_shape one (all_installed 2 1 (replicate 256 (4 ∷ 0 ∷ []))) ≡ true }
    ensures too_many_stages { has_shape one (all_installed 2 1 (replicate 257 (4 ∷ 0 ∷ []))) ≡ false }
{}

/// By a rate, and by a mark.
pub fn another_start_breaks_p1()
    ensures rate { broken_clauses one (all_installed 2 1 ((3 ∷ 1 ∷ []) ∷ (1 ∷ 3 ∷ []) ∷ [])) ≡ 1 ∷ [] }
    ensures mark { broken_clauses replaced (without_stage 0 replaced_plan) ≡ 1 ∷ [] }
{}

/// By a rate, and by a mark.
pub fn another_end_breaks_p2()
    ensures rate { broken_clauses one (all_installed 2 1 ((4 ∷ 0 ∷ []) ∷ (2 ∷ 2 ∷ []) ∷ [])) ≡ 2 ∷ [] }
    ensures mark { broken_clauses replaced (without_stage 3 replaced_plan) ≡ 2 ∷ [] }
{}

/// A link would have 4 against 2.
pub fn a_full_swap_in_one_step_breaks_p3()
    ensures swap { broken_clauses (swap 2 2) (direct_plan (swap 2 2)) ≡ 3 ∷ [] }
    ensures pause { broken_clauses pause (direct_plan pause) ≡ 3 ∷ [] }
{}

/// A link that is too full at rest breaks it, though no step be taken.
pub fn a_full_link_at_the_last_stage_breaks_p3()
    ensures one_stage { broken_clauses (pipe 3 3) (all_installed 1 1 ((3 ∷ []) ∷ [])) ≡ 3 ∷ [] }
    ensures two_stages { broken_clauses (pipe 3 3) (all_installed 1 1 ((3 ∷ []) ∷ (3 ∷ []) ∷ [])) ≡ 3 ∷ [] }
{}

/// The tables of A and B would have 3 against 2.
pub fn installing_while_removing_breaks_p3()
    ensures { broken_clauses table_network (without_stage 1 table_plan) ≡ 3 ∷ [] }
{}

/// A tunnel is installed a stage before it carries, and removed a stage behind.
pub fn carrying_while_not_installed_breaks_p4()
    ensures too_early { broken_clauses table_network (without_stage 2 table_plan) ≡ 4 ∷ [] }
    ensures too_late { broken_clauses replaced (without_stage 2 replaced_plan) ≡ 4 ∷ [] }
    ensures both { broken_clauses replaced (direct_plan replaced) ≡ 4 ∷ [] }
{}

/// The flow has 4 at both ends.
pub fn leaving_a_flows_totals_breaks_p5()
    ensures below { broken_clauses one (all_installed 2 1 ((4 ∷ 0 ∷ []) ∷ (1 ∷ 1 ∷ []) ∷ (1 ∷ 3 ∷ []) ∷ [])) ≡ 5 ∷ [] }
    ensures above { broken_clauses one (all_installed 2 1 ((4 ∷ 0 ∷ []) ∷ (4 ∷ 3 ∷ []) ∷ (1 ∷ 3 ∷ []) ∷ [])) ≡ 5 ∷ [] }
{}
