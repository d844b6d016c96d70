//! Which rows a problem takes up, and that what is built of them is a network.
ghost use Rattle.std.specs.Prelude.{◌≡◌, ◌<◌, Bool, true, false, [], ◌∷◌, codes, replicate, slice_index};
ghost use Rattle.rollout_rules.specs.Network.{IsRate, IsPath, IsNetwork};
ghost use Rattle.rollout_rules.specs.Building.{MayAddSwitch, MayAddLink, MayAddFlow, IsRoute, MayAddTunnel, with_flow, no_problem, no_wide_problem};
ghost use Rattle.rollout_rules.specs.Named.{one, pause, wide_network};

/// Its name is new, has 128 bytes at most, and its table 1,000,000 entries.
pub fn a_switch_with_a_new_name_may_be_added()
    ensures fresh { MayAddSwitch one (codes "D") 1000000 }
    ensures empty_name { MayAddSwitch one [] 0 }
    ensures longest_name { MayAddSwitch one (replicate 128 65) 8 }
    ensures same_name { ¬ MayAddSwitch one (codes "A") 8 }
    ensures long_name { ¬ MayAddSwitch one (replicate 129 65) 8 }
    ensures large_table { ¬ MayAddSwitch one (codes "D") 1000001 }
{}

/// Also back, and from a switch to itself.
pub fn a_link_in_a_new_direction_may_be_added()
    ensures back { MayAddLink one 1 0 1000000000000 }
    ensures to_itself { MayAddLink one 1 1 0 }
    ensures same_ends { ¬ MayAddLink one 0 1 10 }
    ensures no_switch { ¬ MayAddLink one 0 3 10 }
    ensures large_capacity { ¬ MayAddLink one 1 0 1000000000001 }
{}

/// Flows and switches are named apart.
pub fn a_flow_with_a_new_name_may_be_added()
    ensures fresh { MayAddFlow one (codes "g") }
    ensures like_a_switch { MayAddFlow one (codes "A") }
    ensures same_name { ¬ MayAddFlow one (codes "f") }
{}

/// It has two switches or more, each joined to the next.
pub fn a_path_follows_links_and_passes_a_switch_once()
    ensures path { IsPath one (0 ∷ 2 ∷ 1 ∷ []) (1 ∷ 2 ∷ []) }
    ensures other_links { ¬ IsPath one (0 ∷ 2 ∷ 1 ∷ []) (1 ∷ 0 ∷ []) }
    ensures one_switch { ¬ IsPath one (0 ∷ []) [] }
    ensures route { IsRoute one (0 ∷ 2 ∷ 1 ∷ []) }
    ensures against_a_link { ¬ IsRoute one (1 ∷ 0 ∷ []) }
    ensures switch_twice { ¬ IsRoute one (0 ∷ 1 ∷ 0 ∷ []) }
{}

/// Its ends are those of the flow's first tunnel, and its rates and its width are within the limits.
pub fn a_tunnel_between_the_flows_ends_may_be_added()
    ensures another { MayAddTunnel one (0 ∷ 1 ∷ []) None (Some 1000000000) 1 }
    ensures first_of_a_flow { MayAddTunnel (with_flow one (codes "g")) (2 ∷ 1 ∷ []) None None 1 }
    ensures other_ends { ¬ MayAddTunnel one (2 ∷ 1 ∷ []) None None 1 }
    ensures short { ¬ MayAddTunnel one (0 ∷ []) None None 1 }
    ensures no_flow { ¬ MayAddTunnel (record one { flows = []; tunnels = [] }) (0 ∷ 1 ∷ []) None None 1 }
    ensures wide_in_format_1 { ¬ MayAddTunnel one (0 ∷ 1 ∷ []) None None 2 }
    ensures wide { MayAddTunnel wide_network (0 ∷ 2 ∷ 1 ∷ []) None None 16 }
    ensures too_wide { ¬ MayAddTunnel wide_network (0 ∷ 2 ∷ 1 ∷ []) None None 17 }
    ensures no_width { ¬ MayAddTunnel wide_network (0 ∷ 2 ∷ 1 ∷ []) None None 0 }
    ensures large_rate { ¬ MayAddTunnel one (0 ∷ 1 ∷ []) (Some 1000000001) None 1 }
{}

/// No limit asks for a row.
pub fn an_empty_problem_is_a_network()
    ensures plain { IsNetwork no_problem }
    ensures wide { IsNetwork no_wide_problem }
    ensures other_format { ¬ IsNetwork (record no_problem { format = 3 }) }
{}

/// Its tunnels follow its links and stand in the order of the flows.
pub fn a_named_problem_is_a_network()
    ensures pause { IsNetwork pause }
    ensures one { IsNetwork one }
{}
