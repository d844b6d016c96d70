//! The worked examples: each function states a fact of a small network, and proving it is computing it.
ghost use Rattle.std.specs.Prelude.{◌≡◌, false, Some, None, Ok, Err, [], ◌∷◌};
ghost use Rattle.rollout_rules.specs.Wan.{no_tunnel};
ghost use Rattle.rollout_rules.specs.Named.{pipe, swap, table_network, table_with, wide_network, wide_with, replaced, all_installed, halfway_plan, table_plan, replaced_plan};
ghost use Rattle.wan_model.specs.declared.side.Side.TheVariants.{Old, New};
ghost use Rattle.scratch_plan.specs.Frame.{frame, still};
ghost use Rattle.scratch_plan.specs.Marks.{is_idle, is_fresh, is_left};
ghost use Rattle.scratch_plan.specs.Refusals.{refusal};
ghost use Rattle.scratch_plan.specs.Scratch.{scratch_of};
ghost use Rattle.scratch_plan.specs.declared.no_plan.NoPlan.TheVariants.{OverCapacity, TableFull, NoSlack};

/// Loads are told before tables, the old one before the new.
pub fn a_load_above_its_capacity_is_refused()
    ensures both { refusal (pipe 3 4) ≡ Some (OverCapacity 0 Old 3 2) }
    ensures new { refusal (pipe 1 3) ≡ Some (OverCapacity 0 New 3 2) }
    ensures none { refusal (pipe 2 2) ≡ None }
{}

/// Where the idle tunnel carries traffic, three entries meet in a table of 2; where the new one is wider
/// by one, 2 and 4 do in a table of 5.
pub fn a_table_without_room_is_refused()
    ensures plain { refusal (table_with 1) ≡ Some (TableFull 0 3 2) }
    ensures wide { refusal (wide_with 4) ≡ Some (TableFull 0 6 5) }
    ensures none { refusal wide_network ≡ None }
{}

/// The idle tunnel goes, the new one comes, and then the flow moves; a tunnel that carried goes last.
pub fn tunnels_come_and_go_around_the_rates()
    ensures table { frame table_network 1 [] ≡ table_plan }
    ensures wide { frame wide_network 1 [] ≡ table_plan }
    ensures left { frame replaced 1 [] ≡ replaced_plan }
{}

/// A tunnel that is in neither split asks for no stage.
pub fn a_tunnel_in_neither_split_makes_no_stage()
    ensures idle { is_idle no_tunnel ≡ false }
    ensures fresh { is_fresh no_tunnel ≡ false }
    ensures left { is_left no_tunnel ≡ false }
{}

/// A third of each link is free beside 6 of 9, so rates move in two steps.
pub fn a_free_third_gives_two_steps()
    ensures { scratch_of (swap 9 6) ≡ Ok halfway_plan }
{}

/// Full links leave no slack.
pub fn full_links_have_no_scratch_plan()
    ensures { scratch_of (swap 2 2) ≡ Err (NoSlack 0 Old 2 2) }
{}

/// Equal rates have one stage.
pub fn a_still_plan_has_one_stage()
    ensures { still (pipe 2 2) ≡ all_installed 1 1 ((2 ∷ []) ∷ []) }
{}
