//! The worked examples: each function states a fact of a small network, and proving it is computing it.
ghost use Rattle.std.specs.Prelude.{◌≡◌, true, false, None, [], ◌∷◌, ◌++◌, is_some, replicate};
ghost use Rattle.rollout_rules.specs.Agent.{Holding, pair_of, nothing_held};
ghost use Rattle.rollout_rules.specs.History.{no_start};
ghost use Rattle.rollout_rules.specs.World.{held_of};
ghost use Rattle.rollout_rules.specs.Named.{one, ahead, one_plan, ahead_plan, all_installed};
ghost use Rattle.rollout_rules.specs.Worked.{given_of, begin_of, done_of, world_after};
ghost use Rattle.rollout_rules.specs.declared.event.Event.TheVariants as event;
ghost use Rattle.takeover_rules.specs.Terms.{floor_after, guarded_after, unguarded};
ghost use Rattle.takeover_rules.specs.Takeovers.{is_all_fenced, is_fenced, is_home_fenced, no_fences};
ghost use Rattle.takeover_rules.specs.Worked.{floored, by_older, by_newer, takeover_after, sent_of, applied_of, ended_of, late_after, fenced_and_ended, start_of, entries_of, given_in};
ghost use Rattle.takeover_rules.specs.declared.event.TwoEvent.TheVariants as two;

/// Only what is above its floor, or at it, is carried out; a command that names no term has term 0.
pub fn a_switch_passes_over_lower_terms()
    ensures lower { guarded_after (floored 2) 1 (pair_of 0 1) (0 ∷ []) ≡ floored 2 }
    ensures none { guarded_after (floored 1) 0 (pair_of 0 1) (0 ∷ []) ≡ floored 1 }
    ensures equal { guarded_after (floored 2) 2 (pair_of 0 1) (0 ∷ [])
        ≡ record { floor = 2; holding = record { held = pair_of 0 1; content = 0 ∷ [] } } }
    ensures higher { guarded_after (floored 2) 3 (pair_of 0 1) (0 ∷ [])
        ≡ record { floor = 3; holding = record { held = pair_of 0 1; content = 0 ∷ [] } } }
    ensures no_floor { guarded_after (unguarded nothing_held) 0 (pair_of 0 1) (0 ∷ [])
        ≡ record { floor = 0; holding = record { held = pair_of 0 1; content = 0 ∷ [] } } }
{}

/// Also by a command that the agent rule passes over.
pub fn a_higher_term_raises_the_floor()
    ensures probe { guarded_after (unguarded nothing_held) 2 (pair_of 0 0) (0 ∷ []) ≡ floored 2 }
    ensures repeated { let holding : Holding = record { held = pair_of 0 3; content = 7 ∷ [] } in
        guarded_after (record { floor = 1; holding = holding }) 5 (pair_of 0 3) (9 ∷ [])
        ≡ record { floor = 5; holding = holding } }
    ensures raised { floor_after 2 4 ≡ 4 }
    ensures same { floor_after 4 4 ≡ 4 }
    ensures never_lowered { floor_after 4 2 ≡ 4 }
{}

/// Not while one of them is open to the older controller; a switch that changes nothing needs no fence.
pub fn the_newer_world_begins_with_the_last_fence()
    ensures at_first { (takeover_after ahead ahead_plan []).newer ≡ None }
    ensures one_of_two { (takeover_after ahead ahead_plan (two.Fence 0 ∷ [])).newer ≡ None }
    ensures other_of_two { (takeover_after ahead ahead_plan (two.Fence 4 ∷ [])).newer ≡ None }
    ensures both { is_some (takeover_after ahead ahead_plan (two.Fence 0 ∷ two.Fence 4 ∷ [])).newer
        ≡ true }
    ensures elsewhere { (takeover_after ahead ahead_plan (two.Fence 0 ∷ two.Fence 1 ∷ [])).newer
        ≡ None }
    ensures twice { (takeover_after ahead ahead_plan (two.Fence 0 ∷ two.Fence 0 ∷ [])).newer
        ≡ None }
    ensures no_switch { (takeover_after ahead ahead_plan (two.Fence 8 ∷ [])).fenced
        ≡ no_fences ahead }
    ensures nothing_to_do { let plan = all_installed 2 1 ((4 ∷ 0 ∷ []) ∷ []) in
        is_some (takeover_after one plan []).newer ≡ true }
{}

/// By the switch of the item: that of a flow is the first on its paths.
pub fn an_item_is_fenced_with_its_switch()
    ensures flow { is_fenced one (true ∷ false ∷ false ∷ []) 0 ≡ true }
    ensures another_switch { is_fenced one (false ∷ true ∷ true ∷ []) 0 ≡ false }
    ensures entry { is_fenced one (false ∷ true ∷ false ∷ []) 2 ≡ true }
    ensures no_mark { is_fenced one [] 0 ≡ false }
    ensures no_switch { is_home_fenced (true ∷ []) None ≡ false }
    ensures all { is_all_fenced one one_plan (true ∷ false ∷ false ∷ []) ≡ true }
    ensures none { is_all_fenced one one_plan (false ∷ true ∷ true ∷ []) ≡ false }
{}

/// Each item begins where its switch had come, whether or not the older controller was told.
pub fn the_newer_world_begins_with_what_the_switches_hold()
    ensures nothing { start_of (takeover_after one one_plan (two.Fence 0 ∷ [])).newer
        ≡ no_start one }
    ensures applied { let events = by_older (applied_of 0 1) ++ two.Fence 0 ∷ [] in
        start_of (takeover_after one one_plan events).newer
        ≡ 1 ∷ 0 ∷ 0 ∷ 0 ∷ 0 ∷ 0 ∷ [] }
    ensures on_its_way { let events = by_older (sent_of 0 1) ++ two.Fence 0 ∷ [] in
        start_of (takeover_after one one_plan events).newer
        ≡ no_start one }
    ensures between_fences { let between = by_older (applied_of 2 1) ++ two.Fence 4 ∷ [] in
        let events = two.Fence 0 ∷ between in
        start_of (takeover_after ahead ahead_plan events).newer
        ≡ 0 ∷ 0 ∷ 1 ∷ replicate 18 0 }
    ensures no_entries { let events = by_older (applied_of 0 1) ++ two.Fence 0 ∷ [] in
        entries_of (takeover_after one one_plan events).newer
        ≡ [] }
{}

/// A command that was on its way changes nothing, though it be the next.
pub fn a_fenced_switch_answers_the_older_controller_with_what_it_holds()
    ensures held { held_of (takeover_after one one_plan (late_after 0)).older 0
        ≡ record { held = pair_of 0 0; content = 4 ∷ 0 ∷ [] } }
    ensures given { (takeover_after one one_plan (late_after 0)).older.given
        ≡ given_of 0 0 0 ∷ [] }
    ensures newer { given_in (takeover_after one one_plan (late_after 0)).newer
        ≡ [] }
    ensures before_the_last { held_of (takeover_after ahead ahead_plan (late_after 0)).older 0
        ≡ record { held = pair_of 0 0; content = 12 ∷ 0 ∷ [] } }
    ensures not_fenced { (held_of (takeover_after ahead ahead_plan (late_after 4)).older 0).held
        ≡ pair_of 0 1 }
{}

/// Until its last switch is fenced the older controller goes on as if there were no other.
pub fn the_older_world_goes_on_before_the_fences()
    ensures alone { (takeover_after one one_plan (by_older (ended_of 0 1))).older
        ≡ world_after one one_plan (ended_of 0 1) }
    ensures newer_waits { takeover_after one one_plan (by_newer (applied_of 0 1))
        ≡ takeover_after one one_plan [] }
{}

/// With entries of its own, which a further fence leaves, and both worlds hold what its commands brought.
pub fn the_newer_controller_goes_on_to_the_end()
    ensures entries { entries_of (takeover_after one one_plan fenced_and_ended).newer
        ≡ begin_of 0 1 ∷ done_of 0 1 ∷ [] }
    ensures held { held_of (takeover_after one one_plan fenced_and_ended).older 0
        ≡ record { held = pair_of 0 1; content = 1 ∷ 3 ∷ [] } }
    ensures older_entries { (takeover_after one one_plan fenced_and_ended).older.durable.entries
        ≡ begin_of 0 1 ∷ [] }
    ensures fenced_again { let events = fenced_and_ended ++ two.Fence 1 ∷ [] in
        entries_of (takeover_after one one_plan events).newer
        ≡ begin_of 0 1 ∷ done_of 0 1 ∷ [] }
    ensures told_late { let events = fenced_and_ended ++ by_older (event.Deliver 0 ∷ []) in
        (takeover_after one one_plan events).older.given
        ≡ given_of 0 0 1 ∷ [] }
{}
