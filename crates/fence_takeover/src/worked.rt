//! The worked examples: facts of a few pairs, and proving one is computing it.
ghost use Rattle.std.specs.Prelude.{◌≡◌, [], ◌∷◌, None, Some};
ghost use Rattle.rollout_rules.specs.Agent.{pair_of};
ghost use Rattle.rollout_rules.specs.Named.{one};
ghost use Rattle.held_service.specs.declared.not_told.NotTold.TheVariants as cause;
ghost use Rattle.fence_takeover.specs.Ends.{end_of};
ghost use Rattle.fence_takeover.specs.Starts.{number_in, taken_start};
ghost use Rattle.fence_takeover.specs.declared.end.FenceEnd.TheVariants as fence;

/// Of migration 3 the number that is held of it counts, and what is held of migration 2 doesn't.
pub fn what_is_held_of_another_migration_is_no_part_of_the_start()
    ensures own { number_in 3 (Some (pair_of 3 2)) ≡ 2 }
    ensures earlier { number_in 3 (Some (pair_of 2 5)) ≡ 0 }
    ensures none { number_in 3 None ≡ 0 }
{}

/// The flow has come to its first operation of migration 3, and its first entry to one of migration 2. Of the four
/// other entries nothing was asked.
pub fn a_start_has_a_number_for_each_item()
    ensures { taken_start one 3 (Some (pair_of 3 1) ∷ Some (pair_of 2 5) ∷ [])
        ≡ 1 ∷ 0 ∷ 0 ∷ 0 ∷ 0 ∷ 0 ∷ [] }
{}

/// Each cause is told as what it is, and rounds that are spent with how many they were.
pub fn an_end_names_its_cause()
    ensures spent { end_of 9 (cause.Spent 4) ≡ fence.Spent 9 4 }
    ensures port { end_of 9 (cause.Port 4) ≡ fence.Port 4 }
    ensures alien { end_of 9 (cause.NotAsked 4 2) ≡ fence.NotMine 4 2 }
    ensures memory { end_of 9 cause.Memory ≡ fence.Memory }
{}
