//! Worked examples: what words ask for, and which link a name is.
ghost use Rattle.std.specs.Prelude.{◌≡◌, [], ◌∷◌, codes, Some, None};
ghost use Rattle.rollout_rules.specs.Named.{one};
ghost use Rattle.text_commands.specs.declared.words.Planner.TheVariants.{Fewest, Slack};
ghost use Rattle.retarget_top.specs.Aims.{link_named};
ghost use Rattle.retarget_top.specs.Words.{retarget_in};

/// Each pair has a default; a migration without a next one is no command line.
pub fn words_ask_for_another_target()
    ensures plain { retarget_in (codes "retarget" ∷ [])
        ≡ Some (record { migration = 0; planner = Slack; shed = [] }) }
    ensures shed { retarget_in (codes "retarget" ∷ codes "--shed" ∷ codes "A>B"
        ∷ codes "--migration" ∷ codes "3" ∷ codes "--planner" ∷ codes "fewest" ∷ [])
        ≡ Some (record { migration = 3; planner = Fewest; shed = codes "A>B" }) }
    ensures last { retarget_in (codes "retarget" ∷ codes "--migration" ∷ codes "4294967295" ∷ [])
        ≡ None }
    ensures other { retarget_in (codes "left" ∷ []) ≡ None }
{}

/// A link goes by the names of its ends.
pub fn a_link_is_named_by_its_ends()
    ensures first { link_named one (codes "A>B") ≡ Some 0 }
    ensures last { link_named one (codes "C>B") ≡ Some 2 }
    ensures back { link_named one (codes "B>A") ≡ None }
{}
