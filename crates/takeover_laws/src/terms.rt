ghost use Rattle.std.specs.Prelude.{◌≡◌, ℕ, ◌<◌, ◌≤◌, List};
ghost use Rattle.rollout_rules.specs.Agent.{Holding, held_after, pair_of};
ghost use Rattle.rollout_rules.specs.declared.held.Held.{Held};
ghost use Rattle.takeover_rules.specs.Terms.{Asked, Guarded, floor_after, guarded_after, guarded_after_all, held_after_all};

/// The floor is the term of each command that isn't passed over; it never falls. A command below it changes
/// nothing, and any other is carried out by the agent rule.
pub fn a_floor_follows_the_terms()
    ensures after { (g : Guarded) (term : ℕ) (asked : Held) (content : List ℕ)
        → (guarded_after g term asked content).floor ≡ floor_after g.floor term }
    ensures raised { (floor term : ℕ) → floor ≤ term → floor_after floor term ≡ term }
    ensures least { (floor term : ℕ) → floor ≤ floor_after floor term }
    ensures carried_out { (g : Guarded) (term : ℕ) (asked : Held) (content : List ℕ)
        → g.floor ≤ term
        → guarded_after g term asked content
        ≡ record { floor = term; holding = held_after g.holding asked content } }
    ensures below { (g : Guarded) (term : ℕ) (asked : Held) (content : List ℕ) → term < g.floor
        → guarded_after g term asked content ≡ g }
{}

/// Of commands of one term that come to a switch in a row, all are carried out by the agent rule, or none
/// is: by whether the floor was above the term.
pub fn commands_of_one_term_go_together()
    ensures all { (g : Guarded) (term : ℕ) (commands : List Asked) → g.floor ≤ term
        → (guarded_after_all g term commands).holding ≡ held_after_all g.holding commands }
    ensures none { (g : Guarded) (term : ℕ) (commands : List Asked) → term < g.floor
        → guarded_after_all g term commands ≡ g }
{}

/// A command of number 0 is carried out by no switch, whatever migration it names; so a controller learns
/// by it what is held, and raises the floor.
pub fn a_probe_changes_no_pair()
    ensures held { (holding : Holding) (migration : ℕ) (content : List ℕ)
        → held_after holding (pair_of migration 0) content ≡ holding }
    ensures guarded { (g : Guarded) (term migration : ℕ) (content : List ℕ) → g.floor ≤ term
        → guarded_after g term (pair_of migration 0) content ≡ record g { floor = term } }
{}
