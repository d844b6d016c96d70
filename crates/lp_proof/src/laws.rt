//! Theorems on fewest rate steps, as functions that only say them.

ghost use Rattle.std.specs.Prelude.{ℕ, IsTrue};
ghost use Rattle.rollout_rules.specs.Wan.{Problem};
ghost use Rattle.rollout_rules.specs.Network.{IsNetwork};
ghost use Rattle.fraction_lp.specs.declared.proof.Proof.{Proof};
ghost use Rattle.lp_proof.specs.RateSteps.{TakesAtLeast};
ghost use Rattle.lp_proof.specs.Shown.{ShowsLeast, IsFormed, shows_least};

/// What shows that no plan has q - 1 rate steps shows it of all: no valid plan, at whatever scale, takes
/// fewer than q, among those that leave tunnels neither wanted nor carrying at rate 0.
pub fn what_is_shown_holds_of_every_plan()
    ensures { (p : Problem)
        → (q : ℕ)
        → (proof : Proof)
        → IsNetwork p
        → ShowsLeast p q proof
        → TakesAtLeast p q }
{}

/// What the check accepts shows it, and what shows it is accepted where no number leaves its type.
pub fn the_check_tells_what_is_shown()
    ensures sound { (p : Problem)
        → (q : ℕ)
        → (proof : Proof)
        → IsTrue (shows_least p q proof)
        → ShowsLeast p q proof }
    ensures formed { (p : Problem)
        → (q : ℕ)
        → (proof : Proof)
        → IsTrue (shows_least p q proof)
        → IsFormed p q proof }
    ensures complete { (p : Problem)
        → (q : ℕ)
        → (proof : Proof)
        → ShowsLeast p q proof
        → IsFormed p q proof
        → IsTrue (shows_least p q proof) }
{}
