ghost use Rattle.std.specs.Prelude.{ℕ, List, [], ◌↔◌, IsTrue};
ghost use Rattle.rollout_rules.specs.Wan.{Problem, Plan};
ghost use Rattle.rollout_rules.specs.Valid.{is_valid_plan};
ghost use Rattle.rollout_rules.specs.History.{started, no_start, from_nothing, places_of};
ghost use Rattle.rollout_rules.specs.Legal.{is_sound, is_legal};
ghost use Rattle.rollout_laws.specs.Good.{IsGood};

/// A start is sound exactly where its places are good: what is settled exists and has its needs met, and
/// every room fits.
pub fn a_sound_start_is_good()
    ensures { (p : Problem) (plan : Plan) (start : List ℕ) → IsTrue (is_sound p plan start) ↔ IsGood p plan (places_of p (started start)) }
{}

/// The start of a valid plan at which nothing is settled is sound, whether it is written out or left
/// empty, and so the history that begins there is legal.
pub fn the_first_start_is_sound()
    ensures sound { (p : Problem) (plan : Plan) → IsTrue (is_valid_plan p plan) → IsTrue (is_sound p plan (no_start p)) }
    ensures empty { (p : Problem) (plan : Plan) → IsTrue (is_valid_plan p plan) → IsTrue (is_sound p plan []) }
    ensures legal { (p : Problem) (plan : Plan) → IsTrue (is_valid_plan p plan) → IsTrue (is_legal p plan (from_nothing p [])) }
{}
