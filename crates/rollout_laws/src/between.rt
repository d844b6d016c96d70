ghost use Rattle.std.specs.Prelude.{ℕ, ◌≤◌, IsTrue};
ghost use Rattle.rollout_rules.specs.Sums.{list_below};
ghost use Rattle.rollout_rules.specs.Wan.{Problem, Plan};
ghost use Rattle.rollout_rules.specs.Network.{IsNetwork};
ghost use Rattle.rollout_rules.specs.Items.{Resource, item_count};
ghost use Rattle.rollout_rules.specs.Valid.{is_valid_plan};
ghost use Rattle.rollout_rules.specs.History.{History, Places, places_of};
ghost use Rattle.rollout_rules.specs.Room.{least_stage, room};
ghost use Rattle.rollout_rules.specs.Legal.{is_sound, is_legal};
ghost use Rattle.rollout_rules.specs.Safe.{IsSafe};
ghost use Rattle.rollout_laws.specs.Good.{IsGood, AreWithin, AreHeldWithin, places_held};

/// Wherever each item is between what a legal history has settled and what it has begun, the network is
/// as safe as by the history: what is begun has its needs met, every room fits and is no larger, and the
/// least stage is no lower. And from what the switches hold then, a rollout may go on: it is a sound
/// start.
pub fn between_settled_and_begun_is_safe()
    ensures good { (p : Problem) (plan : Plan) (h : History) (at : Places) → IsNetwork p → IsTrue (is_legal p plan h) → AreWithin p h at → IsGood p plan at }
    ensures safe { (p : Problem) (plan : Plan) (h : History) (at : Places) → IsNetwork p → IsTrue (is_valid_plan p plan) → IsTrue (is_legal p plan h) → AreWithin p h at → IsSafe p plan at }
    ensures least { (p : Problem) (plan : Plan) (h : History) (at : Places) → IsTrue (is_legal p plan h) → AreWithin p h at → least_stage p plan (places_of p h) ≤ least_stage p plan at }
    ensures room { (p : Problem) (plan : Plan) (h : History) (at : Places) → IsTrue (is_legal p plan h) → AreWithin p h at → (s : ℕ) (r : Resource) → room p plan at s r ≤ room p plan (places_of p h) s r }
    ensures held { (p : Problem) (plan : Plan) (h : History) (held : ℕ → ℕ) → IsNetwork p → IsTrue (is_valid_plan p plan) → IsTrue (is_legal p plan h) → AreHeldWithin p h held → IsSafe p plan (places_held p held) }
    ensures sound { (p : Problem) (plan : Plan) (h : History) (held : ℕ → ℕ) → IsNetwork p → IsTrue (is_legal p plan h) → AreHeldWithin p h held → IsTrue (is_sound p plan (list_below (item_count p) held)) }
{}
