ghost use Rattle.std.specs.Prelude.{◌≡◌, ℕ, ◌<◌, [], length, IsTrue, IsFalse};
ghost use Rattle.rollout_rules.specs.Wan.{Problem, Plan};
ghost use Rattle.rollout_rules.specs.Network.{IsNetwork};
ghost use Rattle.rollout_rules.specs.Items.{number_of};
ghost use Rattle.rollout_rules.specs.Valid.{is_valid_plan};
ghost use Rattle.rollout_rules.specs.History.{History};
ghost use Rattle.rollout_rules.specs.Legal.{may_begin, is_legal, is_finished};
ghost use Rattle.rollout_rules.specs.Release.{next_op, view_of, is_held_back, release};
ghost use Rattle.rollout_rules.specs.declared.item.Item.{Item};
ghost use Rattle.rollout_rules.specs.declared.op.OpView.{OpView};
ghost use Rattle.rollout_laws.specs.Waiting.{NothingFlies, WaitsBehind, SomeMayBegin, HoldsNothing};

/// A rollout is never stuck: an item that no other stands behind may begin its next operation where it
/// has none in flight, and so some operation may begin in each legal history that is not finished and
/// has nothing in flight.
pub fn some_operation_may_begin()
    ensures behind { (p : Problem) (plan : Plan) (h : History) → IsNetwork p → IsTrue (is_valid_plan p plan) → IsTrue (is_legal p plan h) → (i : Item) → WaitsBehind p plan h i → IsTrue (may_begin p plan h (next_op h (number_of p i))) }
    ensures some { (p : Problem) (plan : Plan) (h : History) → IsNetwork p → IsTrue (is_valid_plan p plan) → IsTrue (is_legal p plan h) → IsFalse (is_finished p plan h) → NothingFlies p h → SomeMayBegin p plan h }
{}

/// A release stands still by the policy alone: it begins nothing exactly where each operation that may
/// begin is held back. So with a policy that holds nothing back it begins at least one there.
pub fn release_goes_on()
    ensures held { (p : Problem) (plan : Plan) (policy : OpView → ℕ) (h : History) → release p plan policy h ≡ [] → (n : ℕ) → IsTrue (may_begin p plan h (next_op h n)) → IsTrue (is_held_back policy (view_of p plan h n)) }
    ensures none { (p : Problem) (plan : Plan) (policy : OpView → ℕ) (h : History) → ((n : ℕ) → IsTrue (may_begin p plan h (next_op h n)) → IsTrue (is_held_back policy (view_of p plan h n))) → release p plan policy h ≡ [] }
    ensures some { (p : Problem) (plan : Plan) (policy : OpView → ℕ) (h : History) → IsNetwork p → IsTrue (is_valid_plan p plan) → IsTrue (is_legal p plan h) → IsFalse (is_finished p plan h) → NothingFlies p h → HoldsNothing policy → 0 < length (release p plan policy h) }
{}
