//! Going back from where a history stands.
ghost use Rattle.std.specs.Prelude.{◌≡◌, ℕ, ◌<◌, ◌≤◌, [], List, IsTrue};
ghost use Rattle.rollout_rules.specs.Wan.{Problem, Plan, last_stage};
ghost use Rattle.rollout_rules.specs.Network.{IsNetwork};
ghost use Rattle.rollout_rules.specs.Items.{item_count, item_at};
ghost use Rattle.rollout_rules.specs.Operations.{changes_to};
ghost use Rattle.rollout_rules.specs.History.{History, begun, with_entries};
ghost use Rattle.rollout_rules.specs.Valid.{is_valid_plan};
ghost use Rattle.rollout_rules.specs.Legal.{is_legal, is_finished};
ghost use Rattle.rollout_rules.specs.Release.{release};
ghost use Rattle.rollout_rules.specs.declared.op.OpView.{OpView};
ghost use Rattle.rollout_rules.specs.declared.op.Entry.{Entry};
ghost use Rattle.rollout_laws.specs.Waiting.{NothingFlies};
ghost use Rattle.rollback_plan.specs.Levels.{HoldsFrom, back_start, ceiling, is_levelled};
ghost use Rattle.rollback_plan.specs.Turns.{BeginsBack, BegunSoFar, HasComeSoFar, TurnsFirstAt, TurnsSomewhere, comes_to, may_turn, turn_start};

/// For each legal history there is a first stage at which it may turn: once all that is begun is settled, and
/// all operations to stages up to that one, the way back may begin with what is left. It is at most the ceiling.
pub fn every_history_can_turn()
    ensures { (p : Problem) (plan : Plan) (h : History)
        → IsNetwork p
        → IsTrue (is_valid_plan p plan)
        → IsTrue (is_legal p plan h)
        → TurnsSomewhere p plan h }
{}

/// Where it may turn the way back begins with the content that each item has then on the way there.
pub fn the_way_back_begins_with_what_is_settled()
    ensures { (p : Problem) (plan : Plan) (h : History) (s : ℕ)
        → IsTrue (is_valid_plan p plan)
        → IsTrue (is_legal p plan h)
        → s ≤ last_stage plan
        → IsTrue (may_turn p plan h s)
        → BeginsBack p plan h s }
{}

/// Under a policy that holds from a stage on, a round begins nothing past what was begun at first, but what
/// leads up to that stage, whatever has been answered.
pub fn a_turn_begins_nothing_further()
    ensures { (p : Problem) (plan : Plan) (policy : OpView → ℕ) (found h : History) (s : ℕ)
        → IsNetwork p
        → IsTrue (is_valid_plan p plan)
        → s ≤ last_stage plan
        → HoldsFrom s policy
        → IsTrue (is_legal p plan h)
        → BegunSoFar p plan found s h
        → BegunSoFar p plan found s (with_entries h (release p plan policy h)) }
{}

/// A history that goes on from another one under a policy that holds from a stage on, whichever stage: where
/// nothing is begun past what was begun at first or leads up to that stage, and where nothing flies and a release
/// begins nothing, or where it is finished, each item has settled exactly so much.
pub fn a_held_history_has_come_so_far()
    ensures held { (p : Problem) (plan : Plan) (policy : OpView → ℕ) (found : History)
        (es : List Entry) (s : ℕ)
        → IsNetwork p
        → IsTrue (is_valid_plan p plan)
        → s ≤ last_stage plan
        → HoldsFrom s policy
        → IsTrue (is_legal p plan (with_entries found es))
        → NothingFlies p (with_entries found es)
        → release p plan policy (with_entries found es) ≡ []
        → BegunSoFar p plan found s (with_entries found es)
        → HasComeSoFar p plan found s (with_entries found es) }
    ensures finished { (p : Problem) (plan : Plan) (found : History) (es : List Entry) (s : ℕ)
        → s ≤ last_stage plan
        → IsTrue (is_legal p plan (with_entries found es))
        → IsTrue (is_finished p plan (with_entries found es))
        → BegunSoFar p plan found s (with_entries found es)
        → HasComeSoFar p plan found s (with_entries found es) }
{}

/// Where more was begun since a history was found, but nothing past where it comes to, going back from there comes
/// no further.
pub fn a_turn_given_again_comes_no_further()
    ensures { (p : Problem) (plan : Plan) (found h : History) (s t : ℕ)
        → ((n : ℕ) → n < item_count p → begun found n ≤ begun h n)
        → BegunSoFar p plan found s h
        → TurnsFirstAt p plan found s
        → TurnsFirstAt p plan h t
        → (n : ℕ)
        → n < item_count p
        → comes_to p plan h t n ≤ comes_to p plan found s n }
{}

/// At the ceiling of a legal history that is its level: it comes exactly to that stage, the way back begins there
/// where it does from the stage, it may turn so, and what has come so far is level.
pub fn a_turn_at_the_ceiling_is_a_level()
    ensures comes { (p : Problem) (plan : Plan) (h : History) (n : ℕ)
        → IsTrue (is_legal p plan h)
        → n < item_count p
        → comes_to p plan h (ceiling p plan h) n
        ≡ changes_to p plan (item_at p n) (ceiling p plan h) }
    ensures start { (p : Problem) (plan : Plan) (h : History)
        → IsNetwork p
        → IsTrue (is_valid_plan p plan)
        → IsTrue (is_legal p plan h)
        → turn_start p plan h (ceiling p plan h) ≡ back_start p plan (ceiling p plan h) }
    ensures turns { (p : Problem) (plan : Plan) (h : History)
        → IsNetwork p
        → IsTrue (is_valid_plan p plan)
        → IsTrue (is_legal p plan h)
        → IsTrue (may_turn p plan h (ceiling p plan h)) }
    ensures level { (p : Problem) (plan : Plan) (found h : History)
        → IsTrue (is_legal p plan found)
        → HasComeSoFar p plan found (ceiling p plan found) h
        → IsTrue (is_levelled p plan h (ceiling p plan found)) }
{}
