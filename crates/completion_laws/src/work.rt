//! What is in flight after a round of the book.
ghost use Rattle.std.specs.Prelude.{ℕ, List, IsFalse, IsTrue};
ghost use Rattle.rollout_rules.specs.Network.{IsNetwork};
ghost use Rattle.rollout_rules.specs.Valid.{is_valid_plan};
ghost use Rattle.rollout_rules.specs.Legal.{is_finished, may_begin};
ghost use Rattle.rollout_rules.specs.Release.{is_held_back, next_op, view_of};
ghost use Rattle.rollout_laws.specs.Waiting.{HoldsNothing};
ghost use Rattle.shared_book.specs.declared.note.Written.{Written};
ghost use Rattle.shared_book.specs.declared.call_reply.Wake.TheVariants as wake;
ghost use Rattle.shared_book.specs.Histories.{Opening, history_of};
ghost use Rattle.shared_book.specs.Legal.{is_legal_shared, is_still};
ghost use Rattle.controller_run.specs.Promises.{IsEndAt};
ghost use Rattle.controller_run.specs.Shifts.{HasTurned};

/// After a round of the book, and whatever was noted since, each operation that may begin is held back by
/// the policy where nothing is in flight.
pub fn a_round_leaves_what_is_held_back()
    ensures { (o : Opening) (log : List Written)
        → IsTrue (is_legal_shared o log)
        → HasTurned log
        → IsTrue (is_still o.rollout.problem (history_of o log))
        → (n : ℕ)
        → IsTrue (may_begin o.rollout.problem o.rollout.plan (history_of o log)
        (next_op (history_of o log) n))
        → IsTrue (is_held_back o.policy
        (view_of o.rollout.problem o.rollout.plan (history_of o log) n)) }
{}

/// So where the policy holds nothing back some operation is in flight there until every one is settled.
pub fn a_round_leaves_work()
    ensures { (o : Opening) (log : List Written)
        → IsNetwork o.rollout.problem
        → IsTrue (is_valid_plan o.rollout.problem o.rollout.plan)
        → HoldsNothing o.policy
        → IsTrue (is_legal_shared o log)
        → HasTurned log
        → IsFalse (is_finished o.rollout.problem o.rollout.plan (history_of o log))
        → IsFalse (is_still o.rollout.problem (history_of o log)) }
{}

/// So no worker that has seen a round ends for what is held back.
pub fn nothing_is_held_behind_a_round()
    ensures { (o : Opening) (seen : List Written)
        → IsNetwork o.rollout.problem
        → IsTrue (is_valid_plan o.rollout.problem o.rollout.plan)
        → HoldsNothing o.policy
        → IsTrue (is_legal_shared o seen)
        → HasTurned seen
        → IsEndAt o seen wake.Held
        → ⊥ }
{}
