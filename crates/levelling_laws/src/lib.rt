//! Levelling by several workers: what holds of every history that they may make of one book under a policy
//! that holds from a stage on.
//!
//! Nothing is begun past the stage, in the list nor in a batch that was lost, so whatever a crash leaves of
//! the journal leads up to that stage. The ceiling stays as it was found, so a rollout that goes on after a
//! crash is levelled at the same stage. Where it ended the rollout is level there. From an earlier stage on
//! nothing is begun past what the list found has begun, but what leads up to that stage, and where it ended each
//! item has come exactly so far. From stage 0 on all is held back, and nothing is begun. Each law is a function
//! with an empty body.
#![tactic(auto)]

ghost use Rattle.std.specs.Prelude.{◌≡◌, ℕ, ◌≤◌, List, [], ◌∷◌, ◌++◌, IsTrue};
ghost use Rattle.rollout_rules.specs.Wan.{last_stage};
ghost use Rattle.rollout_rules.specs.Network.{IsNetwork};
ghost use Rattle.rollout_rules.specs.Valid.{is_valid_plan};
ghost use Rattle.rollout_rules.specs.History.{begins_in, with_entries};
ghost use Rattle.rollout_rules.specs.Legal.{may_begin, is_finished};
ghost use Rattle.rollout_rules.specs.Release.{next_op, view_of, is_held_back};
ghost use Rattle.rollout_laws.specs.Waiting.{NothingFlies};
ghost use Rattle.shared_book.specs.Histories.{Opening, added, history_of};
ghost use Rattle.shared_book.specs.Legal.{is_legal_shared};
ghost use Rattle.shared_book.specs.declared.note.Written.{Written};
ghost use Rattle.rollback_plan.specs.Levels.{ceiling, BegunUpTo, is_levelled, HoldsFrom};
ghost use Rattle.rollback_plan.specs.Turns.{BegunSoFar, HasComeSoFar};

/// Where the list found leads up to a stage, and the policy holds from there on, so does the list of all
/// entries, and each list on the way with the entries of the next note: those of a round, and those of the
/// batch of which an append failed.
pub fn a_shared_history_leads_no_further()
    ensures list { (o : Opening) (ws : List Written) (s : ℕ)
        → IsNetwork o.rollout.problem
        → IsTrue (is_valid_plan o.rollout.problem o.rollout.plan)
        → s ≤ last_stage o.rollout.plan
        → HoldsFrom s o.policy
        → BegunUpTo o.rollout.problem o.rollout.plan s o.found
        → IsTrue (is_legal_shared o ws)
        → BegunUpTo o.rollout.problem o.rollout.plan s (history_of o ws) }
    ensures next { (o : Opening) (ws later : List Written) (w : Written) (s : ℕ)
        → IsNetwork o.rollout.problem
        → IsTrue (is_valid_plan o.rollout.problem o.rollout.plan)
        → s ≤ last_stage o.rollout.plan
        → HoldsFrom s o.policy
        → BegunUpTo o.rollout.problem o.rollout.plan s o.found
        → IsTrue (is_legal_shared o (ws ++ w ∷ later))
        → BegunUpTo o.rollout.problem o.rollout.plan s (with_entries (history_of o ws) w.entries) }
{}

/// Under a policy that holds from the ceiling of the list found on, the ceiling stays.
pub fn the_ceiling_stays()
    ensures { (o : Opening) (ws : List Written)
        → IsNetwork o.rollout.problem
        → IsTrue (is_valid_plan o.rollout.problem o.rollout.plan)
        → HoldsFrom (ceiling o.rollout.problem o.rollout.plan o.found) o.policy
        → IsTrue (is_legal_shared o ws)
        → ceiling o.rollout.problem o.rollout.plan (history_of o ws)
        ≡ ceiling o.rollout.problem o.rollout.plan o.found }
{}

/// A rollout is level at the stage where nothing flies and the policy holds back whatever may begin, and where
/// it is finished.
pub fn a_rollout_that_ended_is_levelled()
    ensures held { (o : Opening) (ws : List Written) (s : ℕ)
        → IsNetwork o.rollout.problem
        → IsTrue (is_valid_plan o.rollout.problem o.rollout.plan)
        → s ≤ last_stage o.rollout.plan
        → HoldsFrom s o.policy
        → BegunUpTo o.rollout.problem o.rollout.plan s o.found
        → IsTrue (is_legal_shared o ws)
        → NothingFlies o.rollout.problem (history_of o ws)
        → ((n : ℕ)
        → IsTrue (may_begin o.rollout.problem o.rollout.plan (history_of o ws)
        (next_op (history_of o ws) n))
        → IsTrue (is_held_back o.policy
        (view_of o.rollout.problem o.rollout.plan (history_of o ws) n)))
        → IsTrue (is_levelled o.rollout.problem o.rollout.plan (history_of o ws) s) }
    ensures finished { (o : Opening) (ws : List Written) (s : ℕ)
        → IsNetwork o.rollout.problem
        → IsTrue (is_valid_plan o.rollout.problem o.rollout.plan)
        → s ≤ last_stage o.rollout.plan
        → HoldsFrom s o.policy
        → BegunUpTo o.rollout.problem o.rollout.plan s o.found
        → IsTrue (is_legal_shared o ws)
        → IsTrue (is_finished o.rollout.problem o.rollout.plan (history_of o ws))
        → IsTrue (is_levelled o.rollout.problem o.rollout.plan (history_of o ws) s) }
{}

/// Whatever the list found has begun, under a policy that holds from a stage on nothing more is begun than that
/// and what leads up to the stage: in the list of all entries, and in each list on the way with the entries of
/// the next note. Where nothing flies and the policy holds back whatever may begin, and where the rollout is
/// finished, exactly so much of each item is settled, and nothing is in flight.
pub fn a_shared_history_comes_so_far()
    ensures list { (o : Opening) (ws : List Written) (s : ℕ)
        → IsNetwork o.rollout.problem
        → IsTrue (is_valid_plan o.rollout.problem o.rollout.plan)
        → s ≤ last_stage o.rollout.plan
        → HoldsFrom s o.policy
        → IsTrue (is_legal_shared o ws)
        → BegunSoFar o.rollout.problem o.rollout.plan o.found s (history_of o ws) }
    ensures next { (o : Opening) (ws later : List Written) (w : Written) (s : ℕ)
        → IsNetwork o.rollout.problem
        → IsTrue (is_valid_plan o.rollout.problem o.rollout.plan)
        → s ≤ last_stage o.rollout.plan
        → HoldsFrom s o.policy
        → IsTrue (is_legal_shared o (ws ++ w ∷ later))
        → BegunSoFar o.rollout.problem o.rollout.plan o.found s
        (with_entries (history_of o ws) w.entries) }
    ensures held { (o : Opening) (ws : List Written) (s : ℕ)
        → IsNetwork o.rollout.problem
        → IsTrue (is_valid_plan o.rollout.problem o.rollout.plan)
        → s ≤ last_stage o.rollout.plan
        → HoldsFrom s o.policy
        → IsTrue (is_legal_shared o ws)
        → NothingFlies o.rollout.problem (history_of o ws)
        → ((n : ℕ)
        → IsTrue (may_begin o.rollout.problem o.rollout.plan (history_of o ws)
        (next_op (history_of o ws) n))
        → IsTrue (is_held_back o.policy
        (view_of o.rollout.problem o.rollout.plan (history_of o ws) n)))
        → HasComeSoFar o.rollout.problem o.rollout.plan o.found s (history_of o ws) }
    ensures finished { (o : Opening) (ws : List Written) (s : ℕ)
        → IsNetwork o.rollout.problem
        → IsTrue (is_valid_plan o.rollout.problem o.rollout.plan)
        → s ≤ last_stage o.rollout.plan
        → HoldsFrom s o.policy
        → IsTrue (is_legal_shared o ws)
        → IsTrue (is_finished o.rollout.problem o.rollout.plan (history_of o ws))
        → HasComeSoFar o.rollout.problem o.rollout.plan o.found s (history_of o ws) }
{}

/// A policy that holds from stage 0 on holds all back. Under it nothing is begun: neither in the list after the
/// one found, nor among the entries of the next note, those of a batch of which an append failed.
pub fn a_drained_history_begins_nothing()
    ensures list { (o : Opening) (ws : List Written) (n : ℕ)
        → IsNetwork o.rollout.problem
        → IsTrue (is_valid_plan o.rollout.problem o.rollout.plan)
        → HoldsFrom 0 o.policy
        → IsTrue (is_legal_shared o ws)
        → begins_in (added ws) n ≡ 0 }
    ensures next { (o : Opening) (ws later : List Written) (w : Written) (n : ℕ)
        → IsNetwork o.rollout.problem
        → IsTrue (is_valid_plan o.rollout.problem o.rollout.plan)
        → HoldsFrom 0 o.policy
        → IsTrue (is_legal_shared o (ws ++ w ∷ later))
        → begins_in w.entries n ≡ 0 }
{}
