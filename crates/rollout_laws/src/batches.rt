ghost use Rattle.std.specs.Prelude.{ℕ, ◌<◌, ◌≤◌, List, length, IsTrue, IsFalse, All};
ghost use Rattle.rollout_rules.specs.Wan.{Problem, Plan};
ghost use Rattle.rollout_rules.specs.History.{History, with_entries, begins_in};
ghost use Rattle.rollout_rules.specs.Legal.{may_follow, is_legal};
ghost use Rattle.rollout_rules.specs.Release.{dones, release, batch};
ghost use Rattle.rollout_rules.specs.World.{World, is_writing, all_answered, answers_of, allows};
ghost use Rattle.rollout_rules.specs.declared.held.Given.{Given};
ghost use Rattle.rollout_rules.specs.declared.op.Op.{Op};
ghost use Rattle.rollout_rules.specs.declared.op.OpView.{OpView};
ghost use Rattle.rollout_rules.specs.declared.event.Event.TheVariants as event;
ghost use Rattle.rollout_laws.specs.Batches.{BeginsNext, BeginsUnheld, EndsAnswered};

/// The batch of a round may follow the history, whatever the policy and whichever answers have come, so
/// a legal history stays legal; and by the answers of a migration each Done in it is answered.
pub fn batch_is_legal()
    ensures follows { (p : Problem) (plan : Plan) (policy : OpView → ℕ) (h : History) (answers : List Op) → IsTrue (may_follow p plan h (batch p plan policy h answers)) }
    ensures legal { (p : Problem) (plan : Plan) (policy : OpView → ℕ) (h : History) (answers : List Op) → IsTrue (is_legal p plan h) → IsTrue (is_legal p plan (with_entries h (batch p plan policy h answers))) }
    ensures answered { (p : Problem) (plan : Plan) (policy : OpView → ℕ) (h : History) (migration : ℕ) (handed : List Given) → IsTrue (all_answered migration handed (batch p plan policy h (answers_of migration handed))) }
{}

/// Each entry of a release begins an item's next operation, no item's twice, and none that the policy
/// holds back.
pub fn release_begins_next_operations()
    ensures next { (p : Problem) (plan : Plan) (policy : OpView → ℕ) (h : History) → All (BeginsNext h) (release p plan policy h) }
    ensures once { (p : Problem) (plan : Plan) (policy : OpView → ℕ) (h : History) → IsTrue (is_legal p plan h) → (n : ℕ) → begins_in (release p plan policy h) n ≤ 1 }
    ensures unheld { (p : Problem) (plan : Plan) (policy : OpView → ℕ) (h : History) → All (BeginsUnheld p plan policy h) (release p plan policy h) }
{}

/// Each Done of a round ends an operation in flight that an answer covers.
pub fn dones_are_answered()
    ensures { (p : Problem) (h : History) (answers : List Op) → All (EndsAnswered h answers) (dones p h answers) }
{}

/// A controller that is up and writes nothing may write the batch of a round, by the answers of its
/// migration that were handed over to it, wherever the batch has entries.
pub fn round_may_be_written()
    ensures { (p : Problem) (plan : Plan) (policy : OpView → ℕ) (w : World) → let entries = batch p plan policy w.durable (answers_of w.migration w.handed) in IsTrue w.up → IsFalse (is_writing w) → 0 < length entries → IsTrue (allows p plan w (event.Write entries)) }
{}
