ghost use Rattle.std.specs.Prelude.{IsTrue};
ghost use Rattle.rollout_rules.specs.Wan.{Problem, Plan};
ghost use Rattle.rollout_rules.specs.Network.{IsNetwork};
ghost use Rattle.rollout_rules.specs.Valid.{is_valid_plan};
ghost use Rattle.rollout_rules.specs.History.{History, places_of};
ghost use Rattle.rollout_rules.specs.Legal.{is_legal};
ghost use Rattle.rollout_rules.specs.Safe.{IsSafe};

/// Every legal history of a valid plan is safe: whichever of the operations in flight have been
/// applied, no link carries more than its capacity, no table is too full, and each tunnel with traffic
/// has all its entries (SWAN's step rule, kept without steps in lockstep).
pub fn every_legal_history_is_safe()
    ensures { (p : Problem) (plan : Plan) (h : History) → IsNetwork p → IsTrue (is_valid_plan p plan) → IsTrue (is_legal p plan h) → IsSafe p plan (places_of p h) }
{}
