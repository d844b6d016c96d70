ghost use Rattle.std.specs.Prelude.{List, IsTrue};
ghost use Rattle.rollout_rules.specs.Wan.{Problem, Plan};
ghost use Rattle.rollout_rules.specs.History.{History, with_entries};
ghost use Rattle.rollout_rules.specs.Legal.{is_legal};
ghost use Rattle.rollout_rules.specs.declared.op.Entry.{Entry};

/// What a legal history begins with is legal.
pub fn every_prefix_is_legal()
    ensures { (p : Problem) (plan : Plan) (h : History) (rest : List Entry) → IsTrue (is_legal p plan (with_entries h rest)) → IsTrue (is_legal p plan h) }
{}
