ghost use Rattle.std.specs.Prelude.{ℕ, ◌≤◌, [], ◌∷◌, IsTrue};
ghost use Rattle.rollout_rules.specs.Wan.{Problem, Plan};
ghost use Rattle.rollout_rules.specs.Items.{Resource};
ghost use Rattle.rollout_rules.specs.History.{History, with_entries, places_of};
ghost use Rattle.rollout_rules.specs.Room.{least_stage, room};
ghost use Rattle.rollout_rules.specs.Legal.{may_end};
ghost use Rattle.rollout_rules.specs.declared.op.Op.{Op};
ghost use Rattle.rollout_rules.specs.declared.op.Entry.TheVariants.{Done};

/// A Done never takes room: at every stage and resource what is taken is at most what was taken before
/// it, and the least stage at which an item stands doesn't fall.
pub fn a_done_takes_no_room()
    ensures room { (p : Problem) (plan : Plan) (h : History) (op : Op) → IsTrue (may_end h op) → (s : ℕ) (r : Resource) → room p plan (places_of p (with_entries h (Done op ∷ []))) s r ≤ room p plan (places_of p h) s r }
    ensures least { (p : Problem) (plan : Plan) (h : History) (op : Op) → IsTrue (may_end h op) → least_stage p plan (places_of p h) ≤ least_stage p plan (places_of p (with_entries h (Done op ∷ []))) }
{}
