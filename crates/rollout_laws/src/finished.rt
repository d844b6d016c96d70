ghost use Rattle.std.specs.Prelude.{◌≡◌, ℕ, ◌*◌, ◌<◌, length, is_some, IsTrue};
ghost use Rattle.rollout_rules.specs.Wan.{Problem, Plan, tunnel_at, hops, new_rate, last_stage};
ghost use Rattle.rollout_rules.specs.Network.{IsNetwork};
ghost use Rattle.rollout_rules.specs.Items.{is_item, number_of};
ghost use Rattle.rollout_rules.specs.Valid.{is_valid_plan};
ghost use Rattle.rollout_rules.specs.Operations.{content_after};
ghost use Rattle.rollout_rules.specs.History.{History, settled, places_of, stand};
ghost use Rattle.rollout_rules.specs.Legal.{is_finished};
ghost use Rattle.rollout_rules.specs.Safe.{settled_rate, settled_mark};
ghost use Rattle.rollout_rules.specs.declared.item.Item.{Item};
ghost use Rattle.rollout_laws.specs.Target.{target};

/// Once every operation is settled, each item stands at the last stage and has the content of the new
/// split: each tunnel its new rate, and each entry is there exactly where its tunnel is to be installed.
pub fn finished_is_at_target()
    ensures stand { (p : Problem) (plan : Plan) (h : History) → IsTrue (is_finished p plan h) → (i : Item) → IsTrue (is_item p i) → stand p plan (places_of p h) i ≡ last_stage plan }
    ensures content { (p : Problem) (plan : Plan) (h : History) → IsNetwork p → IsTrue (is_valid_plan p plan) → IsTrue (is_finished p plan h) → (i : Item) → IsTrue (is_item p i) → content_after p plan i (settled h (number_of p i)) ≡ target p plan i }
    ensures rates { (p : Problem) (plan : Plan) (h : History) → IsNetwork p → IsTrue (is_valid_plan p plan) → IsTrue (is_finished p plan h) → (t : ℕ) → t < length p.tunnels → settled_rate p plan (places_of p h) t ≡ plan.scale * new_rate (tunnel_at p t) }
    ensures marks { (p : Problem) (plan : Plan) (h : History) → IsTrue (is_valid_plan p plan) → IsTrue (is_finished p plan h) → (t g : ℕ) → t < length p.tunnels → g < hops p t → settled_mark p plan (places_of p h) t g ≡ is_some (tunnel_at p t).new }
{}
