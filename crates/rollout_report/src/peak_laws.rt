ghost use Rattle.std.specs.Prelude.{◌*◌, ◌<◌, ◌≤◌, ℕ, length, IsTrue};
ghost use Rattle.rollout_rules.specs.Wan.{Problem, Plan, link_at, switch_at};
ghost use Rattle.rollout_rules.specs.Network.{IsNetwork};
ghost use Rattle.rollout_rules.specs.Valid.{is_valid_plan};
ghost use Rattle.rollout_rules.specs.Legal.{is_legal};
ghost use Rattle.rollout_rules.specs.History.{History};
ghost use Rattle.rollout_report.specs.Peaks.{link_peak, table_peak};

/// Over a legal history no peak of a link is above its capacity, and none of a table above its size.
pub fn every_peak_fits()
    ensures links { (p : Problem) (plan : Plan) (h : History)
        → IsNetwork p
        → IsTrue (is_valid_plan p plan)
        → IsTrue (is_legal p plan h)
        → (l : ℕ)
        → l < length p.links
        → link_peak p plan h l ≤ (link_at p l).capacity * plan.scale }
    ensures tables { (p : Problem) (plan : Plan) (h : History)
        → IsNetwork p
        → IsTrue (is_valid_plan p plan)
        → IsTrue (is_legal p plan h)
        → (w : ℕ)
        → w < length p.switches
        → table_peak p plan h w ≤ (switch_at p w).table }
{}
