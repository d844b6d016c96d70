//! What the definitions come to, in the subject's own words.
ghost use Rattle.std.specs.Prelude.{◌≡◌, ℕ, ◌+◌, ◌-◌, ◌*◌, ◌<◌, pos, List, length, All};
ghost use Rattle.std.specs.Int.{◌∣◌};
ghost use Rattle.rollout_rules.specs.Wan.{Problem};
ghost use Rattle.rollout_rules.specs.Network.{IsNetwork};
ghost use Rattle.fraction_lp.specs.Ratio.{Ratio, ratio};
ghost use Rattle.fraction_lp.specs.Program.{IsNotNegative, IsFeasible};
ghost use Rattle.step_lp.specs.Program.{used_count, move_program};
ghost use Rattle.step_lp.specs.Moves.{IsMove};
ghost use Rattle.step_lp.specs.Points.{rates_of, scale_of, units_of};

/// The points of the program for q steps are exactly the moves in q steps: in units of some 1/scale each
/// top is at least both rates of its step, the tops on a link are within its capacity, and each flow's
/// total lies between the smaller and the larger of its old and its new one.
pub fn the_points_of_a_program_are_the_moves()
    ensures moves { (p : Problem)
        → (q : ℕ)
        → (xs : List Ratio)
        → IsNetwork p
        → IsFeasible (move_program p q) xs
        → IsMove p q xs }
    ensures points { (p : Problem)
        → (q : ℕ)
        → (xs : List Ratio)
        → IsNetwork p
        → IsMove p q xs
        → IsFeasible (move_program p q) xs }
{}

/// Two rows for each used tunnel and step, one for each link and step, two for each flow and stage
/// between; a rate for each used tunnel and stage between, and a top for each used tunnel and step.
pub fn a_program_has_so_many_rows_and_unknowns()
    ensures rows { (p : Problem)
        → (q : ℕ)
        → length (move_program p q).rows
        ≡ 2 * used_count p * q + q * length p.links + 2 * length p.flows * (q - 1) }
    ensures unknowns { (p : Problem)
        → (q : ℕ)
        → (move_program p q).unknowns ≡ (q - 1 + q) * used_count p }
{}

/// Each rate of a point is a whole number of units of 1/scale, and the scale divides every number of
/// which this is true.
pub fn the_scale_is_the_least_common_denominator()
    ensures each { (p : Problem)
        → (q : ℕ)
        → (xs : List Ratio)
        → All (λ x. x.bottom ∣ scale_of p q xs) (rates_of p q xs) }
    ensures least { (p : Problem)
        → (q : ℕ)
        → (xs : List Ratio)
        → (m : ℕ)
        → All (λ x. x.bottom ∣ m) (rates_of p q xs)
        → scale_of p q xs ∣ m }
{}

/// A rate in units of 1/scale is that many units over the scale.
pub fn units_over_the_scale_are_the_rate()
    ensures { (x : Ratio)
        → (scale : ℕ)
        → IsNotNegative x
        → 0 < scale
        → x.bottom ∣ scale
        → ratio (pos (units_of scale x)) scale ≡ x }
{}
