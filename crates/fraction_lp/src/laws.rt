//! What the definitions come to, in the subject's own words.
ghost use Rattle.std.specs.Prelude.{◌≡◌, ℕ, ◌<◌, ℤ, pos, nat_abs, ◌*ℤ◌, List, IsTrue};
ghost use Rattle.fraction_lp.specs.Ratio.{Ratio, ratio, product, quotient};
ghost use Rattle.fraction_lp.specs.Dictionary.{Program, IsWhole};
ghost use Rattle.fraction_lp.specs.Program.{IsFeasible, IsCertificate};
ghost use Rattle.fraction_lp.specs.Excluding.{excludes, AreFormed};

/// A fraction has the value of what it is made of: both tops times the other's bottom are equal.
pub fn a_reduced_fraction_keeps_its_value()
    ensures { (t : ℤ) → (b : ℕ) → 0 < b → (ratio t b).top *ℤ pos b ≡ t *ℤ pos (ratio t b).bottom }
{}

/// Equal values are the same fraction.
pub fn equal_values_are_the_same_fraction()
    ensures { (x : Ratio) → (y : Ratio) → x.top *ℤ pos y.bottom ≡ y.top *ℤ pos x.bottom → x ≡ y }
{}

/// A quotient times its divisor is what was divided.
pub fn a_quotient_times_its_divisor_is_the_dividend()
    ensures { (x : Ratio) → (y : Ratio) → 0 < nat_abs y.top → product y (quotient x y) ≡ x }
{}

/// Farkas' lemma: the multipliers of a certificate exclude every feasible point.
pub fn a_certificate_excludes_every_feasible_point()
    ensures { (p : Program)
        → (xs : List Ratio)
        → (ys : List Ratio)
        → IsCertificate p ys
        → IsFeasible p xs
        → ⊥ }
{}

/// Multipliers that the calls accept are a certificate, and each of their sums is formed; a certificate
/// whose sums are formed is accepted.
pub fn what_the_calls_find_is_a_certificate()
    ensures sound { (p : Program)
        → (ys : List Ratio)
        → IsWhole p
        → IsTrue (excludes p ys)
        → IsCertificate p ys }
    ensures formed { (p : Program) → (ys : List Ratio) → IsTrue (excludes p ys) → AreFormed p ys }
    ensures complete { (p : Program)
        → (ys : List Ratio)
        → IsCertificate p ys
        → AreFormed p ys
        → IsTrue (excludes p ys) }
{}
