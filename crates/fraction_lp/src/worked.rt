//! The worked rows: each function states a fact of a small program, and proving it is computing it.
ghost use Rattle.std.specs.Prelude.{◌≡◌, pos, Some, [], ◌∷◌, map};
ghost use Rattle.fraction_lp.specs.Ratio.{ratio, plus};
ghost use Rattle.fraction_lp.specs.Dictionary.{first_dictionary, end_from, end_of};
ghost use Rattle.fraction_lp.specs.declared.answer.LpAnswer.TheVariants.{Point, Infeasible, Overflow, Spent};
ghost use Rattle.fraction_lp.specs.Worked.{whole, below_zero, between_one_and_two, too_wide, trade};

pub fn a_third_and_a_sixth_are_a_half()
    ensures { plus (ratio (pos 1) 3) (ratio (pos 1) 6) ≡ Some (ratio (pos 1) 2) }
{}

pub fn at_most_less_than_nothing_is_infeasible()
    ensures { end_of below_zero ≡ Infeasible (whole (pos 1) ∷ []) }
{}

pub fn the_least_of_an_interval_is_a_point()
    ensures { end_of between_one_and_two ≡ Point (whole (pos 1) ∷ []) }
{}

pub fn a_ratio_of_two_to_the_two_hundred_overflows_at_once()
    ensures { end_of too_wide ≡ Overflow 0 }
{}

/// The one link idles in between, which two exchanges find and one doesn't.
pub fn a_trade_takes_two_exchanges()
    ensures found { end_from trade 2 0 (first_dictionary trade)
        ≡ Point (map whole (pos 0 ∷ pos 0 ∷ pos 2 ∷ pos 0 ∷ pos 0 ∷ pos 2 ∷ [])) }
    ensures not_yet { end_from trade 1 0 (first_dictionary trade) ≡ Spent 1 }
{}
