//! Worked examples of what is left: each function states a fact of a small network, and proving it is computing it.
ghost use Rattle.std.specs.Prelude.{◌≡◌, true, [], ◌∷◌, Some, None, slice_index};
ghost use Rattle.rollout_rules.specs.History.{places_of};
ghost use Rattle.rollout_rules.specs.Named.{one, one_plan, tunnel_along};
ghost use Rattle.rollout_rules.specs.Valid.{is_valid_plan};
ghost use Rattle.rollout_rules.specs.Worked.{fresh, begin_of, done_of};
ghost use Rattle.retarget_plan.specs.Units.{divisor_below};
ghost use Rattle.retarget_plan.specs.Left.{left_problem};
ghost use Rattle.retarget_plan.specs.Leaving.{first_flying};
ghost use Rattle.retarget_plan.specs.Shedding.{one_step, shed};
ghost use Rattle.retarget_plan.specs.declared.unleft.Unleft.TheVariants.{Flying};

/// Of 4, with 2 and 6 beside it, 2 make one unit; with 3 beside it 1 does; a rate of 0 asks for nothing.
pub fn a_unit_divides_each_rate()
    ensures two { divisor_below 2 4 (λ t. slice_index (2 ∷ 6 ∷ []) t) ≡ 2 }
    ensures one { divisor_below 2 4 (λ t. slice_index (2 ∷ 3 ∷ []) t) ≡ 1 }
    ensures none { divisor_below 2 4 (λ t. 0) ≡ 4 }
{}

/// At first what is left is the problem itself, and in the end the new split is the old one, too.
pub fn what_is_left_begins_with_what_is_settled()
    ensures at_first { left_problem one one_plan (places_of one (fresh [])) ≡ one }
    ensures in_the_end { left_problem one one_plan
        (places_of one (fresh (begin_of 0 1 ∷ done_of 0 1 ∷ [])))
        ≡ record one {
          tunnels = tunnel_along 0 (0 ∷ 1 ∷ []) (0 ∷ []) (Some 1) (Some 1)
              ∷ tunnel_along 0 (0 ∷ 2 ∷ 1 ∷ []) (1 ∷ 2 ∷ []) (Some 3) (Some 3) ∷ [];
        } }
{}

/// An operation in flight is told by its item.
pub fn nothing_is_left_while_something_flies()
    ensures flying { first_flying one (fresh (begin_of 0 1 ∷ [])) ≡ Some (Flying 0 1) }
    ensures still { first_flying one (fresh (begin_of 0 1 ∷ done_of 0 1 ∷ [])) ≡ None }
{}

/// What crosses a link is shed in one step, and the rest stays.
pub fn a_link_is_shed_in_one_step()
    ensures rates { shed one 0
        ≡ record one {
          tunnels = tunnel_along 0 (0 ∷ 1 ∷ []) (0 ∷ []) (Some 4) (Some 0)
              ∷ tunnel_along 0 (0 ∷ 2 ∷ 1 ∷ []) (1 ∷ 2 ∷ []) (Some 0) (Some 0) ∷ [];
        } }
    ensures planned { is_valid_plan (shed one 0) (one_step (shed one 0)) ≡ true }
{}
