//! That a question raises a switch's floor, and changes nothing that it holds.
ghost use Rattle.std.specs.Prelude.{◌≡◌, ℕ, List};
ghost use Rattle.wan_edge.specs.Switches.{answer_of};
ghost use Rattle.takeover_rules.specs.Terms.{floor_after};
ghost use Rattle.fenced_agent.specs.Agents.{FencedHoldings, after_all_termed, after_fenced, answer_fenced};
ghost use Rattle.held_service.specs.Questions.{question};
ghost use Rattle.fence_takeover.specs.Asked.{termed_questions};

/// After a question of any migration that names a term the switch holds what it held of each item. Its floor is that
/// term, where it was no higher. The answer is the pair that it holds, be that of the question's migration or of
/// another.
pub fn a_question_raises_the_floor_alone()
    ensures after { (f : FencedHoldings) (term migration item : ℕ)
        → after_fenced f term (question migration item)
        ≡ record { floor = floor_after f.floor term; held = f.held } }
    ensures answer { (f : FencedHoldings) (term migration item : ℕ)
        → answer_fenced f term (question migration item) ≡ answer_of item (f.held item).held }
    ensures several { (f : FencedHoldings) (term migration : ℕ) (items : List ℕ)
        → (after_all_termed f (termed_questions term migration items)).held ≡ f.held }
{}
