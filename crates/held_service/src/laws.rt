//! That no question changes what a switch holds.
ghost use Rattle.std.specs.Prelude.{◌≡◌, ℕ, false, List, All};
ghost use Rattle.std.specs.List.{Contains};
ghost use Rattle.rollout_rules.specs.Agent.{Holding, held_after, is_next_command, pair_of};
ghost use Rattle.rollout_rules.specs.declared.held.Held.{Held};
ghost use Rattle.wan_edge.specs.Frames.{CommandFrame};
ghost use Rattle.wan_edge.specs.Switches.{Holdings, after_commands, answer_to, answer_of};
ghost use Rattle.held_service.specs.Questions.{question, questions};

/// A command with number 0 is the next after no pair, whatever its migration: not after one of an earlier
/// migration either. So it changes nothing of what is held.
pub fn number_0_is_never_the_next()
    ensures next { (held : Held) (migration : ℕ)
        → is_next_command held (pair_of migration 0) ≡ false }
    ensures kept { (holding : Holding) (migration : ℕ) (content : List ℕ)
        → held_after holding (pair_of migration 0) content ≡ holding }
{}

/// After any questions of any migration a switch holds what it held, and the answer to each is the pair that it
/// holds of the item. So it is whichever of them come to it, in whatever order and how often.
pub fn questions_change_nothing()
    ensures held { (holdings : Holdings) (migration : ℕ) (items : List ℕ)
        → after_commands holdings (questions migration items) ≡ holdings }
    ensures answer { (holdings : Holdings) (migration item : ℕ)
        → answer_to holdings (question migration item) ≡ answer_of item (holdings item).held }
    ensures any_order { (holdings : Holdings)
        (migration : ℕ)
        (items : List ℕ)
        (came : List CommandFrame)
        → All (Contains (questions migration items)) came
        → after_commands holdings came ≡ holdings }
{}
