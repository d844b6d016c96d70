ghost use Rattle.std.specs.Prelude.{◌≡◌, ℕ, List, ◌++◌};
ghost use Rattle.wan_edge.specs.Frames.{AnswerFrame, CommandFrame, IsAnswer, IsCommand, answer_bytes, command_bytes};

/// No command begins another, and commands with the same bytes are one, of one migration: so a stream
/// of them can be taken apart in one way alone.
pub fn a_command_has_one_spelling()
    ensures { (a b : CommandFrame) (x y : List ℕ)
        → IsCommand a
        → IsCommand b
        → command_bytes a ++ x ≡ command_bytes b ++ y
        → (a ≡ b) × (x ≡ y) }
{}

/// No answer begins another, and answers with the same bytes are one, of one migration.
pub fn an_answer_has_one_spelling()
    ensures { (a b : AnswerFrame) (x y : List ℕ)
        → IsAnswer a
        → IsAnswer b
        → answer_bytes a ++ x ≡ answer_bytes b ++ y
        → (a ≡ b) × (x ≡ y) }
{}
