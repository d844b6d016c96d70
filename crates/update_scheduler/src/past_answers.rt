ghost use Rattle.std.specs.Prelude.{◌≡◌, [], ◌∷◌, ◌++◌};
ghost use Rattle.update_scheduler.specs.PastAnswers.{answers_in};

use rollout_rules::Op;
use std::snapshot::Snapshot;

/// The answers heard so far, of which the program keeps none: contracts alone read them.
#[derive(Drop)]
pub(crate) enum PastAnswers {
    Nothing,
    Also(Snapshot<PastAnswers>, Snapshot<Op>),
}

/// One answer more.
pub(crate) fn also(heard: &PastAnswers, answer: Op) -> PastAnswers
    ensures { answers_in result ≡ answers_in heard.now ++ answer ∷ [] }
{
    PastAnswers::Also(Snapshot::of(heard), Snapshot::of(&answer))
}
