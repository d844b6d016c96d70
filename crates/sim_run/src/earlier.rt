ghost use Rattle.std.specs.Prelude.{◌≡◌, [], ◌++◌};
ghost use Rattle.rollout_book.specs.Aliens.{told_by};
ghost use Rattle.sim_run.specs.Earlier.{answers_in};

use std::snapshot::Snapshot;
use wire_frames::Answer;

/// The answers that earlier rounds have heard since the controller started. The program keeps none of them:
/// contracts alone read them.
#[derive(Drop)]
pub(crate) enum Earlier {
    Nothing,
    Also(Snapshot<Earlier>, Snapshot<Vec<Answer>>),
}

/// A round has heard these answers: they are earlier ones from now on.
pub(crate) fn hear_all(earlier: &mut Earlier, answers: &mut Vec<Answer>)
    ensures earlier { answers_in earlier.new ≡ answers_in earlier.old ++ told_by answers.old.items }
    ensures answers { answers.new.items ≡ [] }
{
    *earlier = Earlier::Also(Snapshot::of(earlier), Snapshot::of(answers));
    answers.clear();
}
