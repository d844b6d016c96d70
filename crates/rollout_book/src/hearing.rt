ghost use Rattle.std.specs.Prelude.{◌≡◌, ◌<◌, ◌++◌, All};
ghost use Rattle.rollout_rules.specs.Items.{item_count};
ghost use Rattle.rollout_book.specs.Aliens.{told_by};

use rollout_rules::Op;
use update_scheduler::Rounds;
use wire_frames::Answer;

/// Hears answers, of items that exist: each as the pair that its switch holds.
pub fn hear_each(rounds: &mut Rounds, answers: &[Answer])
    requires items { All (λ a. a.item < item_count rounds.old.rollout.problem) answers.now }
    ensures { rounds.new ≡ record rounds.old { heard = rounds.old.heard ++ told_by answers.now } }
{
    for answer in answers {
        rounds.hear(Op {
            item: answer.item,
            number: answer.held,
        });
    }
}
