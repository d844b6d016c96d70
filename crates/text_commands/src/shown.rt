ghost use Rattle.std.specs.Prelude.{◌≡◌};
ghost use Rattle.problem_json.specs.WritingLeast.{claim_text};
ghost use Rattle.wan_text.specs.Named.{AreNamesOf};
ghost use Rattle.text_commands.specs.Shown.{plan_shown};

use problem_json::{Claim, push_claimed};
use text_writer::Pieces;
use wan_model::CheckedPlan;
use wan_text::Names;

/// A valid plan with what shows that fewer rate steps are impossible.
#[derive(Debug, Drop)]
pub struct ShownPlan {
    pub plan: CheckedPlan,
    pub claim: Claim,
}

/// Pushes its document, and a line feed, by the names of its problem and the piece of what is said.
pub(crate) fn push_shown<P: Pieces>(pieces: &mut P, names: &Names, said: &str, shown: &ShownPlan)
    requires names { AreNamesOf names.now shown.now.plan.problem }
    requires said { said.now ≡ claim_text shown.now.claim }
    ensures { P.pushes pieces.old (plan_shown shown.now) pieces.new }
{
    let plan = &shown.plan;
    push_claimed(pieces, names, plan.problem(), plan.plan(), said);
    pieces.push_str("\n");
}
