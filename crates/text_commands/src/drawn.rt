ghost use Rattle.wan_text.specs.Named.{AreNamesOf};
ghost use Rattle.text_commands.specs.Drawn.{IsReadBack, script_drawn};

use problem_json::push_scripted;
use sim_run::DrawnScript;
use text_writer::Pieces;
use wan_text::Names;

/// Pushes the document of a plan with the script that was drawn for it, and a line feed, by the names of its
/// problem. What was pushed is read again as both.
pub(crate) fn push_drawn<P: Pieces>(pieces: &mut P, names: &Names, drawn: &DrawnScript)
    requires { AreNamesOf names.now drawn.now.plan.problem }
    ensures text { P.pushes pieces.old (script_drawn drawn.now) pieces.new }
    ensures read { IsReadBack drawn.now }
{
    let plan = &drawn.plan;
    let script = drawn.script.as_slice();
    push_scripted(pieces, names, plan.problem(), plan.plan(), script);
    pieces.push_str("\n");
}
