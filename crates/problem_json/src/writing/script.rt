ghost use Rattle.std.specs.Prelude.{◌≤◌, ◌++◌, codes, decimal, length, map};
ghost use Rattle.serde_json.specs.Written.{compact_text};
ghost use Rattle.problem_json.specs.GrammarScripts.{largest_number};
ghost use Rattle.problem_json.specs.Writing.{list_data};
ghost use Rattle.problem_json.specs.WritingScripts.{act_data, AreActsWithin, IsActWithin};

use crate::writing::pieces::{push_comma, push_number};
use rollout_rules::Act;
use text_writer::Pieces;

/// Adds a script, event by event.
pub fn push_script<P: Pieces>(text: &mut P, script: &[Act])
    ensures text { P.pushes text.old (compact_text (list_data (map act_data script.now))) text.new }
    ensures within { AreActsWithin (length script.now) script.now }
{
    text.push_str("[");
    for (number, act) in script.iter().enumerate() {
        push_comma(text, number);
        push_act(text, *act);
    }
    text.push_str("]");
}

/// Adds an event: a list of its name and of what the name asks for.
fn push_act<P: Pieces>(text: &mut P, act: Act)
    ensures text { P.pushes text.old (compact_text (act_data act)) text.new }
    ensures within { IsActWithin act }
{
    match act {
        Act::Round => text.push_str(r#"["round"]"#),
        Act::Send(number) => push_numbered(text, r#"["send","#, number),
        Act::Deliver(number) => push_numbered(text, r#"["deliver","#, number),
        Act::Hand(number) => push_numbered(text, r#"["hand","#, number),
        Act::All => text.push_str(r#"["all"]"#),
        Act::CrashLost => text.push_str(r#"["crash","lost"]"#),
        Act::CrashKept => text.push_str(r#"["crash","kept"]"#),
        Act::Stop => text.push_str(r#"["stop"]"#),
        Act::Start => text.push_str(r#"["start"]"#),
    }
}

/// Adds the front of an event, its number and the end of the list.
fn push_numbered<P: Pieces>(text: &mut P, front: &str, number: u32)
    ensures text { P.pushes text.old (front.now ++ (decimal number ++ codes "]")) text.new }
    ensures few { number ≤ largest_number }
{
    text.push_str(front);
    push_number(text, u64::from(number));
    text.push_str("]");
}
