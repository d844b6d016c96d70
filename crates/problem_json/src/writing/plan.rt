ghost use Rattle.std.specs.Prelude.{length, map};
ghost use Rattle.serde_json.specs.Data.{boolean};
ghost use Rattle.serde_json.specs.Written.{compact_text};
ghost use Rattle.problem_json.specs.Writing.{number_data, list_data, stage_data, plan_data, AreWords, AreStagesOfWords, IsPlanOfWords};

use crate::writing::pieces::{push_comma, push_number};
use text_writer::Pieces;
use wan_model::{Plan, Stage};

/// Adds a plan, stage by stage.
pub fn push_plan<P: Pieces>(text: &mut P, plan: &Plan)
    ensures text { P.pushes text.old (compact_text (plan_data plan.now)) text.new }
    ensures words { IsPlanOfWords plan.now }
{
    text.push_str(r#"{"scale":"#);
    push_number(text, u64::from(plan.scale));
    text.push_str(r#","stages":"#);
    push_stages(text, plan.stages.as_slice());
    text.push_str("}");
}

fn push_stages<P: Pieces>(text: &mut P, stages: &[Stage])
    ensures text { P.pushes text.old (compact_text (list_data (map stage_data stages.now)))
        text.new }
    ensures words { AreStagesOfWords (length stages.now) stages.now }
{
    text.push_str("[");
    for (number, stage) in stages.iter().enumerate() {
        push_comma(text, number);
        push_stage(text, stage);
    }
    text.push_str("]");
}

fn push_stage<P: Pieces>(text: &mut P, stage: &Stage)
    ensures text { P.pushes text.old (compact_text (stage_data stage.now)) text.new }
    ensures words { AreWords stage.now.rates }
{
    text.push_str(r#"{"installed":"#);
    push_marks(text, stage.installed.as_slice());
    text.push_str(r#","rates":"#);
    push_rates(text, stage.rates.as_slice());
    text.push_str("}");
}

fn push_marks<P: Pieces>(text: &mut P, marks: &[bool])
    ensures { P.pushes text.old (compact_text (list_data (map boolean marks.now))) text.new }
{
    text.push_str("[");
    for (number, mark) in marks.iter().enumerate() {
        push_comma(text, number);
        push_mark(text, *mark);
    }
    text.push_str("]");
}

fn push_mark<P: Pieces>(text: &mut P, mark: bool)
    ensures { P.pushes text.old (compact_text (boolean mark)) text.new }
{
    text.push_str(if mark { "true" } else { "false" });
}

fn push_rates<P: Pieces>(text: &mut P, rates: &[u64])
    ensures text { P.pushes text.old (compact_text (list_data (map number_data rates.now)))
        text.new }
    ensures words { AreWords rates.now }
{
    text.push_str("[");
    for (number, rate) in rates.iter().enumerate() {
        push_comma(text, number);
        push_number(text, *rate);
    }
    text.push_str("]");
}
