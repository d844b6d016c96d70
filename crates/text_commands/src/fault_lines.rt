ghost use Rattle.std.specs.Prelude.{◌≡◌, ◌++◌, IfOk, OnOk};
ghost use Rattle.text_commands.specs.FaultLines.{input_line, broken_place, broken_numbers, broken_line};
ghost use Rattle.text_commands.specs.Lines.{bytes_of};

use crate::line::Line;
use lists::{Memory, Text};
use plan_check::Broken;
use problem_json::InputFault;
use std::alloc::Global;
use wan_model::Problem;
use wan_text::push_spot;

/// The line of an input that isn't what the command reads.
pub fn input_line(alloc: Global, fault: &InputFault) -> Result<Line, Memory>
    ensures { IfOk result (λ line. bytes_of line ≡ input_line fault.now) }
{
    let line = format!(in alloc; "{fault}\n")?;
    Ok(Line::Made(Text::from(line)))
}

/// The line of a plan that breaks a clause.
pub fn broken_line(alloc: Global, problem: &Problem, broken: &Broken) -> Result<Line, Memory>
    ensures { IfOk result (λ line. bytes_of line ≡ broken_line problem.now broken.now) }
{
    let mut line = Text::new(alloc);
    line.push_str("input: plan: P")?;
    push_broken_place(alloc, &mut line, broken)?;
    push_spot(alloc, &mut line, problem, broken.spot)?;
    push_broken_numbers(alloc, &mut line, broken)?;
    Ok(Line::Made(line))
}

fn push_broken_place(alloc: Global, line: &mut Text, broken: &Broken) -> Result<(), Memory>
    ensures { OnOk result (line.new ≡ line.old ++ broken_place broken.now) }
{
    let Broken { clause, stage, .. } = *broken;
    let place = format!(in alloc; "{clause} at stage {stage}, ")?;
    line.push_str(&place)
}

fn push_broken_numbers(alloc: Global, line: &mut Text, broken: &Broken) -> Result<(), Memory>
    ensures { OnOk result (line.new ≡ line.old ++ broken_numbers broken.now) }
{
    let Broken { found, wanted, .. } = *broken;
    let numbers = format!(in alloc; ": {found} against {wanted}\n")?;
    line.push_str(&numbers)
}
