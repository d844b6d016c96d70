ghost use Rattle.std.specs.Prelude.{◌≡◌, ◌++◌, IfOk, OnOk, length};
ghost use Rattle.rollout_rules.specs.History as rules;
ghost use Rattle.wan_text.specs.Added.{Adds};
ghost use Rattle.rollout_report.specs.Peaks.{peaks_of};
ghost use Rattle.rollout_report.specs.Ends.{link_lines, table_lines, last_line, end_lines};

use crate::history::History;
use crate::pass::Pass;
use crate::peaks::Peaks;
use lists::{Memory, Text};
use std::alloc::Global;
use wan_model::CheckedPlan;
use wan_text::{push_link_peak, push_table_peak};

/// Adds the lines after a history: the peak of each link in units of 1/scale and of each table in the
/// widths of its entries, and whether every operation is settled. An Err is lack of memory, and changes
/// nothing.
pub fn push_end(
    alloc: Global,
    plan: &CheckedPlan,
    history: &History<'_>,
    text: &mut Text,
) -> Result<(), Memory>
    ensures { Adds result text.old (end_lines plan.now.problem plan.now.plan history.now) text.new }
{
    let lines = end_of(alloc, plan, history)?;
    text.push_str(lines.as_str())?;
    Ok(())
}

fn end_of(alloc: Global, plan: &CheckedPlan, history: &History<'_>) -> Result<Text, Memory>
    ensures { IfOk result
        (λ lines. lines ≡ end_lines plan.now.problem plan.now.plan history.now) }
{
    let pass = Pass::over(alloc, plan, history)?;
    let left = pass.left(plan);
    let peaks = pass.into_peaks();
    let mut lines = Text::new(alloc);
    push_link_lines(alloc, plan, &peaks, &mut lines)?;
    push_table_lines(alloc, plan, &peaks, &mut lines)?;
    push_last_line(alloc, &mut lines, left)?;
    Ok(lines)
}

fn push_link_lines(
    alloc: Global,
    plan: &CheckedPlan,
    peaks: &Peaks,
    text: &mut Text,
) -> Result<(), Memory>
    requires { length peaks.now.links ≡ length plan.now.problem.links }
    ensures { (h : rules.History)
        → peaks.now ≡ peaks_of plan.now.problem plan.now.plan h
        → OnOk result
        (text.new
        ≡ text.old ++ link_lines plan.now.problem plan.now.plan h (length plan.now.problem.links)) }
{
    let problem = plan.problem();
    let scale = u128::from(plan.plan().scale);
    for (number, peak) in peaks.links().iter().enumerate() {
        let capacity = u128::from(problem.capacity(number)) * scale;
        push_link_peak(alloc, text, problem, number, *peak, capacity)?;
    }
    Ok(())
}

fn push_table_lines(
    alloc: Global,
    plan: &CheckedPlan,
    peaks: &Peaks,
    text: &mut Text,
) -> Result<(), Memory>
    requires { length peaks.now.tables ≡ length plan.now.problem.switches }
    ensures { (h : rules.History)
        → peaks.now ≡ peaks_of plan.now.problem plan.now.plan h
        → OnOk result
        (text.new
        ≡ text.old
        ++ table_lines plan.now.problem plan.now.plan h (length plan.now.problem.switches)) }
{
    let problem = plan.problem();
    for (number, peak) in peaks.tables().iter().enumerate() {
        let size = u128::from(problem.table(number));
        push_table_peak(alloc, text, problem, number, *peak, size)?;
    }
    Ok(())
}

/// Adds the last line: whether operations are left unsettled, and how many. An Err is lack of memory, and
/// changes nothing.
pub fn push_last_line(alloc: Global, text: &mut Text, left: u64) -> Result<(), Memory>
    ensures { Adds result text.old (last_line left) text.new }
{
    if left == 0 {
        text.push_str("finished\n")?;
        return Ok(());
    }
    let line = format!(in alloc; "unfinished: {left}\n")?;
    text.push_str(&line)?;
    Ok(())
}
