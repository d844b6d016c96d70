ghost use Rattle.std.specs.Prelude.{◌≡◌, ◌++◌, IfOk, OnOk};
ghost use Rattle.text_commands.specs.Lines.{bytes_of};
ghost use Rattle.text_commands.specs.NoPlanLines.{side_text, load_on, link_load, above, leaves_no_slack, wants, no_plan_line, none_found_line, stuck_line, not_found_line};

use crate::line::Line;
use fewest_plan::{Cause, NotFound};
use lists::{Memory, Text};
use scratch_plan::NoPlan;
use std::alloc::Global;
use wan_model::{Problem, Side};
use wan_text::{push_link, push_switch};

/// The line of a problem for which no plan is found.
pub fn no_plan_line(alloc: Global, missed: &NotFound) -> Result<Line, Memory>
    ensures { IfOk result
        (λ line. bytes_of line ≡ not_found_line missed.now.problem missed.now.cause) }
{
    let mut line = Text::new(alloc);
    push_not_found(alloc, &mut line, &missed.problem, missed.cause)?;
    Ok(Line::Made(line))
}

fn push_not_found(
    alloc: Global,
    line: &mut Text,
    problem: &Problem,
    cause: Cause,
) -> Result<(), Memory>
    ensures { OnOk result (line.new ≡ line.old ++ not_found_line problem.now cause) }
{
    match cause {
        Cause::Unchosen(cause) => push_cause(alloc, line, problem, cause),
        Cause::Unfound(cause) => push_none_found(alloc, line, problem, cause),
        Cause::Stuck(link) => push_stuck(alloc, line, problem, link),
    }
}

fn push_none_found(
    alloc: Global,
    line: &mut Text,
    problem: &Problem,
    cause: NoPlan,
) -> Result<(), Memory>
    ensures { OnOk result (line.new ≡ line.old ++ none_found_line problem.now cause) }
{
    match cause {
        NoPlan::NoSlack {
            link,
            side,
            load,
            capacity,
        } => {
            let start = "no plan: none found, link ";
            push_link_load(alloc, line, start, problem, link, side, load)?;
            push_leaves_no_slack(alloc, line, capacity)
        }
        _ => push_cause(alloc, line, problem, cause),
    }
}

fn push_stuck(alloc: Global, line: &mut Text, problem: &Problem, link: u32) -> Result<(), Memory>
    ensures { OnOk result (line.new ≡ line.old ++ stuck_line problem.now link) }
{
    line.push_str("no plan: none exists, link ")?;
    push_link(alloc, line, problem, link as usize)?;
    line.push_str(" stays full\n")
}

fn push_cause(
    alloc: Global,
    line: &mut Text,
    problem: &Problem,
    cause: NoPlan,
) -> Result<(), Memory>
    ensures { OnOk result (line.new ≡ line.old ++ no_plan_line problem.now cause) }
{
    match cause {
        NoPlan::OverCapacity {
            link,
            side,
            load,
            capacity,
        } => {
            let start = "no plan: link ";
            push_link_load(alloc, line, start, problem, link, side, load)?;
            push_above(alloc, line, capacity)
        }
        NoPlan::TableFull {
            switch,
            wanted,
            size,
        } => {
            line.push_str("no plan: table ")?;
            push_switch(alloc, line, problem, switch as usize)?;
            push_wants(alloc, line, wanted)?;
            push_above(alloc, line, size)
        }
        NoPlan::NoSlack {
            link,
            side,
            load,
            capacity,
        } => {
            let start = "no plan: link ";
            push_link_load(alloc, line, start, problem, link, side, load)?;
            push_leaves_no_slack(alloc, line, capacity)
        }
        NoPlan::Memory => line.push_str("out of memory\n"),
    }
}

fn push_link_load(
    alloc: Global,
    line: &mut Text,
    start: &str,
    problem: &Problem,
    link: u32,
    side: Side,
    load: u64,
) -> Result<(), Memory>
    ensures { OnOk result (line.new ≡ line.old ++ link_load start.now problem.now link side load) }
{
    line.push_str(start)?;
    push_link(alloc, line, problem, link as usize)?;
    push_load(alloc, line, side, load)
}

fn push_load(alloc: Global, line: &mut Text, side: Side, load: u64) -> Result<(), Memory>
    ensures { OnOk result (line.new ≡ line.old ++ load_on side load) }
{
    let side = side_text(side);
    let load = format!(in alloc; " {side} load {load}")?;
    line.push_str(&load)
}

fn side_text(side: Side) -> &'static str
    ensures { result.now ≡ side_text side }
{
    match side {
        Side::Old => "old",
        Side::New => "new",
    }
}

fn push_above(alloc: Global, line: &mut Text, limit: u64) -> Result<(), Memory>
    ensures { OnOk result (line.new ≡ line.old ++ above limit) }
{
    let end = format!(in alloc; " above {limit}\n")?;
    line.push_str(&end)
}

fn push_leaves_no_slack(alloc: Global, line: &mut Text, capacity: u64) -> Result<(), Memory>
    ensures { OnOk result (line.new ≡ line.old ++ leaves_no_slack capacity) }
{
    let end = format!(in alloc; " of {capacity} leaves no slack\n")?;
    line.push_str(&end)
}

fn push_wants(alloc: Global, line: &mut Text, wanted: u64) -> Result<(), Memory>
    ensures { OnOk result (line.new ≡ line.old ++ wants wanted) }
{
    let part = format!(in alloc; " wants {wanted}")?;
    line.push_str(&part)
}
