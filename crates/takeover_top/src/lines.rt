//! The lines that only a takeover writes.
ghost use Rattle.std.specs.Prelude.{◌≡◌, ◌++◌, IfOk, OnOk};
ghost use Rattle.takeover_top.specs.Lines as lines;

use dependency_graph::StartFault;
use lists::{Memory, Text};
use std::alloc::{AllocError, Global};
use wan_model::{Problem, Spot};
use wan_text::push_spot;

/// The line of a takeover that is finished: how many operations there are, and the sum of its start.
pub(crate) fn taken_line(alloc: Global, operations: u32, total: u64) -> Result<Text, Memory>
    ensures { IfOk result (λ text. text ≡ lines.taken_line operations total) }
{
    let line = format!(in alloc; "taken: operations {operations}, start {total}\n")?;
    Ok(Text::from(line))
}

/// The line of a pair of a later migration.
pub(crate) fn later_line(alloc: Global, item: u32, migration: u32) -> Result<Text, Memory>
    ensures { IfOk result (λ text. text ≡ lines.later_line item migration) }
{
    let line = format!(in alloc; "alien: item {item} held of migration {migration}\n")?;
    Ok(Text::from(line))
}

/// The line of a start that isn't sound.
pub(crate) fn start_line(
    alloc: Global,
    problem: &Problem,
    fault: StartFault,
) -> Result<Text, Memory>
    ensures { IfOk result (λ text. text ≡ lines.start_line problem.now fault) }
{
    match fault {
        StartFault::Above { item, held, count } => above_line(alloc, item, held, count),
        StartFault::Need { item, number } => need_line(alloc, item, number),
        StartFault::Room {
            stage,
            spot,
            found,
            wanted,
        } => room_line(alloc, problem, stage, spot, found, wanted),
        StartFault::Memory => Err(AllocError),
    }
}

fn above_line(alloc: Global, item: u32, held: u32, count: u32) -> Result<Text, Memory>
    ensures { IfOk result (λ text. text ≡ lines.above_line item held count) }
{
    let line = format!(in alloc; "start: item {item} held {held} above {count}\n")?;
    Ok(Text::from(line))
}

fn need_line(alloc: Global, item: u32, number: u32) -> Result<Text, Memory>
    ensures { IfOk result (λ text. text ≡ lines.need_line item number) }
{
    let line = format!(in alloc; "start: item {item} operation {number} lacks its needs\n")?;
    Ok(Text::from(line))
}

fn room_line(
    alloc: Global,
    problem: &Problem,
    stage: u32,
    spot: Spot,
    found: u64,
    wanted: u64,
) -> Result<Text, Memory>
    ensures { IfOk result
        (λ text. text ≡ lines.room_line problem.now stage spot found wanted) }
{
    let mut line = Text::new(alloc);
    push_stage(alloc, &mut line, stage)?;
    push_spot(alloc, &mut line, problem, spot)?;
    push_amounts(alloc, &mut line, found, wanted)?;
    Ok(line)
}

fn push_stage(alloc: Global, line: &mut Text, stage: u32) -> Result<(), Memory>
    ensures { OnOk result (line.new ≡ line.old ++ lines.stage_piece stage) }
{
    let piece = format!(in alloc; "start: room at stage {stage}, ")?;
    line.push_str(&piece)
}

fn push_amounts(alloc: Global, line: &mut Text, found: u64, wanted: u64) -> Result<(), Memory>
    ensures { OnOk result (line.new ≡ line.old ++ lines.amounts_piece found wanted) }
{
    let piece = format!(in alloc; ": {found} against {wanted}\n")?;
    line.push_str(&piece)
}
