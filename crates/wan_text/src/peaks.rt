ghost use Rattle.std.specs.Prelude.{◌≡◌};
ghost use Rattle.wan_text.specs.Added.{Adds};
ghost use Rattle.wan_text.specs.Peaks.{link_peak_line, peak_line, table_peak_line};

use crate::switch::{link_piece, switch_piece};
use lists::{Memory, Text};
use std::alloc::Global;
use wan_model::Problem;

/// Adds the peak line of a link, with its line feed. Lack of memory changes nothing.
pub fn push_link_peak(
    alloc: Global,
    text: &mut Text,
    problem: &Problem,
    link: usize,
    peak: u128,
    capacity: u128,
) -> Result<(), Memory>
    ensures { Adds result text.old (link_peak_line problem.now link peak capacity) text.new }
{
    let name = link_piece(alloc, problem, link)?;
    push_peak(alloc, text, &name, peak, capacity)?;
    Ok(())
}

/// Adds the peak line of a switch's table, with its line feed. Lack of memory changes nothing.
pub fn push_table_peak(
    alloc: Global,
    text: &mut Text,
    problem: &Problem,
    switch: usize,
    peak: u128,
    size: u128,
) -> Result<(), Memory>
    ensures { Adds result text.old (table_peak_line problem.now switch peak size) text.new }
{
    let switch = switch_piece(alloc, problem, switch)?;
    let name = format!(in alloc; "table {switch}")?;
    push_peak(alloc, text, &name, peak, size)?;
    Ok(())
}

fn push_peak(
    alloc: Global,
    text: &mut Text,
    name: &str,
    peak: u128,
    capacity: u128,
) -> Result<(), Memory>
    ensures { Adds result text.old (peak_line name.now peak capacity) text.new }
{
    let line = format!(in alloc; "peak {name} {peak} of {capacity}\n")?;
    text.push_str(&line)?;
    Ok(())
}
