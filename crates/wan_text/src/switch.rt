ghost use Rattle.std.specs.Prelude.{◌≡◌, IfOk, string_bytes};
ghost use Rattle.rollout_rules.specs.Wan.{link_at, switch_at};
ghost use Rattle.wan_text.specs.Added.{Adds};
ghost use Rattle.wan_text.specs.Names.{link_text, name_text, switch_text};

use lists::{Memory, Text};
use serde_json::Value;
use std::alloc::Global;
use wan_model::Problem;

/// Adds a link: the names of its ends with `>` between them. Lack of memory changes nothing.
pub fn push_link(
    alloc: Global,
    text: &mut Text,
    problem: &Problem,
    link: usize,
) -> Result<(), Memory>
    ensures { Adds result text.old (link_text problem.now link) text.new }
{
    let piece = link_piece(alloc, problem, link)?;
    text.push_str(&piece)?;
    Ok(())
}

/// What a link is printed as.
pub(crate) fn link_piece(alloc: Global, problem: &Problem, link: usize) -> Result<String, Memory>
    ensures { IfOk result (λ s. string_bytes s ≡ link_text problem.now link) }
{
    let (from, to) = ends_of(problem, link);
    let from = quote(alloc, name_of(problem, from))?;
    let to = quote(alloc, name_of(problem, to))?;
    let piece = format!(in alloc; "{from}>{to}")?;
    Ok(piece)
}

fn ends_of(problem: &Problem, link: usize) -> (usize, usize)
    ensures from { result.0 ≡ (link_at problem.now link).from }
    ensures to { result.1 ≡ (link_at problem.now link).to }
{
    let links = problem.links();
    if link < links.len() {
        let row = &links[link];
        return (row.from as usize, row.to as usize);
    }
    (0, 0)
}

/// Adds a switch: its name. Lack of memory changes nothing.
pub fn push_switch(
    alloc: Global,
    text: &mut Text,
    problem: &Problem,
    switch: usize,
) -> Result<(), Memory>
    ensures { Adds result text.old (switch_text problem.now switch) text.new }
{
    push_name(alloc, text, name_of(problem, switch))?;
    Ok(())
}

/// What a switch is printed as.
pub(crate) fn switch_piece(
    alloc: Global,
    problem: &Problem,
    switch: usize,
) -> Result<String, Memory>
    ensures { IfOk result (λ s. string_bytes s ≡ switch_text problem.now switch) }
{
    quote(alloc, name_of(problem, switch))
}

fn name_of(problem: &Problem, switch: usize) -> &str
    ensures { result.now ≡ (switch_at problem.now switch).name }
{
    if switch < problem.switches().len() {
        return problem.switch_name(switch);
    }
    ""
}

/// Adds a name as its JSON text, with quotes. Lack of memory changes nothing.
pub fn push_name(alloc: Global, text: &mut Text, name: &str) -> Result<(), Memory>
    ensures { Adds result text.old (name_text name.now) text.new }
{
    let quoted = quote(alloc, name)?;
    text.push_str(quoted.as_str())?;
    Ok(())
}

pub(crate) fn quote(alloc: Global, name: &str) -> Result<String, Memory>
    ensures { IfOk result (λ s. string_bytes s ≡ name_text name.now) }
{
    let value = Value::from(String::from_str(alloc, name)?);
    value.to_string(alloc)
}
