ghost use Rattle.std.specs.Prelude.{◌≡◌, IfOk, string_bytes};
ghost use Rattle.wan_text.specs.Added.{Adds};
ghost use Rattle.wan_text.specs.Names.{spot_text};

use crate::switch::{link_piece, switch_piece};
use lists::{Memory, Text};
use std::alloc::Global;
use wan_model::{Problem, Spot};

/// Adds the spot of a broken clause. Lack of memory changes nothing.
pub fn push_spot(
    alloc: Global,
    text: &mut Text,
    problem: &Problem,
    spot: Spot,
) -> Result<(), Memory>
    ensures { Adds result text.old (spot_text problem.now spot) text.new }
{
    let piece = spot_piece(alloc, problem, spot)?;
    text.push_str(&piece)?;
    Ok(())
}

fn spot_piece(alloc: Global, problem: &Problem, spot: Spot) -> Result<String, Memory>
    ensures { IfOk result (λ s. string_bytes s ≡ spot_text problem.now spot) }
{
    match spot {
        Spot::Whole => String::from_str(alloc, "whole"),
        Spot::Tunnel(tunnel) => format!(in alloc; "tunnel {tunnel}"),
        Spot::Link(link) => {
            let name = link_piece(alloc, problem, link as usize)?;
            let piece = format!(in alloc; "link {name}")?;
            Ok(piece)
        }
        Spot::Table(switch) => {
            let name = switch_piece(alloc, problem, switch as usize)?;
            let piece = format!(in alloc; "table {name}")?;
            Ok(piece)
        }
        Spot::Flow(flow) => format!(in alloc; "flow {flow}"),
    }
}
