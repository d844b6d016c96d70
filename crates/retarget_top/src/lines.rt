//! The lines of the endings that other commands don't have.
ghost use Rattle.std.specs.Prelude.{◌≡◌, IfOk};
ghost use Rattle.retarget_top.specs.Lines as lines;

use lists::{Memory, Text};
use std::alloc::Global;
use target_json::TargetFault;

/// The line of a document without such a target.
pub(crate) fn target_line(alloc: Global, fault: TargetFault) -> Result<Text, Memory>
    ensures { IfOk result (λ text. text ≡ lines.target_line fault) }
{
    let line = format!(in alloc; "{fault}\n")?;
    Ok(Text::from(line))
}

/// The line of a link that the problem doesn't have.
pub(crate) fn no_link_line(alloc: Global, name: &str) -> Result<Text, Memory>
    ensures { IfOk result (λ text. text ≡ lines.no_link_line name.now) }
{
    let line = format!(in alloc; "shed: no such link: {name}\n")?;
    Ok(Text::from(line))
}
