//! The line of a rollout of which no problem is left.
ghost use Rattle.std.specs.Prelude.{◌≡◌, IfOk};
ghost use Rattle.retarget_service.specs.UnleftLines as lines;

use lists::{Memory, Text};
use retarget_plan::{Row, Unleft};
use std::alloc::{AllocError, Global};

/// The line of a rollout of which no problem is left; without memory for it that is what it tells.
pub fn unleft_line(alloc: Global, cause: Unleft) -> Result<Text, Memory>
    ensures { IfOk result (λ text. text ≡ lines.unleft_line cause) }
{
    match cause {
        Unleft::Flying { item, operation } => flying_line(alloc, item, operation),
        Unleft::Partly { tunnel } => partly_line(alloc, tunnel),
        Unleft::TooLarge { row, place, found } => large_line(alloc, row, place, found),
        Unleft::Memory => Err(AllocError),
    }
}

fn flying_line(alloc: Global, item: u32, operation: u32) -> Result<Text, Memory>
    ensures { IfOk result (λ text. text ≡ lines.flying_line item operation) }
{
    let line = format!(in alloc; "flying: item {item} operation {operation}\n")?;
    Ok(Text::from(line))
}

fn partly_line(alloc: Global, tunnel: u32) -> Result<Text, Memory>
    ensures { IfOk result (λ text. text ≡ lines.partly_line tunnel) }
{
    let line = format!(in alloc; "partly: tunnel {tunnel}\n")?;
    Ok(Text::from(line))
}

fn large_line(alloc: Global, row: Row, place: u32, found: u64) -> Result<Text, Memory>
    ensures { IfOk result (λ text. text ≡ lines.large_line row place found) }
{
    match row {
        Row::Capacities => capacity_line(alloc, place, found),
        Row::OldRates => old_line(alloc, place, found),
        Row::NewRates => new_line(alloc, place, found),
    }
}

fn capacity_line(alloc: Global, link: u32, found: u64) -> Result<Text, Memory>
    ensures { IfOk result (λ text. text ≡ lines.capacity_line link found) }
{
    let line = format!(in alloc;
        "too large: capacity of link {link}: {found} above 1000000000000\n"
    )?;
    Ok(Text::from(line))
}

fn old_line(alloc: Global, tunnel: u32, found: u64) -> Result<Text, Memory>
    ensures { IfOk result (λ text. text ≡ lines.old_line tunnel found) }
{
    let line = format!(in alloc;
        "too large: old rate of tunnel {tunnel}: {found} above 1000000000\n"
    )?;
    Ok(Text::from(line))
}

fn new_line(alloc: Global, tunnel: u32, found: u64) -> Result<Text, Memory>
    ensures { IfOk result (λ text. text ≡ lines.new_line tunnel found) }
{
    let line = format!(in alloc;
        "too large: new rate of tunnel {tunnel}: {found} above 1000000000\n"
    )?;
    Ok(Text::from(line))
}
