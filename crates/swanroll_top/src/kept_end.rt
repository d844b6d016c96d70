//! How an agent with a file ends.
ghost use Rattle.std.specs.Prelude.{◌≡◌, IfOk};
ghost use Rattle.swanroll_top.specs.KeptAgents as kept;
ghost use Rattle.text_commands.specs.Lines.{bytes_of};

use agent_state::StateFault;
use lists::{Memory, Text};
use std::alloc::Global;
use text_commands::{CommandEnd, Line, out_of_memory};

/// How an agent with a file ends: as one without, or for its file.
#[derive(Debug, Drop)]
pub enum KeptEnd {
    Ended(CommandEnd),
    /// The file wasn't opened, or isn't kept any longer.
    State(StateFault),
}

impl KeptEnd {
    /// The exit status.
    pub fn status(&self) -> u8
        ensures { result ≡ kept.kept_status self.now }
    {
        match self {
            KeptEnd::Ended(ending) => ending.status(),
            KeptEnd::State(why) => state_status(why),
        }
    }

    /// The line of the notes, with its line feed; nothing where the run is done.
    pub fn line(&self, alloc: Global) -> Result<Line, Memory>
        ensures { IfOk result (λ line. bytes_of line ≡ kept.kept_line self.now) }
    {
        match self {
            KeptEnd::Ended(ending) => ending.line(alloc),
            KeptEnd::State(why) => state_line(alloc, why),
        }
    }
}

fn state_status(why: &StateFault) -> u8
    ensures { result ≡ kept.state_status why.now }
{
    match why {
        StateFault::Disk => 8,
        StateFault::NotState(_) | StateFault::Damaged(_) => 10,
        StateFault::Memory => 12,
    }
}

fn state_line(alloc: Global, why: &StateFault) -> Result<Line, Memory>
    ensures { IfOk result (λ line. bytes_of line ≡ kept.state_line why.now) }
{
    match why {
        StateFault::Disk => Ok(Line::Known("state device fault\n")),
        StateFault::NotState(first) => first_byte_line(alloc, *first),
        StateFault::Damaged(place) => damaged_line(alloc, *place),
        StateFault::Memory => Ok(out_of_memory()),
    }
}

fn first_byte_line(alloc: Global, first: u8) -> Result<Line, Memory>
    ensures { IfOk result
        (λ line. bytes_of line ≡ kept.state_line (StateFault.NotState first)) }
{
    let text = format!(in alloc; "state: first byte {first}\n")?;
    Ok(Line::Made(Text::from(text)))
}

fn damaged_line(alloc: Global, place: u32) -> Result<Line, Memory>
    ensures { IfOk result
        (λ line. bytes_of line ≡ kept.state_line (StateFault.Damaged place)) }
{
    let text = format!(in alloc; "state: batch {place} damaged\n")?;
    Ok(Line::Made(Text::from(text)))
}
