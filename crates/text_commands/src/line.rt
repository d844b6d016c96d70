ghost use Rattle.std.specs.Prelude.{◌≡◌};
ghost use Rattle.text_commands.specs.CommandEnds.{line_of};
ghost use Rattle.text_commands.specs.Lines.{bytes_of};
ghost use Rattle.text_commands.specs.declared.command_end.CommandEnd.TheVariants.{OutOfMemory};

use lists::Text;

/// A line of the notes, with its line feed: known beforehand, or made of what was found.
#[derive(Debug, Drop)]
pub enum Line {
    Known(&'static str),
    Made(Text),
}

impl Line {
    ghost use Rattle.std.specs.Prelude.{◌≡◌};
    ghost use Rattle.text_commands.specs.Lines.{bytes_of};

    pub fn as_str(&self) -> &str
        ensures { result.now ≡ bytes_of self.now }
    {
        match self {
            Line::Known(line) => line,
            Line::Made(line) => line.as_str(),
        }
    }
}

pub fn out_of_memory() -> Line
    ensures { bytes_of result ≡ line_of OutOfMemory }
{
    Line::Known("out of memory\n")
}
