ghost use Rattle.std.specs.Prelude.{◌≡◌};

use crate::fault_lines::{broken_line, input_line};
use crate::journal_line::journal_line;
use crate::line::{Line, out_of_memory};
use crate::no_plan_line::no_plan_line;
use crate::unfinished::{Unfinished, unfinished_line};
use crate::unshown::Unshown;
use fewest_plan::{Cause, NotFound};
use intent_journal::JournalFault;
use lists::Memory;
use plan_check::Broken;
use problem_json::InputFault;
use scratch_plan::NoPlan;
use std::alloc::Global;
use wan_edge::ReadFault;
use wan_model::Problem;

/// How a run ends: done, or why not.
#[derive(Debug, Drop)]
pub enum CommandEnd {
    Done,
    /// The words aren't a command line.
    Usage,
    /// The input has more bytes than the limit.
    AboveLimit,
    /// The input isn't what the command reads.
    Input(InputFault),
    /// The plan of a document isn't valid: its problem, and the first clause that the plan breaks.
    NotValid(Problem, Broken),
    /// No plan is found for the problem.
    NoPlan(NotFound),
    /// It isn't shown that fewer rate steps are impossible.
    Unshown(Unshown),
    ReadFault,
    WriteFault,
    /// The disk of the journal failed.
    DiskFault,
    /// The fleet failed to give the next guest.
    GuestFault,
    /// The journal on the disk isn't one of this rollout, or can't be followed.
    Refused(JournalFault),
    /// A rollout was begun, and isn't finished.
    NotFinished(Unfinished),
    OutOfMemory,
}

impl CommandEnd {
    ghost use Rattle.std.specs.Prelude.{IfErr, IfOk, IsTrue};
    ghost use Rattle.text_commands.specs.CommandEnds.{status_of, line_of, tells_place};
    ghost use Rattle.text_commands.specs.Lines.{bytes_of};

    /// The exit status.
    pub fn status(&self) -> u8
        ensures { result ≡ status_of self.now }
    {
        match self {
            CommandEnd::Done => 0,
            CommandEnd::Usage => 2,
            CommandEnd::AboveLimit | CommandEnd::Input(_) | CommandEnd::NotValid(..) => 3,
            CommandEnd::NoPlan(_) => 4,
            CommandEnd::Unshown(_) => 15,
            CommandEnd::ReadFault => 6,
            CommandEnd::WriteFault => 7,
            CommandEnd::DiskFault => 8,
            CommandEnd::GuestFault => 9,
            CommandEnd::Refused(_) => 10,
            CommandEnd::NotFinished(unfinished) => unfinished.status(),
            CommandEnd::OutOfMemory => 12,
        }
    }

    /// The line of the notes, with its line feed; nothing where the run is done. Only a line that tells
    /// a place takes memory.
    pub fn line(&self, alloc: Global) -> Result<Line, Memory>
        ensures ok { IfOk result (λ line. bytes_of line ≡ line_of self.now) }
        ensures err { IfErr result (λ _. IsTrue (tells_place self.now)) }
    {
        match self {
            CommandEnd::Done => Ok(Line::Known("")),
            CommandEnd::Usage => Ok(Line::Known("usage: swanroll COMMAND [--NAME VALUE]\n")),
            CommandEnd::AboveLimit => Ok(Line::Known("input: above 16777216 bytes\n")),
            CommandEnd::Input(fault) => input_line(alloc, fault),
            CommandEnd::NotValid(problem, broken) => broken_line(alloc, problem, broken),
            CommandEnd::NoPlan(missed) => no_plan_line(alloc, missed),
            CommandEnd::Unshown(why) => Ok(Line::Known(why.told())),
            CommandEnd::ReadFault => Ok(Line::Known("read fault\n")),
            CommandEnd::WriteFault => Ok(Line::Known("write fault\n")),
            CommandEnd::DiskFault => Ok(Line::Known("journal device fault\n")),
            CommandEnd::GuestFault => Ok(Line::Known("guest fault\n")),
            CommandEnd::Refused(fault) => journal_line(alloc, fault),
            CommandEnd::NotFinished(unfinished) => unfinished_line(alloc, unfinished),
            CommandEnd::OutOfMemory => Ok(out_of_memory()),
        }
    }
}

impl From<ReadFault> for CommandEnd {
    ghost use Rattle.std.specs.Prelude.{◌≡◌};
    ghost use Rattle.text_commands.specs.CommandEnds.{ending_of_reading};

    ghost from_gives = { λ fault ending. ending ≡ ending_of_reading fault };

    fn from(fault: ReadFault) -> CommandEnd {
        match fault {
            ReadFault::Failed => CommandEnd::ReadFault,
            ReadFault::TooLong => CommandEnd::AboveLimit,
            ReadFault::Memory => CommandEnd::OutOfMemory,
        }
    }
}

impl From<InputFault> for CommandEnd {
    ghost use Rattle.std.specs.Prelude.{◌≡◌};
    ghost use Rattle.text_commands.specs.CommandEnds.{ending_of};

    ghost from_gives = { λ fault ending. ending ≡ ending_of fault };

    fn from(fault: InputFault) -> CommandEnd {
        match fault {
            InputFault::Memory => CommandEnd::OutOfMemory,
            _ => CommandEnd::Input(fault),
        }
    }
}

impl From<NotFound> for CommandEnd {
    ghost use Rattle.std.specs.Prelude.{◌≡◌};
    ghost use Rattle.text_commands.specs.CommandEnds.{ending_without};

    ghost from_gives = { λ missed ending. ending ≡ ending_without missed.problem missed.cause };

    fn from(missed: NotFound) -> CommandEnd {
        match missed.cause {
            Cause::Unchosen(NoPlan::Memory) => CommandEnd::OutOfMemory,
            _ => CommandEnd::NoPlan(missed),
        }
    }
}

impl From<JournalFault> for CommandEnd {
    ghost use Rattle.std.specs.Prelude.{◌≡◌};
    ghost use Rattle.text_commands.specs.CommandEnds.{ending_of_journal};

    ghost from_gives = { λ fault ending. ending ≡ ending_of_journal fault };

    fn from(fault: JournalFault) -> CommandEnd {
        match fault {
            JournalFault::Disk => CommandEnd::DiskFault,
            JournalFault::Memory => CommandEnd::OutOfMemory,
            _ => CommandEnd::Refused(fault),
        }
    }
}

impl From<Memory> for CommandEnd {
    ghost use Rattle.std.specs.Prelude.{◌≡◌};
    ghost use Rattle.text_commands.specs.declared.command_end.CommandEnd.TheVariants.{OutOfMemory};

    ghost from_gives = { λ _ ending. ending ≡ OutOfMemory };

    fn from(_refused: Memory) -> CommandEnd {
        CommandEnd::OutOfMemory
    }
}
