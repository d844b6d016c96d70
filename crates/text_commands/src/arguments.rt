//! The arguments of a program: the first is its own name, and those after it are its words.
ghost use Rattle.std.specs.Prelude.{◌≡◌, ◌≢◌, drop};
ghost use Rattle.std.specs.IoError.{error_kind};

use crate::command_end::CommandEnd;
use std::io::{Error, ErrorKind};

/// Why the arguments of a program couldn't be read.
#[derive(Clone, Copy, Debug, PartialEq, Eq)]
pub enum Unread {
    /// One of them isn't UTF-8.
    NotText,
    /// No memory was found.
    Memory,
}

/// Why the arguments couldn't be read: beside lack of memory, one of them isn't UTF-8.
pub fn why_unread(error: &Error) -> Unread
    ensures memory { error_kind error.now ≡ ErrorKind.OutOfMemory → result ≡ Unread.Memory }
    ensures text { error_kind error.now ≢ ErrorKind.OutOfMemory → result ≡ Unread.NotText }
{
    if error.kind() == ErrorKind::OutOfMemory {
        return Unread::Memory;
    }
    Unread::NotText
}

impl From<Unread> for CommandEnd {
    ghost use Rattle.std.specs.Prelude.{◌≡◌};
    ghost use Rattle.text_commands.specs.CommandEnds.{ending_of_unread};

    ghost from_gives = { λ why ending. ending ≡ ending_of_unread why };

    fn from(why: Unread) -> CommandEnd {
        match why {
            Unread::NotText => CommandEnd::Usage,
            Unread::Memory => CommandEnd::OutOfMemory,
        }
    }
}

/// The words after the program's own name.
pub fn words_of(arguments: &[String]) -> &[String]
    ensures { result.now ≡ drop 1 arguments.now }
{
    match arguments {
        [_, words @ ..] => words,
        [] => &[],
    }
}
