//! Room for notes, and writing one.
ghost use Rattle.std.specs.Prelude.{◌≡◌, ◌+◌, ◌<◌, ◌≤◌, ◌++◌, [], ◌∷◌, vec_len, vec_capacity, OnErr, OnOk};
ghost use Rattle.std.specs.Option.{option_or};
ghost use Rattle.shared_book.specs.Notes as stops;
ghost use Rattle.shared_book.specs.Sharing.{IsNoted};

use crate::{Cause, Halt, Note, What};
use lists::Memory;
use rollout_book::BookFault;

/// Makes room for a note more than the stops that may come.
pub(crate) fn make_room(notes: &mut Vec<Note>, spare: u32) -> Result<(), Memory>
    ensures same { notes.new.items ≡ notes.old.items }
    ensures room { OnOk result (vec_len notes.new + spare + 1 ≤ vec_capacity notes.new) }
    ensures kept { vec_capacity notes.old ≤ vec_capacity notes.new }
{
    notes.reserve(spare as usize + 1)
}

/// Writes a note in room that there is, and keeps the first stop.
pub(crate) fn write(notes: &mut Vec<Note>, halted: &mut Option<Halt>, note: Note)
    requires { vec_len notes.old < vec_capacity notes.old }
    ensures notes { notes.new.items ≡ notes.old.items ++ note ∷ [] }
    ensures halted { halted.new ≡ option_or halted.old (stops.halt_by note) }
    ensures room { vec_capacity notes.new ≡ vec_capacity notes.old }
{
    if halted.is_none() {
        *halted = halt_of(note);
    }
    notes.push_reserved(note);
}

/// Writes what is noted of a call, if anything is.
pub(crate) fn write_if(
    notes: &mut Vec<Note>,
    halted: &mut Option<Halt>,
    seat: u32,
    call: u64,
    what: Option<What>,
)
    requires { vec_len notes.old < vec_capacity notes.old }
    ensures written { IsNoted seat call what notes.old.items halted.old notes.new.items halted.new }
    ensures room { vec_capacity notes.new ≡ vec_capacity notes.old }
{
    if let Some(what) = what {
        write(notes, halted, Note { seat, call, what });
    }
}

fn halt_of(note: Note) -> Option<Halt>
    ensures { result ≡ stops.halt_by note }
{
    let cause = cause_of(note.what)?;
    Some(Halt {
        seat: note.seat,
        call: note.call,
        cause,
    })
}

// The cause for which what was noted stops the history; of a round that was refused, that of its fault.
fn cause_of(what: What) -> Option<Cause>
    ensures { result ≡ stops.cause_of what }
{
    match what {
        What::Alien { item, held, begun } => {
            Some(Cause::from(BookFault::Alien { item, held, begun }))
        }
        What::Disk => Some(Cause::from(BookFault::Disk)),
        What::Stop(cause) => Some(cause),
        _ => None,
    }
}
