//! What a test sees of a legal shared history: the calls of each seat in order, what each was told, and what
//! a book alone answers to the same calls.
ghost use Rattle.std.specs.Prelude.{◌≤◌, length};

use crate::books::{SWITCHES, answers_to};
use disk_model::Disk;
use lists::Memory;
use rollout_book::{Book, BookFault, CommandList, Turn};
use shared_book::{ListReply, Note, RoundReply, Wake, What};
use std::alloc::Global;
use wire_frames::Answer;

/// What the calls of a seat are, in turn: it lists the commands of all switches, makes a round with the
/// answers to them, and looks for work of all switches.
#[derive(Clone, Copy)]
pub enum Kind {
    List,
    Round,
    Look,
}

/// What the call of this number is.
pub fn kind_of(call: u64) -> Kind {
    match call % 3 {
        0 => Kind::List,
        1 => Kind::Round,
        _ => Kind::Look,
    }
}

/// What is noted of a round.
pub fn said_of_round(reply: RoundReply) -> Option<What> {
    match reply {
        RoundReply::Turned(Turn { dones, begins }) => Some(What::Turned { dones, begins }),
        RoundReply::Refused(BookFault::Alien { item, held, begun }) => {
            Some(What::Alien { item, held, begun })
        }
        RoundReply::Refused(BookFault::Disk) => Some(What::Disk),
        RoundReply::Stopped(_) => Some(What::Stopped),
        RoundReply::Memory => None,
    }
}

/// What is noted of a listing.
pub fn said_of_list(reply: ListReply) -> Option<What> {
    match reply {
        ListReply::Listed => Some(What::Listed),
        ListReply::Stopped(_) => Some(What::Stopped),
        ListReply::Memory => None,
    }
}

/// What is noted of a wait.
pub fn said_of_wake(wake: Wake) -> Option<What> {
    match wake {
        Wake::Work(_) => Some(What::Work),
        Wake::Finished => Some(What::Finished),
        Wake::Held => Some(What::Held),
        Wake::Stopped(_) => Some(What::Stopped),
        Wake::Memory => None,
    }
}

/// Whether a seat has so many notes, whose numbers count up from 0.
pub fn counts_up(notes: &[Note], seat: u32, calls: u64) -> bool {
    let mut next = 0_u64;
    for note in notes {
        if note.seat == seat {
            if note.call != next {
                return false;
            }
            next = next.wrapping_add(1);
        }
    }
    next == calls
}

/// Whether each of the notes is among those that were told.
pub fn are_told(notes: &[Note], told: &[Note]) -> bool {
    for note in notes {
        if !told.contains(note) {
            return false;
        }
    }
    true
}

/// How many notes stand before the first one on the disk.
pub fn before_the_fault(notes: &[Note]) -> usize
    ensures { result ≤ length notes.now }
{
    for place in 0..notes.len() {
        if notes[place].what == What::Disk {
            return place;
        }
    }
    notes.len()
}

/// Whether all these notes are those of calls that were stopped.
pub fn are_stopped(notes: &[Note]) -> bool {
    for note in notes {
        if note.what != What::Stopped {
            return false;
        }
    }
    true
}

/// Whether a book alone answers what the notes say, to the calls of these seats in the order of the notes.
pub fn are_answered<D: Disk>(
    alloc: Global,
    book: &mut Book<'_, D>,
    seats: u32,
    notes: &[Note],
) -> Result<bool, Memory> {
    let mut kept = Vec::new(alloc);
    let answered = are_answered_with(alloc, book, seats, notes, &mut kept);
    drop(kept);
    answered
}

// The same with a row for the answers that each seat has.
fn are_answered_with<D: Disk>(
    alloc: Global,
    book: &mut Book<'_, D>,
    seats: u32,
    notes: &[Note],
    kept: &mut Vec<Vec<Answer>>,
) -> Result<bool, Memory> {
    for _seat in 0..seats {
        kept.push(Vec::new(alloc))?;
    }
    for note in notes {
        let Some(answers) = kept.get_mut(note.seat as usize) else {
            return Ok(false);
        };
        if answer(alloc, book, note.call, answers)? != Some(note.what) {
            return Ok(false);
        }
    }
    Ok(true)
}

// What a book alone answers to a seat's call of this number, where the seat has these answers.
fn answer<D: Disk>(
    alloc: Global,
    book: &mut Book<'_, D>,
    call: u64,
    answers: &mut Vec<Answer>,
) -> Result<Option<What>, Memory> {
    Ok(match kind_of(call) {
        Kind::List => {
            *answers = list_answers(alloc, book)?;
            Some(What::Listed)
        }
        Kind::Round => said_of_round(make_round(book, answers.as_slice())),
        Kind::Look => Some(seen(book)),
    })
}

/// The answers to all commands of a book.
pub fn list_answers<D: Disk>(alloc: Global, book: &Book<'_, D>) -> Result<Vec<Answer>, Memory> {
    let mut commands = CommandList::new(alloc);
    book.commands(alloc, &SWITCHES, &mut commands)?;
    answers_to(alloc, commands.as_slice())
}

fn make_round<D: Disk>(book: &mut Book<'_, D>, answers: &[Answer]) -> RoundReply {
    if !book.live() {
        return RoundReply::Memory;
    }
    match book.round(answers) {
        Ok(turn) => RoundReply::Turned(turn),
        Err(fault) => RoundReply::Refused(fault),
    }
}

// What is seen by one who looks for work of all switches.
fn seen<D: Disk>(book: &Book<'_, D>) -> What {
    if !book.chronicle.flying().is_empty() {
        What::Work
    } else if book.finished() {
        What::Finished
    } else {
        What::Held
    }
}
