//! The many calls of one seat.
ghost use Rattle.std.specs.Prelude.{◌≡◌};
ghost use Rattle.order_policy.specs.Answers.{rank_by};
ghost use Rattle.shared_book.specs.Homes.{homes_of};
ghost use Rattle.book_cases.specs.Seats.{HasCalled, MayCall, TakesAny};

use crate::books::{SWITCHES, answers_to};
use crate::histories::{Kind, kind_of, said_of_list, said_of_round, said_of_wake};
use disk_model::Disk;
use fixtures::as_heard;
use shared_book::{BookPass, Listed, Marker, Note, NoteList, SharedBook, What};
use std::alloc::Global;
use std::sync::Wait;
use wire_frames::Answer;

/// How many calls a seat makes.
pub const CALLS: u64 = 50;

// A call of a seat that has these answers, and what it was told, in the words of its note.
fn one_call<D: Disk, M: Marker, R: Wait>(
    rt: &R,
    alloc: Global,
    book: &SharedBook<'_, D, M>,
    pass: BookPass<D, M>,
    kind: Kind,
    answers: &mut Vec<Answer>,
) -> (BookPass<D, M>, Option<What>)
    requires homes { book.now.homes ≡ homes_of M.opening.rollout.problem }
    requires policy { M.opening.policy ≡ rank_by book.now.policy.now.answers }
    requires any { TakesAny M.heard }
    requires may { MayCall book.now.lock M.seats pass.pass pass.calls }
    ensures called { HasCalled book.now.lock pass.pass result.0.pass result.0.calls }
{
    match kind {
        Kind::List => list(rt, alloc, book, pass, answers),
        Kind::Round => round(rt, alloc, book, pass, answers.as_slice()),
        Kind::Look => {
            let (pass, wake) = book.wait_work(rt, pass, &SWITCHES);
            (pass, said_of_wake(wake))
        }
    }
}

// A round with these answers; none is made where memory for them runs out.
fn round<D: Disk, M: Marker, R: Wait>(
    rt: &R,
    alloc: Global,
    book: &SharedBook<'_, D, M>,
    pass: BookPass<D, M>,
    answers: &[Answer],
) -> (BookPass<D, M>, Option<What>)
    requires policy { M.opening.policy ≡ rank_by book.now.policy.now.answers }
    requires any { TakesAny M.heard }
    requires may { MayCall book.now.lock M.seats pass.pass pass.calls }
    ensures called { HasCalled book.now.lock pass.pass result.0.pass result.0.calls }
{
    match as_heard(alloc, answers) {
        Ok(heard) => {
            let (pass, reply) = book.round(rt, pass, heard);
            (pass, said_of_round(reply))
        }
        Err(_) => (pass, None),
    }
}

// Lists all commands. The answers to them come in the place of those that the seat had.
fn list<D: Disk, M: Marker, R: Wait>(
    rt: &R,
    alloc: Global,
    book: &SharedBook<'_, D, M>,
    pass: BookPass<D, M>,
    answers: &mut Vec<Answer>,
) -> (BookPass<D, M>, Option<What>)
    requires may { MayCall book.now.lock M.seats pass.pass pass.calls }
    ensures called { HasCalled book.now.lock pass.pass result.0.pass result.0.calls }
{
    let mut commands = Listed::new(alloc);
    let (pass, reply) = book.commands(rt, alloc, pass, &SWITCHES, &mut commands);
    if let Ok(new) = answers_to(alloc, commands.commands()) {
        *answers = new;
    }
    (pass, said_of_list(reply))
}

/// All calls of a seat, and the notes on them.
pub fn many_calls<D: Disk, M: Marker, R: Wait>(
    rt: &R,
    alloc: Global,
    book: &SharedBook<'_, D, M>,
    mut pass: BookPass<D, M>,
) -> (BookPass<D, M>, NoteList)
    requires homes { book.now.homes ≡ homes_of M.opening.rollout.problem }
    requires policy { M.opening.policy ≡ rank_by book.now.policy.now.answers }
    requires any { TakesAny M.heard }
    requires may { MayCall book.now.lock M.seats pass.pass pass.calls }
    ensures called { HasCalled book.now.lock pass.pass result.0.pass result.0.calls }
{
    let seat = pass.seat();
    let mut answers = Vec::new(alloc);
    let mut told = NoteList::new(alloc);
    for call in 0..CALLS {
        let (after, what) = one_call(rt, alloc, book, pass, kind_of(call), &mut answers);
        pass = after;
        write(&mut told, seat, call, what);
    }
    (pass, told)
}

// Where memory runs out it writes nothing.
fn write(told: &mut NoteList, seat: u32, call: u64, what: Option<What>) {
    if let Some(what) = what {
        let _ = told.push(Note { seat, call, what });
    }
}
