//! Two seats at one book, in one thread: what each is told call by call, and the notes that are left.
ghost use Rattle.std.specs.Prelude.{◌≡◌, ◌≤◌};
ghost use Rattle.order_policy.specs.Answers.{rank_by};
ghost use Rattle.turn_lock.specs.Passes.{IsFirstPass};
ghost use Rattle.shared_book.specs.Homes.{homes_of};
ghost use Rattle.book_cases.specs.Seats.{AllAreIn, HasCalled, MayCall, TakesAny};

use crate::books::{CALLS_TO_OPEN, one};
use crate::seats::{Call, SeatReply, make_call};
use crate::sharing::{ALIKE, HELD, Task, notes_over};
use disk_model::Disk;
use rollout_book::{BookFault, Turn};
use rollout_rules::Op;
use shared_book::{
    BookPass, CallPass, Cause, Halt, ListReply, Marker, Note, NoteList, NotedBook, RoundReply,
    SharedBook, Wake, What,
};
use std::alloc::Global;
use std::process::Abort;
use std::sync::Wait;
use std::test::Fail;
use std::thread::Threads;
use turn_lock::Counted;
use wire_frames::Answer;

/// A call of one of two seats, and what it is told.
#[derive(Clone, Copy)]
pub struct Row {
    pub seat: u32,
    pub call: Call,
    pub told: SeatReply,
}

/// The passes of two seats.
#[derive(Drop)]
pub struct Seats<V: Counted> {
    pub first: CallPass<V>,
    pub second: CallPass<V>,
}

/// Two seats make these calls, each of which is told what its row says.
pub fn two_seats<D: Disk, M: Marker, R: Abort + Wait>(
    rt: &R,
    alloc: Global,
    book: &SharedBook<'_, D, M>,
    pass: BookPass<D, M>,
    rows: &[Row],
) -> BookPass<D, M>
    requires homes { book.now.homes ≡ homes_of M.opening.rollout.problem }
    requires policy { M.opening.policy ≡ rank_by book.now.policy.now.answers }
    requires any { TakesAny M.heard }
    requires may { MayCall book.now.lock M.seats pass.pass pass.calls }
    requires first { IsFirstPass pass.pass }
    requires seats { M.seats ≡ 4 }
    ensures ended { AllAreIn book.now.lock result.pass }
{
    let (first, second) = book.split(pass);
    let Seats { first, second } = all_calls(rt, alloc, book, Seats { first, second }, rows);
    book.join(first, second)
}

// A call of one of the seats.
fn one_call<D: Disk, M: Marker, R: Wait>(
    rt: &R,
    alloc: Global,
    book: &SharedBook<'_, D, M>,
    seats: Seats<NotedBook<D, M>>,
    row: Row,
) -> (Seats<NotedBook<D, M>>, SeatReply)
    requires homes { book.now.homes ≡ homes_of M.opening.rollout.problem }
    requires policy { M.opening.policy ≡ rank_by book.now.policy.now.answers }
    requires any { TakesAny M.heard }
    requires first { MayCall book.now.lock M.seats seats.first.pass seats.first.calls }
    requires second { MayCall book.now.lock M.seats seats.second.pass seats.second.calls }
    ensures first { HasCalled book.now.lock seats.first.pass result.0.first.pass
        result.0.first.calls }
    ensures second { HasCalled book.now.lock seats.second.pass result.0.second.pass
        result.0.second.calls }
{
    let Seats { first, second } = seats;
    if row.seat == 0 {
        let (first, told) = make_call(rt, alloc, book, first, row.call);
        (Seats { first, second }, told)
    } else {
        let (second, told) = make_call(rt, alloc, book, second, row.call);
        (Seats { first, second }, told)
    }
}

/// All calls, each of which is told what its row says.
pub fn all_calls<D: Disk, M: Marker, R: Abort + Wait>(
    rt: &R,
    alloc: Global,
    book: &SharedBook<'_, D, M>,
    mut seats: Seats<NotedBook<D, M>>,
    rows: &[Row],
) -> Seats<NotedBook<D, M>>
    requires homes { book.now.homes ≡ homes_of M.opening.rollout.problem }
    requires policy { M.opening.policy ≡ rank_by book.now.policy.now.answers }
    requires any { TakesAny M.heard }
    requires first { MayCall book.now.lock M.seats seats.first.pass seats.first.calls }
    requires second { MayCall book.now.lock M.seats seats.second.pass seats.second.calls }
    ensures first { HasCalled book.now.lock seats.first.pass result.first.pass result.first.calls }
    ensures second { HasCalled book.now.lock seats.second.pass result.second.pass
        result.second.calls }
{
    for row in rows {
        let (after, told) = one_call(rt, alloc, book, seats, *row);
        assert!(rt; told == row.told);
        seats = after;
    }
    seats
}

const STOPPED: Halt = Halt {
    seat: 1,
    call: 1,
    cause: Cause::Port(0),
};

// The second seat stops for a port.
fn a_stop() -> [Row; 5] {
    [
        Row {
            seat: 0,
            call: Call::Round(None),
            told: SeatReply::Round(RoundReply::Turned(Turn {
                dones: 0,
                begins: 1,
            })),
        },
        Row {
            seat: 1,
            call: Call::List(0),
            told: SeatReply::List(ListReply::Listed, 1),
        },
        Row {
            seat: 1,
            call: Call::Stop(Cause::Port(0)),
            told: SeatReply::Halt(STOPPED),
        },
        Row {
            seat: 0,
            call: Call::Round(None),
            told: SeatReply::Round(RoundReply::Stopped(STOPPED)),
        },
        Row {
            seat: 1,
            call: Call::Stop(Cause::Memory),
            told: SeatReply::Halt(STOPPED),
        },
    ]
}

fn notes_of_a_stop() -> [Note; 4] {
    [
        Note {
            seat: 0,
            call: 0,
            what: What::Turned {
                dones: 0,
                begins: 1,
            },
        },
        Note {
            seat: 1,
            call: 0,
            what: What::Listed,
        },
        Note {
            seat: 1,
            call: 1,
            what: What::Stop(Cause::Port(0)),
        },
        Note {
            seat: 0,
            call: 1,
            what: What::Stopped,
        },
    ]
}

// The notes that two seats leave which make these calls of the book of one operation.
fn notes_of<R: Abort + Threads + Wait + Sync>(
    rt: &R,
    alloc: Global,
    rank: u64,
    fails: &[u64],
    rows: &[Row],
) -> Result<NoteList, Fail>
    requires { rank ≤ 4294967296 }
{
    notes_over(rt, alloc, one(), rank, fails, Task::Rows(rows))
}

const FAILED: Halt = Halt {
    seat: 0,
    call: 0,
    cause: Cause::Disk,
};

// The disk fails in the first round.
fn a_failure() -> [Row; 5] {
    [
        Row {
            seat: 0,
            call: Call::Round(None),
            told: SeatReply::Round(RoundReply::Refused(BookFault::Disk)),
        },
        Row {
            seat: 1,
            call: Call::List(0),
            told: SeatReply::List(ListReply::Stopped(FAILED), 0),
        },
        Row {
            seat: 1,
            call: Call::Await(0),
            told: SeatReply::Awake(Wake::Stopped(FAILED)),
        },
        Row {
            seat: 1,
            call: Call::Stop(Cause::Port(0)),
            told: SeatReply::Halt(FAILED),
        },
        Row {
            seat: 0,
            call: Call::Round(None),
            told: SeatReply::Round(RoundReply::Stopped(FAILED)),
        },
    ]
}

// One seat begins, waits, answers and waits again.
fn an_end() -> [Row; 5] {
    [
        Row {
            seat: 1,
            call: Call::Round(None),
            told: SeatReply::Round(RoundReply::Turned(Turn {
                dones: 0,
                begins: 1,
            })),
        },
        Row {
            seat: 0,
            call: Call::Await(0),
            told: SeatReply::Awake(Wake::Work(Op { item: 0, number: 1 })),
        },
        Row {
            seat: 0,
            call: Call::Round(Some(Answer { item: 0, held: 1 })),
            told: SeatReply::Round(RoundReply::Turned(Turn {
                dones: 1,
                begins: 0,
            })),
        },
        Row {
            seat: 0,
            call: Call::Await(0),
            told: SeatReply::Awake(Wake::Finished),
        },
        Row {
            seat: 1,
            call: Call::Await(2),
            told: SeatReply::Awake(Wake::Finished),
        },
    ]
}

const ALIEN: Halt = Halt {
    seat: 0,
    call: 2,
    cause: Cause::Above {
        item: 0,
        held: 1,
        begun: 0,
    },
};

// Nothing may begin, so an answer that tells of an operation is alien.
fn a_hold() -> [Row; 5] {
    [
        Row {
            seat: 0,
            call: Call::Round(None),
            told: SeatReply::Round(RoundReply::Turned(Turn {
                dones: 0,
                begins: 0,
            })),
        },
        Row {
            seat: 0,
            call: Call::Await(0),
            told: SeatReply::Awake(Wake::Held),
        },
        Row {
            seat: 0,
            call: Call::Round(Some(Answer { item: 0, held: 1 })),
            told: SeatReply::Round(RoundReply::Refused(BookFault::Alien {
                item: 0,
                held: 1,
                begun: 0,
            })),
        },
        Row {
            seat: 0,
            call: Call::Await(0),
            told: SeatReply::Awake(Wake::Stopped(ALIEN)),
        },
        Row {
            seat: 1,
            call: Call::List(0),
            told: SeatReply::List(ListReply::Stopped(ALIEN), 0),
        },
    ]
}

// The first seat asks for the switch of an item.
fn asks(item: u32, switch: Option<u32>) -> Row {
    Row {
        seat: 0,
        call: Call::Home(item),
        told: SeatReply::Home(switch),
    }
}

// The flow belongs to the first switch on its paths, A; the entries to their own, A and B, and then A, C and B.
fn homes() -> [Row; 7] {
    [
        asks(0, Some(0)),
        asks(1, Some(0)),
        asks(2, Some(1)),
        asks(3, Some(0)),
        asks(4, Some(2)),
        asks(5, Some(1)),
        asks(6, None),
    ]
}

// Whether two seats are told what these rows say, and as many notes are made.
fn are_noted<R: Abort + Threads + Wait + Sync>(
    rt: &R,
    alloc: Global,
    rank: u64,
    fails: &[u64],
    rows: &[Row],
) -> Result<bool, Fail>
    requires { rank ≤ 4294967296 }
{
    let notes = notes_of(rt, alloc, rank, fails, rows)?;
    Ok(notes.as_slice().len() == rows.len())
}

// Whether they leave these notes.
fn leave<R: Abort + Threads + Wait + Sync>(
    rt: &R,
    alloc: Global,
    rows: &[Row],
    wanted: &[Note],
) -> Result<bool, Fail> {
    let notes = notes_of(rt, alloc, ALIKE, &[], rows)?;
    Ok(notes.as_slice() == wanted)
}

// A stop of one seat is told to the other, and so is a disk that fails in a round. Who waits is told of work and then of the
// end, that all is held, and of an alien answer. Each item belongs to a switch, and of that no note is made.
#[test]
fn two_seats_are_told_what_their_rows_say(rt: HostRuntime) -> Result<(), Fail> {
    assert!(rt; leave(&rt, rt.alloc(), &a_stop(), &notes_of_a_stop())?);
    assert!(rt; are_noted(&rt, rt.alloc(), ALIKE, &[CALLS_TO_OPEN], &a_failure())?);
    assert!(rt; are_noted(&rt, rt.alloc(), ALIKE, &[], &an_end())?);
    assert!(rt; are_noted(&rt, rt.alloc(), HELD, &[], &a_hold())?);
    assert!(rt; leave(&rt, rt.alloc(), &homes(), &[])?);
    Ok(())
}
