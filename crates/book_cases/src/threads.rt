//! Seats of one book in threads of their own.
ghost use Rattle.std.specs.Prelude.{◌≡◌};
ghost use Rattle.order_policy.specs.Answers.{rank_by};
ghost use Rattle.turn_lock.specs.Passes.{IsFirstPass};
ghost use Rattle.shared_book.specs.Homes.{homes_of};
ghost use Rattle.book_cases.specs.Seats.{AllAreIn, HasCalled, MayCall, TakesAny};

use crate::many::many_calls;
use crate::rows::{Row, Seats, all_calls};
use crate::seats::{Call, SeatReply, make_call};
use disk_model::Disk;
use fixtures::{Job, four_jobs};
use rollout_book::Turn;
use rollout_rules::Op;
use shared_book::{BookPass, CallPass, Marker, NoteList, NotedBook, RoundReply, SharedBook, Wake};
use std::alloc::Global;
use std::process::Abort;
use std::sync::Wait;
use std::thread::Threads;
use turn_lock::Counted;
use wire_frames::Answer;

/// What a seat does in its thread.
#[derive(Clone, Copy)]
pub enum Part {
    /// It makes many calls.
    Calls,
    /// It waits for work of the first switch, which it is told of.
    Waits,
    /// It makes a round of one answer, which begins that work.
    Begins,
}

/// A seat with its part.
#[derive(Drop)]
struct SeatJob<'s, R, B, V: Counted> {
    rt: &'s R,
    alloc: Global,
    book: &'s B,
    pass: CallPass<V>,
    part: Part,
}

/// A seat that came back, and the notes on its many calls.
#[derive(Drop)]
struct Back<V: Counted> {
    pass: CallPass<V>,
    told: NoteList,
}

impl<'s, 'd, R: Abort + Wait, D: Disk, M: Marker> Job
    for SeatJob<'s, R, SharedBook<'d, D, M>, NotedBook<D, M>> {
    type Output = Back<NotedBook<D, M>>;

    ghost may_begin = { λ d. (d.book.now.homes ≡ homes_of M.opening.rollout.problem)
        × (M.opening.policy ≡ rank_by d.book.now.policy.now.answers)
        × TakesAny M.heard
        × MayCall d.book.now.lock M.seats d.pass.pass d.pass.calls };

    ghost may_leave = { λ d back. HasCalled d.book.now.lock d.pass.pass back.pass.pass
        back.pass.calls };

    fn run(self) -> Back<NotedBook<D, M>> {
        let SeatJob {
            rt,
            alloc,
            book,
            pass,
            part,
        } = self;
        match part {
            Part::Calls => called_often(rt, alloc, book, pass),
            Part::Waits => await_work(rt, alloc, book, pass),
            Part::Begins => begin_work(rt, alloc, book, pass),
        }
    }
}

fn called_often<R: Abort + Wait, D: Disk, M: Marker>(
    rt: &R,
    alloc: Global,
    book: &SharedBook<'_, D, M>,
    pass: BookPass<D, M>,
) -> Back<NotedBook<D, M>>
    requires homes { book.now.homes ≡ homes_of M.opening.rollout.problem }
    requires policy { M.opening.policy ≡ rank_by book.now.policy.now.answers }
    requires any { TakesAny M.heard }
    requires may { MayCall book.now.lock M.seats pass.pass pass.calls }
    ensures called { HasCalled book.now.lock pass.pass result.pass.pass result.pass.calls }
{
    let (pass, told) = many_calls(rt, alloc, book, pass);
    Back { pass, told }
}

fn await_work<R: Abort + Wait, D: Disk, M: Marker>(
    rt: &R,
    alloc: Global,
    book: &SharedBook<'_, D, M>,
    pass: BookPass<D, M>,
) -> Back<NotedBook<D, M>>
    requires homes { book.now.homes ≡ homes_of M.opening.rollout.problem }
    requires policy { M.opening.policy ≡ rank_by book.now.policy.now.answers }
    requires any { TakesAny M.heard }
    requires may { MayCall book.now.lock M.seats pass.pass pass.calls }
    ensures called { HasCalled book.now.lock pass.pass result.pass.pass result.pass.calls }
{
    let (pass, told) = make_call(rt, alloc, book, pass, Call::Await(0));
    assert!(rt; told == SeatReply::Awake(Wake::Work(Op { item: 0, number: 1 })));
    let told = NoteList::new(alloc);
    Back { pass, told }
}

// The answer that the work lacked, and what its round does.
const LACKED: Answer = Answer { item: 9, held: 1 };

const BEGAN: Turn = Turn {
    dones: 1,
    begins: 1,
};

fn begin_work<R: Abort + Wait, D: Disk, M: Marker>(
    rt: &R,
    alloc: Global,
    book: &SharedBook<'_, D, M>,
    pass: BookPass<D, M>,
) -> Back<NotedBook<D, M>>
    requires homes { book.now.homes ≡ homes_of M.opening.rollout.problem }
    requires policy { M.opening.policy ≡ rank_by book.now.policy.now.answers }
    requires any { TakesAny M.heard }
    requires may { MayCall book.now.lock M.seats pass.pass pass.calls }
    ensures called { HasCalled book.now.lock pass.pass result.pass.pass result.pass.calls }
{
    let (pass, told) = make_call(rt, alloc, book, pass, Call::Round(Some(LACKED)));
    assert!(rt; told == SeatReply::Round(RoundReply::Turned(BEGAN)));
    let told = NoteList::new(alloc);
    Back { pass, told }
}

/// Two seats make these calls. After them four seats do their parts, each in a thread of its own: the first one
/// this, the others that. All notes on many calls come back.
pub fn four_threads<R: Abort + Threads + Wait + Sync, D: Disk + Drop + Send, M: Marker + Send>(
    rt: &R,
    alloc: Global,
    book: &SharedBook<'_, D, M>,
    pass: BookPass<D, M>,
    rows: &[Row],
    own: Part,
    others: Part,
) -> (BookPass<D, M>, NoteList)
    requires homes { book.now.homes ≡ homes_of M.opening.rollout.problem }
    requires policy { M.opening.policy ≡ rank_by book.now.policy.now.answers }
    requires any { TakesAny M.heard }
    requires may { MayCall book.now.lock M.seats pass.pass pass.calls }
    requires first { IsFirstPass pass.pass }
    requires seats { M.seats ≡ 4 }
    ensures ended { AllAreIn book.now.lock result.0.pass }
{
    let (first, second) = book.split(pass);
    let (first, third) = book.split(first);
    let (first, fourth) = book.split(first);
    let Seats { first, second } = all_calls(rt, alloc, book, Seats { first, second }, rows);
    let (of_two, of_others) = four_parts(
        rt, alloc, book, first, second, third, fourth, own, others,
    );
    let (first, second) = of_two;
    let (third, fourth) = of_others;
    let pass = book.join(
        book.join(book.join(first.pass, second.pass), third.pass),
        fourth.pass,
    );
    let told = both(both(first.told, &second.told), &third.told);
    (pass, both(told, &fourth.told))
}

fn four_parts<R: Abort + Threads + Wait + Sync, D: Disk + Drop + Send, M: Marker + Send>(
    rt: &R,
    alloc: Global,
    book: &SharedBook<'_, D, M>,
    first: BookPass<D, M>,
    second: BookPass<D, M>,
    third: BookPass<D, M>,
    fourth: BookPass<D, M>,
    own: Part,
    others: Part,
) -> (
    (Back<NotedBook<D, M>>, Back<NotedBook<D, M>>),
    (Back<NotedBook<D, M>>, Back<NotedBook<D, M>>),
)
    requires homes { book.now.homes ≡ homes_of M.opening.rollout.problem }
    requires policy { M.opening.policy ≡ rank_by book.now.policy.now.answers }
    requires any { TakesAny M.heard }
    requires first { MayCall book.now.lock M.seats first.pass first.calls }
    requires second { MayCall book.now.lock M.seats second.pass second.calls }
    requires third { MayCall book.now.lock M.seats third.pass third.calls }
    requires fourth { MayCall book.now.lock M.seats fourth.pass fourth.calls }
    ensures first { HasCalled book.now.lock first.pass result.0.0.pass.pass result.0.0.pass.calls }
    ensures second { HasCalled book.now.lock second.pass result.0.1.pass.pass
        result.0.1.pass.calls }
    ensures third { HasCalled book.now.lock third.pass result.1.0.pass.pass result.1.0.pass.calls }
    ensures fourth { HasCalled book.now.lock fourth.pass result.1.1.pass.pass
        result.1.1.pass.calls }
{
    let first = SeatJob {
        rt,
        alloc,
        book,
        pass: first,
        part: own,
    };
    let second = SeatJob {
        rt,
        alloc,
        book,
        pass: second,
        part: others,
    };
    let third = SeatJob {
        rt,
        alloc,
        book,
        pass: third,
        part: others,
    };
    let fourth = SeatJob {
        rt,
        alloc,
        book,
        pass: fourth,
        part: others,
    };
    four_jobs(rt, first, second, third, fourth)
}

// The notes of both; where memory runs out those of the one.
fn both(told: NoteList, other: &NoteList) -> NoteList {
    let mut told = told;
    let _ = told.extend_from_slice(other.as_slice());
    told
}
