//! The calls of a seat, one by one.
ghost use Rattle.std.specs.Prelude.{◌≡◌};
ghost use Rattle.order_policy.specs.Answers.{rank_by};
ghost use Rattle.shared_book.specs.Homes.{homes_of};
ghost use Rattle.book_cases.specs.Seats.{HasCalled, MayCall, TakesAny};

use disk_model::Disk;
use fixtures::as_heard;
use shared_book::{BookPass, Cause, Halt, ListReply, Listed, Marker, RoundReply, SharedBook, Wake};
use std::alloc::Global;
use std::sync::Wait;
use wire_frames::Answer;

/// A call of a seat: a round with at most one answer, the listing of a switch's commands, waiting for work of
/// a switch, asking that all stop, and asking for the switch of an item, of which no note is made.
#[derive(Clone, Copy)]
pub enum Call {
    Round(Option<Answer>),
    List(u32),
    Await(u32),
    Stop(Cause),
    Home(u32),
}

/// What a call was told, and of a listing how many commands came.
#[derive(Clone, Copy, PartialEq, Eq)]
pub enum SeatReply {
    Round(RoundReply),
    List(ListReply, usize),
    Awake(Wake),
    Halt(Halt),
    Home(Option<u32>),
}

/// Makes a call.
pub fn make_call<D: Disk, M: Marker, R: Wait>(
    rt: &R,
    alloc: Global,
    book: &SharedBook<'_, D, M>,
    pass: BookPass<D, M>,
    call: Call,
) -> (BookPass<D, M>, SeatReply)
    requires homes { book.now.homes ≡ homes_of M.opening.rollout.problem }
    requires policy { M.opening.policy ≡ rank_by book.now.policy.now.answers }
    requires any { TakesAny M.heard }
    requires may { MayCall book.now.lock M.seats pass.pass pass.calls }
    ensures called { HasCalled book.now.lock pass.pass result.0.pass result.0.calls }
{
    match call {
        Call::Round(answer) => round(rt, alloc, book, pass, answer),
        Call::List(switch) => list(rt, alloc, book, pass, switch),
        Call::Await(switch) => await_work(rt, book, pass, switch),
        Call::Stop(cause) => stop(rt, book, pass, cause),
        Call::Home(item) => home(book, pass, item),
    }
}

// Without memory for its answer no round is made.
fn round<D: Disk, M: Marker, R: Wait>(
    rt: &R,
    alloc: Global,
    book: &SharedBook<'_, D, M>,
    pass: BookPass<D, M>,
    answer: Option<Answer>,
) -> (BookPass<D, M>, SeatReply)
    requires policy { M.opening.policy ≡ rank_by book.now.policy.now.answers }
    requires any { TakesAny M.heard }
    requires may { MayCall book.now.lock M.seats pass.pass pass.calls }
    ensures called { HasCalled book.now.lock pass.pass result.0.pass result.0.calls }
{
    let heard = match answer {
        Some(answer) => as_heard(alloc, &[answer]),
        None => as_heard(alloc, &[]),
    };
    match heard {
        Ok(heard) => {
            let (pass, reply) = book.round(rt, pass, heard);
            (pass, SeatReply::Round(reply))
        }
        Err(_) => (pass, SeatReply::Round(RoundReply::Memory)),
    }
}

fn list<D: Disk, M: Marker, R: Wait>(
    rt: &R,
    alloc: Global,
    book: &SharedBook<'_, D, M>,
    pass: BookPass<D, M>,
    switch: u32,
) -> (BookPass<D, M>, SeatReply)
    requires may { MayCall book.now.lock M.seats pass.pass pass.calls }
    ensures called { HasCalled book.now.lock pass.pass result.0.pass result.0.calls }
{
    let mut commands = Listed::new(alloc);
    let (pass, reply) = book.commands(rt, alloc, pass, &[switch], &mut commands);
    (pass, SeatReply::List(reply, commands.commands().len()))
}

fn await_work<D: Disk, M: Marker, R: Wait>(
    rt: &R,
    book: &SharedBook<'_, D, M>,
    pass: BookPass<D, M>,
    switch: u32,
) -> (BookPass<D, M>, SeatReply)
    requires homes { book.now.homes ≡ homes_of M.opening.rollout.problem }
    requires may { MayCall book.now.lock M.seats pass.pass pass.calls }
    ensures called { HasCalled book.now.lock pass.pass result.0.pass result.0.calls }
{
    let (pass, wake) = book.wait_work(rt, pass, &[switch]);
    (pass, SeatReply::Awake(wake))
}

fn stop<D: Disk, M: Marker, R: Wait>(
    rt: &R,
    book: &SharedBook<'_, D, M>,
    pass: BookPass<D, M>,
    cause: Cause,
) -> (BookPass<D, M>, SeatReply)
    requires may { MayCall book.now.lock M.seats pass.pass pass.calls }
    ensures called { HasCalled book.now.lock pass.pass result.0.pass result.0.calls }
{
    let (pass, halt) = book.stop(rt, pass, cause);
    (pass, SeatReply::Halt(halt))
}

fn home<D: Disk, M: Marker>(
    book: &SharedBook<'_, D, M>,
    pass: BookPass<D, M>,
    item: u32,
) -> (BookPass<D, M>, SeatReply)
    requires homes { book.now.homes ≡ homes_of M.opening.rollout.problem }
    requires may { MayCall book.now.lock M.seats pass.pass pass.calls }
    ensures called { HasCalled book.now.lock pass.pass result.0.pass result.0.calls }
{
    let switch = book.home(item);
    (pass, SeatReply::Home(switch))
}
