//! A wait for work: of two seats of a shared book in threads of their own one sleeps, until after a while a round
//! of the other begins what it waits for. Standard input is a document.
ghost use Rattle.std.specs.Prelude.{◌≡◌, [], IfSome};
ghost use Rattle.rollout_rules.specs.History.{from_nothing};
ghost use Rattle.wan_edge.specs.Frames.{Answer};
ghost use Rattle.order_policy.specs.Answers.{rank_by};
ghost use Rattle.rollout_book.specs.Lists.{IsKeptList};
ghost use Rattle.turn_lock.specs.Passes.{IsFirstPass, IsPassOf, IsSamePass, out_of, seat_of_pass};
ghost use Rattle.shared_book.specs.Calls.{IsCounted};
ghost use Rattle.shared_book.specs.Homes.{homes_of};
ghost use Rattle.shared_book.specs.Images.{StandsSo};
ghost use Rattle.shared_book.specs.Opened.{IsOpened, IsOpenedOn, opening_of};

use crate::rollout;
use anyhow::{Result, bail};
use dependency_graph::Graph;
use disk_model::{Disk, MemoryDisk};
use fixtures::{Job, as_heard, open_book, two_jobs};
use intent_journal::digest_of;
use order_policy::Policy;
use rollout_book::Book;
use shared_book::{BookPass, CallPass, Marker, NotedBook, SharedBook, Wake};
use std::alloc::Global;
use std::marker::Brand;
use std::rt::Clock;
use std::sync::Wait;
use std::thread::{Threads, sleep};
use std::time::Duration;
use turn_lock::Counted;
use wan_edge::{Nums8, Turns};
use wan_model::OpView;
use wire_frames::Answer;

// The flow of the first switch waits for the entries of its second tunnel. Those at its ends come at once, and that
// between them after a while.
const EARLY: [Answer; 2] = [Answer { item: 3, held: 1 }, Answer { item: 5, held: 1 }];

const LATE: [Answer; 1] = [Answer { item: 4, held: 1 }];

const HOME: u32 = 0;

/// What a seat does before it waits for work of the first switch.
#[derive(Clone, Copy)]
enum Before {
    /// Nothing.
    Nothing,
    /// After so many milliseconds it makes the round that begins that work.
    Round(u32),
}

/// A seat with what it does.
#[derive(Drop)]
struct WaitJob<'s, R, B, V: Counted> {
    rt: &'s R,
    alloc: Global,
    book: &'s B,
    pass: CallPass<V>,
    before: Before,
}

/// A seat that came back, and what it was told.
#[derive(Drop)]
struct Woken<V: Counted> {
    pass: CallPass<V>,
    wake: Wake,
}

impl<'s, 'd, R: Wait + Clock, D: Disk, M: Marker> Job
    for WaitJob<'s, R, SharedBook<'d, D, M>, NotedBook<D, M>> {
    type Output = Woken<NotedBook<D, M>>;

    ghost may_begin = { λ d. (d.book.now.homes ≡ homes_of M.opening.rollout.problem)
        × (M.opening.policy ≡ rank_by d.book.now.policy.now.answers)
        × ((answer : Answer) → M.heard answer)
        × IsPassOf d.book.now.lock d.pass.pass
        × IsCounted d.pass.calls d.pass.pass };

    ghost may_leave = { λ d woken. IsPassOf d.book.now.lock woken.pass.pass
        × IsCounted woken.pass.calls woken.pass.pass
        × IsSamePass d.pass.pass woken.pass.pass };

    fn run(self) -> Woken<NotedBook<D, M>> {
        let WaitJob {
            rt,
            alloc,
            book,
            pass,
            before,
        } = self;
        let pass = match before {
            Before::Nothing => pass,
            Before::Round(milliseconds) => round_after(rt, alloc, book, pass, milliseconds),
        };
        let (pass, wake) = book.wait_work(rt, pass, &[HOME]);
        Woken { pass, wake }
    }
}

fn round_after<R: Wait + Clock, D: Disk, M: Marker>(
    rt: &R,
    alloc: Global,
    book: &SharedBook<'_, D, M>,
    pass: BookPass<D, M>,
    milliseconds: u32,
) -> BookPass<D, M>
    requires policy { M.opening.policy ≡ rank_by book.now.policy.now.answers }
    requires any { (answer : Answer) → M.heard answer }
    requires lock { IsPassOf book.now.lock pass.pass }
    requires calls { IsCounted pass.calls pass.pass }
    ensures lock { IsPassOf book.now.lock result.pass }
    ensures calls { IsCounted result.calls result.pass }
    ensures same { IsSamePass pass.pass result.pass }
{
    sleep(rt, Duration::from_millis(u64::from(milliseconds)));
    round_with(rt, alloc, book, pass, &LATE)
}

// A round with these answers; none is made where memory for them runs out.
fn round_with<R: Wait, D: Disk, M: Marker>(
    rt: &R,
    alloc: Global,
    book: &SharedBook<'_, D, M>,
    pass: BookPass<D, M>,
    answers: &[Answer],
) -> BookPass<D, M>
    requires policy { M.opening.policy ≡ rank_by book.now.policy.now.answers }
    requires any { (answer : Answer) → M.heard answer }
    requires lock { IsPassOf book.now.lock pass.pass }
    requires calls { IsCounted pass.calls pass.pass }
    ensures lock { IsPassOf book.now.lock result.pass }
    ensures calls { IsCounted result.calls result.pass }
    ensures same { IsSamePass pass.pass result.pass }
{
    match as_heard(alloc, answers) {
        Ok(heard) => book.round(rt, pass, heard).0,
        Err(_) => pass,
    }
}

/// Prints what the waiting seat was told.
pub(crate) fn measure<R: Threads + Wait + Sync + Clock + AllocGlobal + Print>(
    rt: &R,
    document: Vec<u8>,
    milliseconds: u32,
) -> Result<()> {
    let wake = wake_ranked(rt, rt.alloc(), document.as_slice(), milliseconds);
    drop(document);
    let wake = wake?;
    println!(rt; "{wake:?}")?;
    Ok(())
}

// The policy ranks all alike.
fn wake_ranked<R: Threads + Wait + Sync + Clock>(
    rt: &R,
    alloc: Global,
    document: &[u8],
    milliseconds: u32,
) -> Result<Wake> {
    let alike: Box<dyn Fn(OpView) -> u64 + Send + Sync> = Box::new(
        alloc,
        |_view: OpView| -> u64
            ensures { result ≡ 0 }
        { 0 },
    )?;
    let policy = Policy::new(alike);
    wake_by(rt, alloc, document, &policy, milliseconds)
}

// The same by a policy.
fn wake_by<R: Threads + Wait + Sync + Clock>(
    rt: &R,
    alloc: Global,
    document: &[u8],
    policy: &Policy,
    milliseconds: u32,
) -> Result<Wake> {
    wake_over(
        rt,
        alloc,
        rollout::graph(alloc, document)?,
        policy,
        milliseconds,
    )
}

fn wake_over<R: Threads + Wait + Sync + Clock>(
    rt: &R,
    alloc: Global,
    graph: Graph,
    policy: &Policy,
    milliseconds: u32,
) -> Result<Wake>
    requires empty { graph.history ≡ from_nothing graph.rollout.problem [] }
{
    let disk = MemoryDisk::new(alloc, Nums8::new(alloc), Turns::new(alloc));
    wake_from(rt, alloc, graph, policy, disk, milliseconds)
}

fn wake_from<R: Threads + Wait + Sync + Clock, D: Disk + Drop + Send>(
    rt: &R,
    alloc: Global,
    graph: Graph,
    policy: &Policy,
    disk: D,
    milliseconds: u32,
) -> Result<Wake>
    requires empty { graph.history ≡ from_nothing graph.rollout.problem [] }
{
    match open_book(alloc, graph, &digest_of("problem", "plan", 0), policy, disk) {
        Ok(book) => Ok(wake_of(rt, alloc, book, milliseconds)),
        Err(unopened) => {
            drop(unopened);
            bail!("no book is open")
        }
    }
}

fn wake_of<R: Threads + Wait + Sync + Clock, D: Disk + Drop + Send>(
    rt: &R,
    alloc: Global,
    book: Book<'_, D>,
    milliseconds: u32,
) -> Wake
    requires opened { IsOpened (opening_of book.chronicle (rank_by book.policy.now.answers))
        book.chronicle }
    requires has { IfSome (D.told book.chronicle.disk).bytes
        (IsKeptList book.chronicle.history.start book.chronicle.entries
        (D.told book.chronicle.disk).may_leave) }
{
    let (book, wake) = wait_opened(rt, alloc, book, milliseconds);
    drop(book);
    wake
}

fn wait_opened<'d, R: Threads + Wait + Sync + Clock, D: Disk + Drop + Send>(
    rt: &R,
    alloc: Global,
    book: Book<'d, D>,
    milliseconds: u32,
) -> (Book<'d, D>, Wake)
    requires opened { IsOpened (opening_of book.chronicle (rank_by book.policy.now.answers))
        book.chronicle }
    requires has { IfSome (D.told book.chronicle.disk).bytes
        (IsKeptList book.chronicle.history.start book.chronicle.entries
        (D.told book.chronicle.disk).may_leave) }
{
    wait_named::<R, D, Brand>(rt, alloc, book, milliseconds)
}

// Two seats share the book, under the name of its opening.
fn wait_named<'d, R: Threads + Wait + Sync + Clock, D: Disk + Drop + Send, M: Marker + Send>(
    rt: &R,
    alloc: Global,
    book: Book<'d, D>,
    milliseconds: u32,
) -> (Book<'d, D>, Wake)
    requires opened { IsOpenedOn D.told M.opening M.moment M.faults book.chronicle }
    requires stood { StandsSo M.stood (D.told book.chronicle.disk) }
    requires policy { M.opening.policy ≡ rank_by book.policy.now.answers }
    requires any { (answer : Answer) → M.heard answer }
    requires seats { M.seats ≡ 2 }
{
    match SharedBook::<D, M>::new(alloc, book, 2) {
        Ok((shared, pass)) => {
            let (pass, wake) = wait_shared(rt, alloc, &shared, pass, milliseconds);
            let (book, notes, _halt) = shared.close(pass);
            drop(notes);
            (book, wake)
        }
        Err(book) => (book, Wake::Memory),
    }
}

fn wait_shared<R: Threads + Wait + Sync + Clock, D: Disk + Drop + Send, M: Marker + Send>(
    rt: &R,
    alloc: Global,
    book: &SharedBook<'_, D, M>,
    pass: BookPass<D, M>,
    milliseconds: u32,
) -> (BookPass<D, M>, Wake)
    requires homes { book.now.homes ≡ homes_of M.opening.rollout.problem }
    requires policy { M.opening.policy ≡ rank_by book.now.policy.now.answers }
    requires any { (answer : Answer) → M.heard answer }
    requires lock { IsPassOf book.now.lock pass.pass }
    requires calls { IsCounted pass.calls pass.pass }
    requires first { IsFirstPass pass.pass }
    requires seats { M.seats ≡ 2 }
    ensures lock { IsPassOf book.now.lock result.0.pass }
    ensures first { seat_of_pass result.0.pass ≡ 0 }
    ensures all_in { out_of result.0.pass ≡ 0 }
{
    let (first, second) = book.split(pass);
    let first = entries_begun(rt, alloc, book, first);
    let (first, second) = both_woken(rt, alloc, book, first, second, milliseconds);
    (book.join(first.pass, second.pass), second.wake)
}

// Rounds after which only the late entry is in flight.
fn entries_begun<R: Wait, D: Disk, M: Marker>(
    rt: &R,
    alloc: Global,
    book: &SharedBook<'_, D, M>,
    pass: BookPass<D, M>,
) -> BookPass<D, M>
    requires policy { M.opening.policy ≡ rank_by book.now.policy.now.answers }
    requires any { (answer : Answer) → M.heard answer }
    requires lock { IsPassOf book.now.lock pass.pass }
    requires calls { IsCounted pass.calls pass.pass }
    ensures lock { IsPassOf book.now.lock result.pass }
    ensures calls { IsCounted result.calls result.pass }
    ensures same { IsSamePass pass.pass result.pass }
{
    let pass = round_with(rt, alloc, book, pass, &[]);
    round_with(rt, alloc, book, pass, &EARLY)
}

// The second waits while the first pauses.
fn both_woken<R: Threads + Wait + Sync + Clock, D: Disk + Drop + Send, M: Marker + Send>(
    rt: &R,
    alloc: Global,
    book: &SharedBook<'_, D, M>,
    first: BookPass<D, M>,
    second: BookPass<D, M>,
    milliseconds: u32,
) -> (Woken<NotedBook<D, M>>, Woken<NotedBook<D, M>>)
    requires homes { book.now.homes ≡ homes_of M.opening.rollout.problem }
    requires policy { M.opening.policy ≡ rank_by book.now.policy.now.answers }
    requires any { (answer : Answer) → M.heard answer }
    requires first { IsPassOf book.now.lock first.pass × IsCounted first.calls first.pass }
    requires second { IsPassOf book.now.lock second.pass × IsCounted second.calls second.pass }
    ensures first { IsPassOf book.now.lock result.0.pass.pass
        × IsCounted result.0.pass.calls result.0.pass.pass
        × IsSamePass first.pass result.0.pass.pass }
    ensures second { IsPassOf book.now.lock result.1.pass.pass }
{
    let first = WaitJob {
        rt,
        alloc,
        book,
        pass: first,
        before: Before::Round(milliseconds),
    };
    let second = WaitJob {
        rt,
        alloc,
        book,
        pass: second,
        before: Before::Nothing,
    };
    two_jobs(rt, first, second)
}
