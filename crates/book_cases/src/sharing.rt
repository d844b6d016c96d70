//! A book that is opened, shared by seats, closed and taken apart.
ghost use Rattle.std.specs.Prelude.{◌≡◌, ◌≤◌, [], IfSome};
ghost use Rattle.rollout_rules.specs.History.{from_nothing};
ghost use Rattle.order_policy.specs.Answers.{rank_by};
ghost use Rattle.rollout_book.specs.Lists.{IsKeptList};
ghost use Rattle.turn_lock.specs.Passes.{IsFirstPass};
ghost use Rattle.shared_book.specs.Homes.{homes_of};
ghost use Rattle.shared_book.specs.Images.{StandsSo};
ghost use Rattle.shared_book.specs.Opened.{IsOpened, IsOpenedOn, opening_of};
ghost use Rattle.book_cases.specs.Seats.{AllAreIn, MayCall, TakesAny};

use crate::books::{digest, disk_behind, graph_of};
use crate::rows::{Row, two_seats};
use crate::threads::{Part, four_threads};
use dependency_graph::Graph;
use disk_model::Disk;
use fixtures::{disk_of, open_book};
use intent_journal::Unopened;
use order_policy::Policy;
use rollout_book::Book;
use rollout_rules::OpView;
use shared_book::{BookPass, Halt, Marker, NoteList, SharedBook};
use std::alloc::Global;
use std::marker::Brand;
use std::process::Abort;
use std::sync::Wait;
use std::test::Fail;
use std::thread::Threads;

/// What ranks all operations alike, and what holds all back.
pub const ALIKE: u64 = 0;

pub const HELD: u64 = 4_294_967_296;

/// How many seats a book has.
pub const SEATS: u32 = 4;

/// What seats do with a book that they share.
#[derive(Clone, Copy)]
pub enum Task<'a> {
    /// Two seats make these calls in one thread.
    Rows(&'a [Row]),
    /// After these calls each of four seats does its part in a thread of its own: the first one this, the
    /// others that.
    Threads(&'a [Row], Part, Part),
}

/// What is left of a book that was shared: the book, what a crowd was told, the notes, and the first stop.
struct Left<'d, D: Disk> {
    book: Book<'d, D>,
    told: NoteList,
    notes: NoteList,
    halt: Option<Halt>,
}

/// What came of a book that was to be shared: whether it was opened, what a crowd was told, the notes, the
/// first stop, whether every operation is settled, and the disk.
#[derive(Drop)]
pub struct Done<D> {
    pub opened: bool,
    pub told: NoteList,
    pub notes: NoteList,
    pub halt: Option<Halt>,
    pub finished: bool,
    pub disk: D,
}

// What the seats do. A crowd says what it was told.
fn work<R: Abort + Threads + Wait + Sync, D: Disk + Drop + Send, M: Marker + Send>(
    rt: &R,
    alloc: Global,
    book: &SharedBook<'_, D, M>,
    pass: BookPass<D, M>,
    task: Task<'_>,
) -> (BookPass<D, M>, NoteList)
    requires homes { book.now.homes ≡ homes_of M.opening.rollout.problem }
    requires policy { M.opening.policy ≡ rank_by book.now.policy.now.answers }
    requires any { TakesAny M.heard }
    requires may { MayCall book.now.lock M.seats pass.pass pass.calls }
    requires first { IsFirstPass pass.pass }
    requires seats { M.seats ≡ 4 }
    ensures ended { AllAreIn book.now.lock result.0.pass }
{
    match task {
        Task::Rows(rows) => (two_seats(rt, alloc, book, pass, rows), NoteList::new(alloc)),
        Task::Threads(rows, own, others) => four_threads(rt, alloc, book, pass, rows, own, others),
    }
}

// The seats share a book, under the name of its opening. Without memory they do nothing.
fn share_named<'d, R: Abort + Threads + Wait + Sync, D: Disk + Drop + Send, M: Marker + Send>(
    rt: &R,
    alloc: Global,
    book: Book<'d, D>,
    task: Task<'_>,
) -> Left<'d, D>
    requires opened { IsOpenedOn D.told M.opening M.moment M.faults book.chronicle }
    requires stood { StandsSo M.stood (D.told book.chronicle.disk) }
    requires policy { M.opening.policy ≡ rank_by book.policy.now.answers }
    requires any { TakesAny M.heard }
    requires seats { M.seats ≡ 4 }
{
    match SharedBook::<D, M>::new(alloc, book, SEATS) {
        Ok((shared, pass)) => {
            let (pass, told) = work(rt, alloc, &shared, pass, task);
            let (book, notes, halt) = shared.close(pass);
            Left {
                book,
                told,
                notes,
                halt,
            }
        }
        Err(book) => Left {
            book,
            told: NoteList::new(alloc),
            notes: NoteList::new(alloc),
            halt: None,
        },
    }
}

fn share_opened<'d, R: Abort + Threads + Wait + Sync, D: Disk + Drop + Send>(
    rt: &R,
    alloc: Global,
    book: Book<'d, D>,
    task: Task<'_>,
) -> Left<'d, D>
    requires opened { IsOpened (opening_of book.chronicle (rank_by book.policy.now.answers))
        book.chronicle }
    requires has { IfSome (D.told book.chronicle.disk).bytes
        (IsKeptList book.chronicle.history.start book.chronicle.entries
        (D.told book.chronicle.disk).may_leave) }
{
    share_named::<R, D, Brand>(rt, alloc, book, task)
}

// Takes apart what is left.
fn taken_apart<D: Disk>(left: Left<'_, D>) -> Done<D> {
    let Left {
        book,
        told,
        notes,
        halt,
    } = left;
    let finished = book.finished();
    let disk = disk_behind(book);
    Done {
        opened: true,
        told,
        notes,
        halt,
        finished,
        disk,
    }
}

fn unopened_of<D>(alloc: Global, unopened: Unopened<D>) -> Done<D> {
    let Unopened { disk, cause: _ } = unopened;
    Done {
        opened: false,
        told: NoteList::new(alloc),
        notes: NoteList::new(alloc),
        halt: None,
        finished: false,
        disk,
    }
}

// The book of a rollout is opened on a disk, and shared.
fn share<R: Abort + Threads + Wait + Sync, D: Disk + Drop + Send>(
    rt: &R,
    alloc: Global,
    text: &str,
    policy: &Policy,
    disk: D,
    task: Task<'_>,
) -> Result<Done<D>, Fail> {
    Ok(share_from(rt, alloc, graph_of(alloc, text)?, policy, disk, task))
}

fn share_from<R: Abort + Threads + Wait + Sync, D: Disk + Drop + Send>(
    rt: &R,
    alloc: Global,
    graph: Graph,
    policy: &Policy,
    disk: D,
    task: Task<'_>,
) -> Done<D>
    requires empty { graph.history ≡ from_nothing graph.rollout.problem [] }
{
    match open_book(alloc, graph, &digest(), policy, disk) {
        Ok(book) => taken_apart(share_opened(rt, alloc, book, task)),
        Err(unopened) => unopened_of(alloc, unopened),
    }
}

/// The same under a policy that ranks every operation so.
pub fn share_ranked<R: Abort + Threads + Wait + Sync, D: Disk + Drop + Send>(
    rt: &R,
    alloc: Global,
    text: &str,
    rank: u64,
    disk: D,
    task: Task<'_>,
) -> Result<Done<D>, Fail>
    requires { rank ≤ 4294967296 }
{
    let alike: Box<dyn Fn(OpView) -> u64 + Send + Sync> = Box::new(
        alloc,
        move |_view: OpView| -> u64
            ensures { result ≡ rank }
        { rank },
    )?;
    let policy = Policy::holding(alike);
    share(rt, alloc, text, &policy, disk, task)
}

/// The notes that are left where the disk fails at these calls.
pub fn notes_over<R: Abort + Threads + Wait + Sync>(
    rt: &R,
    alloc: Global,
    text: &str,
    rank: u64,
    fails: &[u64],
    task: Task<'_>,
) -> Result<NoteList, Fail>
    requires { rank ≤ 4294967296 }
{
    let done = share_ranked(rt, alloc, text, rank, disk_of(alloc, fails)?, task)?;
    Ok(notes_in(done))
}

// The notes alone; all else goes.
fn notes_in<D: Drop>(done: Done<D>) -> NoteList {
    let Done {
        opened: _,
        told,
        notes,
        halt: _,
        finished: _,
        disk,
    } = done;
    drop(told);
    drop(disk);
    notes
}
