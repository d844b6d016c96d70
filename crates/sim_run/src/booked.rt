ghost use Rattle.std.specs.Prelude.{◌≡◌, ℕ, List, [], ◌∷◌, true, false, length, All, IfOk, IsTrue, OnErr, OnOk, Some};
ghost use Rattle.rollout_rules.specs.History.{from_nothing};
ghost use Rattle.disk_model.specs.Memory.{MayLeave};
ghost use Rattle.intent_journal.specs.Openings.{unbegun};
ghost use Rattle.intent_journal.specs.Verdicts.{Stands, verdict};
ghost use Rattle.order_policy.specs.Answers.{rank_by};
ghost use Rattle.rollout_book.specs.Aliens.{told_by};
ghost use Rattle.rollout_book.specs.JournaledRounds.{graph_of, turn_of};
ghost use Rattle.rollout_book.specs.declared.fault.BookFault.TheVariants as book_fault;
ghost use Rattle.sim_run.specs.Booked.{IsAgain, IsOpened, IsOpenedOver, IsOwnBook, IsSeat, IsWant, Opens, graph_in, lives, own_digest};
ghost use Rattle.sim_run.specs.Keeping.{MayTell, batch_over, graph_with};

use crate::mark::{Mark, tells_the_same};
use crate::sim_rounds::SimRounds;
use dependency_graph::Graph;
use disk_model::MemoryDisk;
use intent_journal::{Digest, JournalFault};
use lists::Memory;
use order_policy::Policy;
use rollout_book::laws::a_legal_list_is_found_again;
use rollout_book::{BookFault, JournaledRounds, Turn};
use rollout_rules::{Entry, Op};
use std::alloc::{AllocError, Global};
use std::marker::Model;
use wan_edge::{Nums8, Turns};
use wan_model::CheckedPlan;
use wire_frames::Answer;

/// What keeps a rollout with a book: on a disk in memory, of which counts what a crash leaves.
#[derive(Drop)]
pub(crate) struct Booked {
    alloc: Global,
    // None where a start found no memory.
    seat: Option<JournaledRounds<MemoryDisk>>,
    // How far its journal was read.
    mark: Mark,
}

impl Model for Booked {
    ghost use Rattle.sim_run.specs.Booked.{IsSeat, keeping_of};
    ghost use Rattle.sim_run.specs.Keeping.{Keeping};

    ghost Value = { Keeping };

    ghost view = { λ b. keeping_of b.seat };

    ghost invariant = { λ b. IsSeat b.seat };
}

impl SimRounds for Booked {
    ghost keeping = { λ b. b };

    /// With the journal that it makes on a disk of one byte 0.
    fn first(alloc: Global, plan: CheckedPlan) -> Result<Booked, Memory> {
        let book = first_book(alloc, plan)?;
        let mark = Mark::behind(&book);
        Ok(Booked {
            alloc,
            seat: Some(book),
            mark,
        })
    }

    fn graph(&self) -> &Graph {
        book_on(&self.seat).graph()
    }

    fn flying(&self) -> &[Op] {
        book_on(&self.seat).flying()
    }

    fn entries(&self) -> &[Entry] {
        book_on(&self.seat).entries()
    }

    fn round(&mut self, policy: &Policy, answers: &[Answer]) -> Result<Turn, Memory> {
        round_in(&mut self.seat, policy, answers)
    }

    /// Time: what came to the journal since the last start.
    fn start(&mut self) -> Result<usize, Memory> {
        reopen(self.alloc, &mut self.seat, &mut self.mark)
    }
}

/// The book on its seat.
fn book_on(seat: &Option<JournaledRounds<MemoryDisk>>) -> &JournaledRounds<MemoryDisk>
    requires own { IsSeat seat.now }
    requires live { IsTrue (lives seat.now) }
    ensures own { IsOwnBook result.now }
    ensures graph { graph_of result.now ≡ graph_in seat.now }
{
    match seat {
        Some(book) => book,
        None => unreachable!(),
    }
}

/// A disk of one byte 0.
fn first_disk(alloc: Global) -> Result<MemoryDisk, Memory>
    ensures { IfOk result (λ disk. disk.timeline.medium.bytes ≡ 0 ∷ []) }
{
    let mut bytes = Nums8::new(alloc);
    bytes.push(0)?;
    Ok(MemoryDisk::new(alloc, bytes, Turns::new(alloc)))
}

/// A disk of what a crash leaves of another, without what wasn't synced.
fn left_of(alloc: Global, disk: &MemoryDisk) -> Result<MemoryDisk, Memory>
    ensures { IfOk result (λ left. MayLeave disk.now.timeline.medium left.timeline.medium.bytes) }
{
    let bytes = disk.left(false)?;
    Ok(MemoryDisk::new(alloc, bytes, Turns::new(alloc)))
}

/// The book of a controller that starts for the first time.
fn first_book(alloc: Global, plan: CheckedPlan) -> Result<JournaledRounds<MemoryDisk>, Memory>
    ensures own { IfOk result (λ book. IsOwnBook book) }
    ensures graph { IfOk result
        (λ book. graph_of book
        ≡ record { rollout = plan; history = from_nothing plan.problem [] }) }
{
    match first_disk(alloc) {
        Ok(disk) => opened_for(alloc, plan, disk),
        Err(error) => {
            drop(plan);
            Err(error)
        }
    }
}

/// Opens the book of a plan on a disk.
fn opened_for(
    alloc: Global,
    plan: CheckedPlan,
    disk: MemoryDisk,
) -> Result<JournaledRounds<MemoryDisk>, Memory>
    requires { Opens (verdict plan own_digest disk.timeline.medium.bytes) }
    ensures { IfOk result (IsOpened plan disk.timeline.medium.bytes) }
{
    match Graph::new(alloc, plan) {
        Ok(graph) => open_on(alloc, graph, disk),
        Err(plan) => {
            drop(plan);
            drop(disk);
            Err(AllocError)
        }
    }
}

/// Opens the book of a graph on a disk.
fn open_on(
    alloc: Global,
    graph: Graph,
    disk: MemoryDisk,
) -> Result<JournaledRounds<MemoryDisk>, Memory>
    requires empty { graph.history ≡ from_nothing graph.rollout.problem [] }
    requires opens { Opens (verdict graph.rollout own_digest disk.timeline.medium.bytes) }
    ensures { IfOk result (IsOpened graph.rollout disk.timeline.medium.bytes) }
{
    // No other rollout's journal comes on this disk, so that any digest serves.
    let digest = Digest {
        bytes: [0; 32],
        migration: 0,
    };
    match JournaledRounds::open(alloc, graph, &digest, disk) {
        Ok(book) => Ok(book),
        Err(unopened) => {
            let cause = unopened.cause;
            drop(unopened);
            Err(want_of_memory(cause))
        }
    }
}

/// A disk in memory fails only where no memory is found, and no journal of a rehearsal is refused.
fn want_of_memory(cause: JournalFault) -> Memory
    requires { IsWant cause }
{
    match cause {
        JournalFault::Disk | JournalFault::Memory => AllocError,
        JournalFault::NotJournal(_)
        | JournalFault::OtherPlan(..)
        | JournalFault::Illegal(_)
        | JournalFault::BadStart => unreachable!(),
    }
}

/// Brings a book up again over what a crash leaves of its disk, and tells how many entries are found there. What
/// came to the journal since the last start is read; where the book has followed it, it goes on. None is left
/// without memory.
fn reopen(
    alloc: Global,
    seat: &mut Option<JournaledRounds<MemoryDisk>>,
    mark: &mut Mark,
) -> Result<usize, Memory>
    requires own { IsSeat seat.old }
    requires live { IsTrue (lives seat.old) }
    ensures own { IsSeat seat.new }
    ensures live { OnOk result (lives seat.new ≡ true) }
    ensures same { OnOk result (graph_in seat.new ≡ graph_in seat.old) }
    ensures found { IfOk result (λ found. found ≡ length (graph_in seat.old).history.entries) }
    ensures given_up { OnErr result (lives seat.new ≡ false) }
{
    if tells_the_same(alloc, book_on(seat), *mark) {
        return Ok(go_on(seat, mark));
    }
    let found = open_again(alloc, seat, mark)?;
    Ok(found as usize)
}

/// Goes on with a book whose journal was read, and tells how many entries that has.
fn go_on(seat: &Option<JournaledRounds<MemoryDisk>>, mark: &mut Mark) -> usize
    requires own { IsSeat seat.now }
    requires live { IsTrue (lives seat.now) }
    ensures { result ≡ length (graph_in seat.now).history.entries }
{
    let book = book_on(seat);
    *mark = Mark::behind(book);
    book.entries().len()
}

/// Opens a book again over what a crash leaves of its disk, and tells how many entries are found there. None
/// is left without memory.
fn open_again(
    alloc: Global,
    seat: &mut Option<JournaledRounds<MemoryDisk>>,
    mark: &mut Mark,
) -> Result<u32, Memory>
    requires own { IsSeat seat.old }
    requires live { IsTrue (lives seat.old) }
    ensures own { IsSeat seat.new }
    ensures live { OnOk result (lives seat.new ≡ true) }
    ensures same { OnOk result (graph_in seat.new ≡ graph_in seat.old) }
    ensures found { IfOk result (λ found. found ≡ length (graph_in seat.old).history.entries) }
    ensures given_up { OnErr result (lives seat.new ≡ false) }
{
    let Some(book) = seat.take() else {
        unreachable!()
    };
    let again = open_after_crash(alloc, book)?;
    *mark = Mark::behind(&again);
    let found = again.found();
    put(seat, again);
    Ok(found)
}

/// Puts a book on a seat.
fn put(seat: &mut Option<JournaledRounds<MemoryDisk>>, book: JournaledRounds<MemoryDisk>)
    ensures { seat.new ≡ Some book }
{
    let past = seat.replace(book);
    drop(past);
}

/// The book that a start makes of what a crash leaves of another one's disk.
fn open_after_crash(
    alloc: Global,
    book: JournaledRounds<MemoryDisk>,
) -> Result<JournaledRounds<MemoryDisk>, Memory>
    requires { IsOwnBook book }
    ensures { IfOk result (IsAgain book) }
{
    is_found_again(&book);
    let (graph, disk) = book.into_parts();
    let again = opened_over(alloc, graph, &disk);
    drop(disk);
    again
}

/// Opens the book of a graph's plan over what a crash leaves of a disk.
fn opened_over(
    alloc: Global,
    graph: Graph,
    disk: &MemoryDisk,
) -> Result<JournaledRounds<MemoryDisk>, Memory>
    requires { (image : List ℕ)
        → MayLeave disk.now.timeline.medium image
        → Opens (verdict graph.rollout own_digest image) }
    ensures { IfOk result (IsOpenedOver graph.rollout disk.now.timeline.medium) }
{
    match left_of(alloc, disk) {
        Ok(left) => opened_for(alloc, graph.into_plan(), left),
        Err(error) => {
            drop(graph);
            Err(error)
        }
    }
}

/// Whatever a crash leaves of a book's disk, an opening finds the book's history there.
fn is_found_again(book: &JournaledRounds<MemoryDisk>)
    requires { IsOwnBook book.now }
    ensures { (image : List ℕ)
        → MayLeave book.now.disk.timeline.medium image
        → verdict book.now.rollout own_digest image
        ≡ Stands book.now.history.start book.now.history.entries }
{
    a_legal_list_is_found_again(book.entries());
    let _ = book.graph();
}

/// Makes a round of the book on its seat over these answers.
fn round_in(
    seat: &mut Option<JournaledRounds<MemoryDisk>>,
    policy: &Policy,
    answers: &[Answer],
) -> Result<Turn, Memory>
    requires own { IsSeat seat.old }
    requires live { IsTrue (lives seat.old) }
    requires told { All (MayTell (graph_in seat.old)) (told_by answers.now) }
    ensures own { IsSeat seat.new }
    ensures live { OnOk result (lives seat.new ≡ true) }
    ensures graph { OnOk result
        (graph_in seat.new
        ≡ graph_with (graph_in seat.old)
        (batch_over (graph_in seat.old) (rank_by policy.now.answers) answers.now)) }
    ensures turn { IfOk result
        (λ turn. turn
        ≡ turn_of (batch_over (graph_in seat.old) (rank_by policy.now.answers) answers.now)) }
    ensures given_up { OnErr result (lives seat.new ≡ false) }
{
    match seat {
        Some(book) => round_over(book, policy, answers),
        None => unreachable!(),
    }
}

/// Makes a round of a book over these answers.
fn round_over(
    book: &mut JournaledRounds<MemoryDisk>,
    policy: &Policy,
    answers: &[Answer],
) -> Result<Turn, Memory>
    requires own { IsOwnBook book.old }
    requires told { All (MayTell (graph_of book.old)) (told_by answers.now) }
    ensures own { book.new.live ≡ true → IsOwnBook book.new }
    ensures live { OnOk result (book.new.live ≡ true) }
    ensures graph { OnOk result
        (graph_of book.new
        ≡ graph_with (graph_of book.old)
        (batch_over (graph_of book.old) (rank_by policy.now.answers) answers.now)) }
    ensures turn { IfOk result
        (λ turn. turn
        ≡ turn_of (batch_over (graph_of book.old) (rank_by policy.now.answers) answers.now)) }
    ensures given_up { OnErr result (book.new.live ≡ false) }
{
    match book.round(policy, answers) {
        Ok(turn) => Ok(turn),
        Err(fault) => Err(want_in_round(fault)),
    }
}

/// A disk in memory fails only where no memory is found, and no answer of a rehearsal is alien.
fn want_in_round(fault: BookFault) -> Memory
    requires { fault ≡ book_fault.Disk }
{
    match fault {
        BookFault::Disk => AllocError,
        BookFault::Alien { .. } => unreachable!(),
    }
}
