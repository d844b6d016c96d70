//! Several threads that make many calls of one book, over disks that work and disks that fail.
ghost use Rattle.std.specs.Prelude.{◌≡◌, []};
ghost use Rattle.rollout_rules.specs.History.{from_nothing};

use crate::books::{CALLS_TO_OPEN, digest, disk_behind, graph_of, late, one, tables};
use crate::histories::{are_answered, are_stopped, are_told, before_the_fault, counts_up};
use crate::many::CALLS;
use crate::sharing::{ALIKE, Done, SEATS, Task, share_ranked};
use crate::threads::Part;
use dependency_graph::Graph;
use disk_model::{Disk, MemoryDisk};
use fixtures::{disk_of, open_book};
use lists::Memory;
use order_policy::Policy;
use rollout_book::Book;
use rollout_rules::OpView;
use shared_book::{Cause, Halt, Note};
use std::alloc::Global;
use std::process::Abort;
use std::sync::Wait;
use std::test::Fail;
use std::thread::Threads;

// Whether a book alone answers alike to the calls of these notes.
fn answers_alike<D: Disk + Drop>(
    alloc: Global,
    graph: Graph,
    policy: &Policy,
    disk: D,
    notes: &[Note],
) -> bool
    requires empty { graph.history ≡ from_nothing graph.rollout.problem [] }
{
    match open_book(alloc, graph, &digest(), policy, disk) {
        Ok(book) => book_answers_alike(alloc, book, notes),
        Err(unopened) => {
            drop(unopened);
            false
        }
    }
}

fn book_answers_alike<D: Disk + Drop>(alloc: Global, book: Book<'_, D>, notes: &[Note]) -> bool {
    let mut book = book;
    let answered = are_answered(alloc, &mut book, SEATS, notes);
    is_alike(book, answered)
}

// Lets the book go.
fn is_alike<D: Disk + Drop>(book: Book<'_, D>, answered: Result<bool, Memory>) -> bool {
    drop(disk_behind(book));
    matches!(answered, Ok(true))
}

fn answers_alike_ranked(alloc: Global, text: &str, notes: &[Note]) -> Result<bool, Fail> {
    let alike: Box<dyn Fn(OpView) -> u64 + Send + Sync> = Box::new(
        alloc,
        |_view: OpView| -> u64
            ensures { result ≡ 0 }
        { 0 },
    )?;
    let policy = Policy::holding(alike);
    alike_by(alloc, text, &policy, notes)
}

// The same by a policy.
fn alike_by(alloc: Global, text: &str, policy: &Policy, notes: &[Note]) -> Result<bool, Fail> {
    let disk = disk_of(alloc, &[])?;
    match graph_of(alloc, text) {
        Ok(graph) => Ok(answers_alike(alloc, graph, policy, disk, notes)),
        Err(fail) => {
            drop(disk);
            Err(fail)
        }
    }
}

// Whether the notes are those of all calls of all seats, each of which was told its own.
fn are_all(done: &Done<MemoryDisk>) -> bool {
    let notes = done.notes.as_slice();
    for seat in 0..SEATS {
        if !counts_up(notes, seat, CALLS) {
            return false;
        }
    }
    notes.len() == done.told.as_slice().len() && are_told(notes, done.told.as_slice())
}

// Whether a disk that failed once stopped all after that, as the first stop; or none failed, and all is
// settled.
fn ends_by_the_rule(done: &Done<MemoryDisk>) -> bool {
    let notes = done.notes.as_slice();
    match notes[before_the_fault(notes)..].split_first() {
        Some((note, behind)) => {
            done.disk.failures() == 1 && are_stopped(behind) && done.halt == Some(halt_of(*note))
        }
        None => done.disk.failures() == 0 && done.halt.is_none() && done.finished,
    }
}

fn halt_of(note: Note) -> Halt {
    Halt {
        seat: note.seat,
        call: note.call,
        cause: Cause::Disk,
    }
}

// Whether the notes of threads are those of one history, which ends by the rule and is a book's alone up to a
// fault.
fn is_one_history(alloc: Global, text: &str, done: &Done<MemoryDisk>) -> Result<bool, Fail> {
    let notes = done.notes.as_slice();
    let before = &notes[..before_the_fault(notes)];
    Ok(are_all(done) && ends_by_the_rule(done) && answers_alike_ranked(alloc, text, before)?)
}

// What four threads make of a rollout whose disk fails at these calls: whether its book was opened, and whether
// all else is as it should be.
fn crowd_over<R: Abort + Threads + Wait + Sync>(
    rt: &R,
    alloc: Global,
    text: &str,
    fails: &[u64],
) -> Result<[bool; 2], Fail> {
    let task = Task::Threads(&[], Part::Calls, Part::Calls);
    let done = share_ranked(rt, alloc, text, ALIKE, disk_of(alloc, fails)?, task)?;
    let told = told_of(alloc, text, &done);
    drop(done);
    told
}

fn told_of(alloc: Global, text: &str, done: &Done<MemoryDisk>) -> Result<[bool; 2], Fail> {
    let is_right = if done.opened {
        is_one_history(alloc, text, done)?
    } else {
        done.disk.failures() == 1
    };
    Ok([done.opened, is_right])
}

#[test]
fn the_calls_of_all_threads_are_those_of_one_book(rt: HostRuntime) -> Result<(), Fail> {
    for text in [one(), late(), tables()] {
        assert!(rt; crowd_over(&rt, rt.alloc(), text, &[])? == [true, true]);
    }
    Ok(())
}

#[test]
fn a_disk_that_fails_at_any_call_stops_all_threads(rt: HostRuntime) -> Result<(), Fail> {
    for call in 0..24 {
        let found = crowd_over(&rt, rt.alloc(), late(), &[call])?;
        assert!(rt; found == [call >= CALLS_TO_OPEN, true]);
    }
    Ok(())
}
