//! A run of a shared book from its first round to its last.
ghost use Rattle.std.specs.Prelude.{◌≡◌, ◌<◌, ◌≤◌, IsPermutation, length, map, max, vec_capacity};
ghost use Rattle.order_policy.specs.Answers.{rank_by};
ghost use Rattle.rollout_rules.specs.Legal.{is_finished};
ghost use Rattle.turn_lock.specs.Passes.{IsFirstPass, IsPassOf, given_of, out_of, seat_of_pass, seen_of};
ghost use Rattle.shared_book.specs.Calls.{IsCounted};
ghost use Rattle.shared_book.specs.Homes.{homes_of};
ghost use Rattle.shared_book.specs.Images.{StandsSo, StaysOpened};
ghost use Rattle.shared_book.specs.Lasting.{CountsAsHeard, CountsNothingElse};
ghost use Rattle.shared_book.specs.Opened.{IsOpenedOn};
ghost use Rattle.controller_run.specs.Runs.{IsRun, Runs, cause_behind, end_with};
ghost use Rattle.controller_run.specs.Workers.{HasLed, IsLeader, AreWorkers, workers_ports};
ghost use Rattle.controller_run.specs.Together.{HasWorked};

use crate::WorkerOptions;
use crate::end::RunEnd;
use crate::running::Limits;
use crate::together::work_together;
use crate::workers::Workers;
use disk_model::Disk;
use port_session::PortAnswers;
use rollout_book::Book;
use shared_book::{BookPass, Cause, Halt, Marker, RoundReply, SharedBook};
use std::alloc::Global;
use std::sync::Wait;
use std::sync::atomic::AtomicU32;
use std::thread;
use std::thread::Threads;
use wan_edge::Port;

/// What is left of a run: the book, the ports, and how it ended.
#[derive(Drop)]
pub(crate) struct Ended<'d, D: Disk, T: Port> {
    pub book: Book<'d, D>,
    pub team: Workers<T>,
    pub end: RunEnd,
}

/// Runs over the ports of a team, under the name of the book's opening.
pub(crate) fn run_named<'d, R, D, M, T>(
    rt: &R,
    alloc: Global,
    book: Book<'d, D>,
    team: Workers<T>,
    limits: Limits,
) -> Ended<'d, D, T>
where
    R: Wait + Threads + Sync,
    D: Disk + Drop + Send,
    M: Marker + Send,
    T: Port + Drop + Send,
    requires opened { IsOpenedOn D.told M.opening M.moment M.faults book.chronicle }
    requires stood { StandsSo M.stood (D.told book.chronicle.disk) }
    requires policy { M.opening.policy ≡ rank_by book.policy.now.answers }
    requires seats { M.seats ≡ max 1 limits.workers }
    requires migration { limits.migration ≡ M.migration }
    requires told { CountsAsHeard T.told limits.migration M.heard }
    requires only { CountsNothingElse T.told limits.migration M.heard }
    requires few { length team.crews.items < M.seats }
    requires team { AreWorkers team.own.ports team.own.spare.items (vec_capacity team.own.spare)
        team.crews.items }
    ensures switches { IsPermutation (map (λ t. t.switch)
        (workers_ports team.own.ports team.own.spare.items team.crews.items))
        (map (λ t. t.switch)
        (workers_ports result.team.own.ports result.team.own.spare.items result.team.crews.items)) }
    ensures ran { IsRun result.end
        (Runs D.told T.told M.opening M.moment M.faults limits.migration limits.rounds
        (workers_ports team.own.ports team.own.spare.items team.crews.items) result.end
        result.book.chronicle
        (workers_ports result.team.own.ports result.team.own.spare.items result.team.crews.items))
        ((result.book.chronicle ≡ book.entry.chronicle)
        × (workers_ports result.team.own.ports result.team.own.spare.items result.team.crews.items
        ≡ workers_ports team.own.ports team.own.spare.items team.crews.items)) }
    ensures stays { StaysOpened D.told M.opening M.stood result.book.chronicle.disk }
{
    match SharedBook::<D, M>::new(alloc, book, limits.workers.max(1)) {
        Ok((shared, pass)) => {
            let (pass, team) = work(rt, alloc, &shared, pass, team, limits);
            let (book, _notes, halt) = shared.close(pass);
            let end = end_of(&book, halt);
            Ended { book, team, end }
        }
        Err(book) => Ended {
            book,
            team,
            end: RunEnd::Memory,
        },
    }
}

// How a run has ended that left this book, with this first stop.
fn end_of<D: Disk>(book: &Book<'_, D>, halt: Option<Halt>) -> RunEnd
    ensures { result
        ≡ end_with halt
        (is_finished book.now.chronicle.rollout.problem book.now.chronicle.rollout.plan
        book.now.chronicle.history) }
{
    match halt {
        Some(halt) => RunEnd::Stopped(halt),
        None if book.finished() => RunEnd::Finished,
        None => RunEnd::Held,
    }
}

// Begins what may begin, and has all workers work. Where the first round is refused nothing goes out.
fn work<'d, R, D, M, T>(
    rt: &R,
    alloc: Global,
    book: &SharedBook<'d, D, M>,
    pass: BookPass<D, M>,
    team: Workers<T>,
    limits: Limits,
) -> (BookPass<D, M>, Workers<T>)
where
    R: Wait + Threads + Sync,
    D: Disk + Drop + Send,
    M: Marker + Send,
    T: Port + Drop + Send,
    requires lock { IsPassOf book.now.lock pass.pass }
    requires homes { book.now.homes ≡ homes_of M.opening.rollout.problem }
    requires policy { M.opening.policy ≡ rank_by book.now.policy.now.answers }
    requires calls { IsCounted pass.calls pass.pass }
    requires first { IsFirstPass pass.pass }
    requires seats { (length team.crews.items < M.seats) × (M.seats ≤ 4294967295) }
    requires migration { limits.migration ≡ M.migration }
    requires told { CountsAsHeard T.told limits.migration M.heard }
    requires team { AreWorkers team.own.ports team.own.spare.items (vec_capacity team.own.spare)
        team.crews.items }
    ensures lock { IsPassOf book.now.lock result.0.pass }
    ensures first { seat_of_pass result.0.pass ≡ 0 }
    ensures all_in { out_of result.0.pass ≡ 0 }
    ensures worked { HasWorked T.told M.opening limits.migration
        (homes_of M.opening.rollout.problem) limits.rounds
        (workers_ports team.own.ports team.own.spare.items team.crews.items)
        (given_of result.0.pass) (seen_of result.0.pass)
        (workers_ports result.1.own.ports result.1.own.spare.items result.1.crews.items) }
{
    let nothing = PortAnswers::<T>::new(alloc, limits.migration);
    let (pass, reply) = book.round(rt, pass, nothing);
    if let Some(cause) = cause_of(reply) {
        return (book.stop(rt, pass, cause).0, team);
    }
    let terms = WorkerOptions {
        homes: book.homes(),
        migration: limits.migration,
        rounds: limits.rounds,
    };
    work_in_scope(rt, alloc, book, pass, team, terms)
}

// Has all workers work, and waits for the end of each thread.
fn work_in_scope<'d, R, D, M, T>(
    rt: &R,
    alloc: Global,
    book: &SharedBook<'d, D, M>,
    pass: BookPass<D, M>,
    team: Workers<T>,
    terms: WorkerOptions<'_>,
) -> (BookPass<D, M>, Workers<T>)
where
    R: Wait + Threads + Sync,
    D: Disk + Drop + Send,
    M: Marker + Send,
    T: Port + Drop + Send,
    requires homes { book.now.homes ≡ homes_of M.opening.rollout.problem }
    requires policy { M.opening.policy ≡ rank_by book.now.policy.now.answers }
    requires leader { IsLeader book.now.lock M.seats (length team.crews.items) pass.pass
        pass.calls }
    requires team { AreWorkers team.own.ports team.own.spare.items (vec_capacity team.own.spare)
        team.crews.items }
    requires home { terms.homes.now ≡ homes_of M.opening.rollout.problem }
    requires migration { terms.migration ≡ M.migration }
    requires told { CountsAsHeard T.told terms.migration M.heard }
    ensures led { HasLed T.told M.opening terms.entry.migration terms.entry.homes.now
        terms.entry.rounds book.now.lock (length team.crews.items) pass.pass
        (workers_ports team.own.ports team.own.spare.items team.crews.items) result.0.pass
        result.0.calls
        (workers_ports result.1.own.ports result.1.own.spare.items result.1.crews.items) }
{
    let flag = AtomicU32::new(0);
    let refused = &flag;
    thread::scope(
        thread::scope_env(),
        rt,
        |scope| -> (BookPass<D, M>, Workers<T>)
            requires homes { book.now.homes ≡ homes_of M.opening.rollout.problem }
            requires policy { M.opening.policy ≡ rank_by book.now.policy.now.answers }
            requires leader { IsLeader book.now.lock M.seats (length team.crews.items) pass.pass
                pass.calls }
            requires team { AreWorkers team.own.ports team.own.spare.items
                (vec_capacity team.own.spare) team.crews.items }
            requires home { terms.homes.now ≡ homes_of M.opening.rollout.problem }
            requires migration { terms.migration ≡ M.migration }
            requires told { CountsAsHeard T.told terms.migration M.heard }
            ensures led { HasLed T.told M.opening terms.entry.migration terms.entry.homes.now
                terms.entry.rounds book.entry.now.lock (length team.crews.items) pass.pass
                (workers_ports team.own.ports team.own.spare.items team.crews.items) result.0.pass
                result.0.calls
                (workers_ports result.1.own.ports result.1.own.spare.items result.1.crews.items) }
        { work_together(rt, scope, alloc, book, pass, team, terms, refused) },
    )
}

// Why all is to stop after a round; nothing where it turned.
fn cause_of(reply: RoundReply) -> Option<Cause>
    ensures { result ≡ cause_behind reply }
{
    match reply {
        RoundReply::Turned(_) => None,
        RoundReply::Stopped(halt) => Some(halt.cause),
        RoundReply::Refused(fault) => Some(Cause::from(fault)),
        RoundReply::Memory => Some(Cause::Memory),
    }
}
