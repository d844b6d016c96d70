//! All workers of a rollout, from the first round to the last.
ghost use Rattle.std.specs.Prelude.{◌≡◌, ◌<◌, ◌++◌, [], ◌∷◌, length, vec_capacity, IfErr, IfOk, MatchOption};
ghost use Rattle.order_policy.specs.Answers.{rank_by};
ghost use Rattle.turn_lock.specs.Histories.{Follows};
ghost use Rattle.turn_lock.specs.Passes.{HasJoined, IsPassOf, IsSamePass, seat_of_pass, seats_of, seen_of};
ghost use Rattle.shared_book.specs.Calls.{IsCounted, seat_of};
ghost use Rattle.shared_book.specs.Homes.{homes_of};
ghost use Rattle.shared_book.specs.Lasting.{CountsAsHeard};
ghost use Rattle.controller_run.specs.Shifts.{AreFresh};
ghost use Rattle.controller_run.specs.Workers.{Answers, HasLed, HasReturned, IsLeader, AreWorkers, workers_ports};

use crate::caller_ports::CallerPorts;
use crate::job::start;
use crate::worker::{Worker, WorkerJob, WorkerPromise, WorkerResult};
use crate::workers::Workers;
use crate::{WorkerEnd, WorkerOptions, serve};
use disk_model::Disk;
use shared_book::{BookPass, Cause, Marker, NotedBook, SharedBook};
use std::alloc::Global;
use std::snapshot::Snapshot;
use std::sync::Wait;
use std::sync::atomic::AtomicU32;
use std::thread::{PromisedHandle, Scope, Threads};
use switch_ports::WorkerPorts;
use wan_edge::Port;

/// The thread of a worker; where none was started, what is left of the worker.
type Sent<'t, D, M, T> = Result<
    PromisedHandle<WorkerResult<NotedBook<D, M>, T>, WorkerPromise<'t, NotedBook<D, M>, T>>,
    WorkerResult<NotedBook<D, M>, T>,
>;

/// Sends the workers out, one after the other, serves the caller's ports beside them, and takes each in
/// again once its thread has ended. The ports of a worker for which no thread was started are the caller's.
pub(crate) fn work_together<'s, 't, 'd, R, D, M, T, E>(
    rt: &'s R,
    scope: &Scope<'s, E>,
    alloc: Global,
    book: &'s SharedBook<'d, D, M>,
    pass: BookPass<D, M>,
    mut team: Workers<T>,
    terms: WorkerOptions<'t>,
    refused: &'s AtomicU32,
) -> (BookPass<D, M>, Workers<T>)
where
    't: 's,
    R: Wait + Threads + Sync + 's,
    D: Disk + Drop + Send + 's,
    M: Marker + Send + 's,
    T: Port + Drop + Send + 's,
    requires homes { book.now.homes ≡ homes_of M.opening.rollout.problem }
    requires policy { M.opening.policy ≡ rank_by book.now.policy.now.answers }
    requires leader { IsLeader book.now.lock M.seats (length team.crews.items) pass.pass
        pass.calls }
    requires team { AreWorkers team.own.ports team.own.spare.items (vec_capacity team.own.spare)
        team.crews.items }
    requires home { terms.homes.now ≡ homes_of M.opening.rollout.problem }
    requires migration { terms.migration ≡ M.migration }
    requires told { CountsAsHeard T.told terms.migration M.heard }
    ensures led { HasLed T.told M.opening terms.entry.migration terms.entry.homes.now
        terms.entry.rounds book.now.lock (length team.crews.items) pass.pass
        (workers_ports team.own.ports team.own.spare.items team.crews.items) result.0.pass
        result.0.calls
        (workers_ports result.1.own.ports result.1.own.spare.items result.1.crews.items) }
    ensures places { (length result.1.crews.items ≡ length team.crews.items)
        × (vec_capacity result.1.crews ≡ vec_capacity team.crews) }
{
    match next_crew(&mut team.crews) {
        None => work_alone(rt, alloc, book, pass, team, terms),
        Some(ports) => {
            let (pass, theirs) = book.split(pass);
            match send(rt, scope, alloc, book, theirs, ports, terms, refused) {
                Ok(thread) => {
                    let (pass, team) = work_together(
                        rt, scope, alloc, book, pass, team, terms, refused,
                    );
                    let back = answer_for(rt, book, thread.join(rt));
                    take_in(book, pass, back, team)
                }
                Err(back) => {
                    let back = team.own.relieve(alloc, back);
                    let (pass, team) = work_together(
                        rt, scope, alloc, book, pass, team, terms, refused,
                    );
                    take_in(book, pass, back, team)
                }
            }
        }
    }
}

// Takes the ports of the last worker out, whose place stays free.
fn next_crew<T: Port + Drop>(crews: &mut Vec<WorkerPorts<T>>) -> Option<WorkerPorts<T>>
    ensures next { MatchOption result ((crews.old.items ≡ []) × (crews.new.items ≡ []))
        (λ ports. (crews.old.items ≡ crews.new.items ++ ports ∷ [])
        × (length crews.new.items < vec_capacity crews.new)) }
    ensures places { vec_capacity crews.new ≡ vec_capacity crews.old }
{
    crews.pop()
}

// Starts a thread for a worker.
fn send<'s, 't, 'd, R, D, M, T, E>(
    rt: &'s R,
    scope: &Scope<'s, E>,
    alloc: Global,
    book: &'s SharedBook<'d, D, M>,
    pass: BookPass<D, M>,
    ports: WorkerPorts<T>,
    terms: WorkerOptions<'t>,
    refused: &'s AtomicU32,
) -> Sent<'t, D, M, T>
where
    't: 's,
    R: Wait + Threads + Sync + 's,
    D: Disk + Drop + Send + 's,
    M: Marker + Send + 's,
    T: Port + Drop + Send + 's,
    requires lock { IsPassOf book.now.lock pass.pass }
    requires homes { book.now.homes ≡ homes_of M.opening.rollout.problem }
    requires policy { M.opening.policy ≡ rank_by book.now.policy.now.answers }
    requires calls { IsCounted pass.calls pass.pass }
    requires seat { seat_of_pass pass.pass < M.seats }
    requires fresh { AreFresh ports }
    requires home { terms.homes.now ≡ homes_of M.opening.rollout.problem }
    requires migration { terms.migration ≡ M.migration }
    requires told { CountsAsHeard T.told terms.migration M.heard }
    ensures ok { IfOk result
        (λ thread. (thread.promise.given.value.pass.pass ≡ pass.pass)
        × (thread.promise.given.value.ports ≡ ports)
        × (thread.promise.terms ≡ terms.entry)) }
    ensures err { IfErr result
        (λ back. HasReturned T.told M.opening terms.entry.migration terms.entry.homes.now
        terms.entry.rounds pass.pass ports back.pass.pass back.pass.calls back.end back.ports) }
{
    let seat = pass.seat();
    let crew = Worker { pass, ports };
    let promise = WorkerPromise {
        given: Snapshot::of(&crew),
        terms,
    };
    let duty = WorkerJob {
        rt,
        alloc,
        book,
        crew,
        terms,
        refused,
    };
    start(scope, duty, promise, seat, refused)
}

// Serves the caller's ports. Where there are ports that nobody serves all is to stop.
fn work_alone<'d, R: Wait, D: Disk, M: Marker, T: Port>(
    rt: &R,
    alloc: Global,
    book: &SharedBook<'d, D, M>,
    pass: BookPass<D, M>,
    team: Workers<T>,
    terms: WorkerOptions<'_>,
) -> (BookPass<D, M>, Workers<T>)
    requires homes { book.now.homes ≡ homes_of M.opening.rollout.problem }
    requires policy { M.opening.policy ≡ rank_by book.now.policy.now.answers }
    requires leader { IsLeader book.now.lock M.seats 0 pass.pass pass.calls }
    requires fresh { AreFresh team.own.ports }
    requires alone { team.crews.items ≡ [] }
    requires home { terms.homes.now ≡ homes_of M.opening.rollout.problem }
    requires migration { terms.migration ≡ M.migration }
    requires told { CountsAsHeard T.told terms.migration M.heard }
    ensures led { HasLed T.told M.opening terms.entry.migration terms.entry.homes.now
        terms.entry.rounds book.now.lock 0 pass.pass
        (workers_ports team.own.ports team.own.spare.items team.crews.items) result.0.pass
        result.0.calls
        (workers_ports result.1.own.ports result.1.own.spare.items result.1.crews.items) }
    ensures places { (length result.1.crews.items ≡ length team.crews.items)
        × (vec_capacity result.1.crews ≡ vec_capacity team.crews) }
{
    if !team.own.spare.is_empty() {
        return (book.stop(rt, pass, Cause::Memory).0, team);
    }
    let Workers { own, crews } = team;
    let CallerPorts { ports, spare } = own;
    let WorkerEnd {
        pass,
        ports,
        end: _,
    } = serve(rt, alloc, book, pass, ports, terms);
    let own = CallerPorts { ports, spare };
    (pass, Workers { own, crews })
}

// Where a worker came back that never began all is to stop, since nobody serves its ports.
fn answer_for<'d, R: Wait, D: Disk, M: Marker, T: Port>(
    rt: &R,
    book: &SharedBook<'d, D, M>,
    back: WorkerResult<NotedBook<D, M>, T>,
) -> WorkerResult<NotedBook<D, M>, T>
    requires lock { IsPassOf book.now.lock back.pass.pass }
    requires seat { seat_of_pass back.pass.pass < M.seats }
    requires calls { IsCounted back.pass.calls back.pass.pass }
    ensures lock { IsPassOf book.now.lock result.pass.pass }
    ensures pass { IsSamePass back.pass.pass result.pass.pass }
    ensures answers { Answers M.opening back.end back.pass.pass result.pass.pass }
    ensures ports { result.ports ≡ back.ports }
{
    let WorkerResult { pass, ports, end } = back;
    match end {
        Some(_) => WorkerResult { pass, ports, end },
        None => {
            let (pass, _) = book.stop(rt, pass, Cause::Memory);
            WorkerResult { pass, ports, end }
        }
    }
}

// Joins the pass of a worker that came back to that of the caller, and puts its ports behind those of the
// others.
fn take_in<'d, D: Disk, M: Marker, T: Port + Drop>(
    book: &SharedBook<'d, D, M>,
    pass: BookPass<D, M>,
    back: WorkerResult<NotedBook<D, M>, T>,
    mut team: Workers<T>,
) -> (BookPass<D, M>, Workers<T>)
    requires lock { IsPassOf book.now.lock pass.pass × IsPassOf book.now.lock back.pass.pass }
    requires first { seat_of_pass pass.pass ≡ 0 }
    requires calls { IsCounted pass.calls pass.pass }
    requires place { length team.crews.items < vec_capacity team.crews }
    ensures lock { IsPassOf book.now.lock result.0.pass }
    ensures pass { HasJoined pass.pass back.pass.pass result.0.pass }
    ensures one { Follows seat_of (seats_of pass.pass) (seen_of pass.pass) (seen_of result.0.pass) }
    ensures other { Follows seat_of (seats_of back.pass.pass) (seen_of back.pass.pass)
        (seen_of result.0.pass) }
    ensures calls { IsCounted result.0.calls result.0.pass }
    ensures own { (result.1.own.ports ≡ team.own.ports)
        × (result.1.own.spare.items ≡ team.own.spare.items) }
    ensures crews { result.1.crews.items ≡ team.crews.items ++ back.ports ∷ [] }
    ensures places { vec_capacity result.1.crews ≡ vec_capacity team.crews }
{
    let WorkerResult {
        pass: theirs,
        ports,
        end: _,
    } = back;
    let pass = book.join(pass, theirs);
    team.crews.push_reserved(ports);
    (pass, team)
}
