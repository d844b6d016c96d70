//! A worker that may run in a thread of its own.
ghost use Rattle.std.specs.Prelude.{◌≡◌, ◌<◌, All, IsTrue};
ghost use Rattle.order_policy.specs.Answers.{rank_by};
ghost use Rattle.turn_lock.specs.Passes.{IsPassOf, seat_of_pass};
ghost use Rattle.shared_book.specs.Calls.{IsCounted};
ghost use Rattle.shared_book.specs.Homes.{homes_of};
ghost use Rattle.shared_book.specs.Lasting.{CountsAsHeard};
ghost use Rattle.controller_run.specs.Workers.{HasReturned};

use crate::job::Job;
use crate::{WorkerEnd, WorkerOptions, serve};
use disk_model::Disk;
use shared_book::{CallPass, Marker, NotedBook, SharedBook, Wake};
use std::alloc::Global;
use std::snapshot::Snapshot;
use std::sync::Wait;
use std::sync::atomic::{AtomicU32, Ordering};
use std::thread::Promise;
use switch_ports::WorkerPorts;
use turn_lock::Counted;
use wan_edge::Port;

/// A worker before its first round: the right of its seat to call, and its ports.
#[derive(Drop)]
pub(crate) struct Worker<V: Counted, T: Port> {
    pub pass: CallPass<V>,
    pub ports: WorkerPorts<T>,
}

/// What a worker is to do, with all that the workers of a run share. Where its seat is the one that was
/// refused no thread was started for it.
#[derive(Drop)]
pub(crate) struct WorkerJob<'s, 't, R, B, V: Counted, T: Port> {
    pub rt: &'s R,
    pub alloc: Global,
    pub book: &'s B,
    pub crew: Worker<V, T>,
    pub terms: WorkerOptions<'t>,
    pub refused: &'s AtomicU32,
}

/// A worker that came back: its pass, its ports, and why it ended. There is no reason where it never began.
#[derive(Drop)]
pub(crate) struct WorkerResult<V: Counted, T: Port> {
    pub pass: CallPass<V>,
    pub ports: WorkerPorts<T>,
    pub end: Option<Wake>,
}

/// What a thread promises: that the worker has served by these terms, or that it is as it was given.
#[derive(Drop)]
pub(crate) struct WorkerPromise<'t, V: Counted, T: Port> {
    pub given: Snapshot<Worker<V, T>>,
    pub terms: WorkerOptions<'t>,
}

impl<'t, D: Disk, M: Marker, T: Port> Promise<WorkerResult<NotedBook<D, M>, T>>
    for WorkerPromise<'t, NotedBook<D, M>, T> {
    ghost kept_by = { λ p back. HasReturned T.told M.opening p.terms.migration p.terms.homes.now
        p.terms.rounds p.given.value.pass.pass p.given.value.ports back.pass.pass back.pass.calls
        back.end back.ports };
}

/// A worker serves its ports, unless its thread was refused: then it hands all back at once.
impl<'s, 't, 'd, R: Wait, D: Disk, M: Marker, T: Port> Job
    for WorkerJob<'s, 't, R, SharedBook<'d, D, M>, NotedBook<D, M>, T> {
    type Output = WorkerResult<NotedBook<D, M>, T>;

    ghost may_begin = { λ d. IsPassOf d.book.now.lock d.crew.pass.pass
        × (d.book.now.homes ≡ homes_of M.opening.rollout.problem)
        × (M.opening.policy ≡ rank_by d.book.now.policy.now.answers)
        × IsCounted d.crew.pass.calls d.crew.pass.pass
        × (seat_of_pass d.crew.pass.pass < M.seats)
        × All (λ s. IsTrue s.stream.live) d.crew.ports
        × (d.terms.homes.now ≡ homes_of M.opening.rollout.problem)
        × (d.terms.migration ≡ M.migration)
        × CountsAsHeard T.told d.terms.migration M.heard };

    ghost may_leave = { λ d back. HasReturned T.told M.opening d.terms.migration d.terms.homes.now
        d.terms.rounds d.crew.pass.pass d.crew.ports back.pass.pass back.pass.calls back.end
        back.ports };

    fn run(self) -> WorkerResult<NotedBook<D, M>, T> {
        let WorkerJob {
            rt,
            alloc,
            book,
            crew,
            terms,
            refused,
        } = self;
        let Worker { pass, ports } = crew;
        if refused.load(Ordering::Relaxed) == pass.seat() {
            return WorkerResult {
                pass,
                ports,
                end: None,
            };
        }
        let WorkerEnd { pass, ports, end } = serve(rt, alloc, book, pass, ports, terms);
        WorkerResult {
            pass,
            ports,
            end: Some(end),
        }
    }
}
