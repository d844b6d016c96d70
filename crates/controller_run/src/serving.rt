//! A worker, from its first round to its last.
ghost use Rattle.std.specs.Prelude.{◌≡◌, ◌+◌, ◌<◌, if◌then◌else◌, All, IsTrue, true};
ghost use Rattle.order_policy.specs.Answers.{rank_by};
ghost use Rattle.turn_lock.specs.Passes.{IsPassOf, IsSamePass, seat_of_pass, seats_of, seen_of};
ghost use Rattle.shared_book.specs.Calls.{IsCounted};
ghost use Rattle.shared_book.specs.Homes.{homes_of};
ghost use Rattle.shared_book.specs.Lasting.{CountsAsHeard};
ghost use Rattle.controller_run.specs.Serving.{Served};

use crate::round_end::RoundEnd;
use crate::working::{WorkerOptions, work};
use disk_model::Disk;
use shared_book::{BookPass, CallPass, Marker, NotedBook, SharedBook, Wake};
use std::alloc::Global;
use std::sync::Wait;
use switch_ports::WorkerPorts;
use turn_lock::Counted;
use wan_edge::Port;

/// What is left of a worker: its pass, its ports, and why it ended, which is never work.
pub struct WorkerEnd<V: Counted, T: Port> {
    pub pass: CallPass<V>,
    pub ports: WorkerPorts<T>,
    pub end: Wake,
}

/// Works in rounds until nothing is left to do or all is stopped. Where commands were offered in as many
/// rounds as the terms give, none of its switches is late, and an operation of theirs is in flight still, it
/// asks that all stop; so it does where a port fails or tells what it may not, where an answer is refused, where the disk fails and
/// where memory runs out.
pub fn serve<'d, R: Wait, D: Disk, M: Marker, T: Port>(
    rt: &R,
    alloc: Global,
    book: &SharedBook<'d, D, M>,
    mut pass: BookPass<D, M>,
    mut ports: WorkerPorts<T>,
    terms: WorkerOptions<'_>,
) -> WorkerEnd<NotedBook<D, M>, T>
    requires lock { IsPassOf book.now.lock pass.pass }
    requires homes { book.now.homes ≡ homes_of M.opening.rollout.problem }
    requires policy { M.opening.policy ≡ rank_by book.now.policy.now.answers }
    requires calls { IsCounted pass.calls pass.pass }
    requires seat { seat_of_pass pass.pass < M.seats }
    requires live { All (λ s. IsTrue s.stream.live) ports }
    requires home { terms.homes.now ≡ homes_of M.opening.rollout.problem }
    requires migration { terms.migration ≡ M.migration }
    requires told { CountsAsHeard T.told terms.migration M.heard }
    ensures lock { IsPassOf book.now.lock result.pass.pass }
    ensures pass { IsSamePass pass.pass result.pass.pass }
    ensures calls { IsCounted result.pass.calls result.pass.pass }
    ensures served { Served T.told M.opening (seats_of pass.pass) (seat_of_pass pass.pass)
        terms.entry.migration terms.entry.homes.now terms.entry.rounds
        (record { seen = seen_of pass.pass; ports = ports }) result.end
        (record { seen = seen_of result.pass.pass; ports = result.ports }) }
{
    let mut left = terms.rounds;
    for _ in rt.forever() {
        let (next, outcome) = work(rt, alloc, book, pass, &mut ports, terms, left);
        match outcome {
            RoundEnd::Whole { offered } => {
                pass = next;
                left = left_behind(left, offered);
            }
            RoundEnd::Ended(end) => {
                return WorkerEnd {
                    pass: next,
                    ports,
                    end,
                };
            }
            RoundEnd::Stops(cause) => {
                let (pass, halt) = book.stop(rt, next, cause);
                return WorkerEnd {
                    pass,
                    ports,
                    end: Wake::Stopped(halt),
                };
            }
        }
    }
    unreachable!()
}

// How many rounds are left after one in which commands were offered or not.
fn left_behind(left: u32, offered: bool) -> u32
    requires some { offered ≡ true → 0 < left }
    ensures { left ≡ result + (if offered then 1 else 0) }
{
    if offered { left - 1 } else { left }
}
