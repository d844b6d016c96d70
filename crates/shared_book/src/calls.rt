//! The calls of a shared book: each takes a turn at the lock, and makes its call of what lies there.
ghost use Rattle.std.specs.Prelude.{◌≡◌, ◌+◌, ◌-◌, ◌<◌, ◌≤◌, ◌++◌};
ghost use Rattle.order_policy.specs.Answers.{rank_by};
ghost use Rattle.rollout_book.specs.Aliens.{told_by};
ghost use Rattle.turn_lock.specs.Passes.{IsPassOf, IsSamePass, seat_of_pass, seats_of, seen_of};
ghost use Rattle.shared_book.specs.Calls.{IsCounted, IsListCall, IsRoundCall, IsStopCall};
ghost use Rattle.shared_book.specs.Lasting.{CountsAsHeard};
ghost use Rattle.shared_book.specs.Told.{list_notes, noted_count, round_notes};

use crate::listed::Listed;
use crate::locked_book::{CallPass, LockedBook};
use crate::marker::Marker;
use crate::noted_book::NotedBook;
use crate::reply::RoundReply;
use crate::{Cause, Halt, ListReply};
use disk_model::Disk;
use order_policy::Policy;
use port_session::PortAnswers;
use std::alloc::Global;
use std::sync::Wait;
use turn_lock::Counted;
use wan_edge::Port;

impl<'d, D: Disk, M: Marker> LockedBook<NotedBook<D, M>, &'d Policy> {
    /// A round, as [`NotedBook::round`] makes it in this pass's turn. Its answers are those that ports have told.
    pub fn round<R: Wait, T: Port>(
        &self,
        rt: &R,
        pass: CallPass<NotedBook<D, M>>,
        heard: PortAnswers<T>,
    ) -> (CallPass<NotedBook<D, M>>, RoundReply)
        requires lock { IsPassOf self.now.lock pass.pass }
        requires policy { M.opening.policy ≡ rank_by self.now.policy.now.answers }
        requires calls { IsCounted pass.calls pass.pass }
        requires told { CountsAsHeard T.told heard.migration M.heard }
        ensures lock { IsPassOf self.now.lock result.0.pass }
        ensures pass { IsSamePass pass.pass result.0.pass }
        ensures calls { IsCounted result.0.calls result.0.pass }
        ensures call { IsRoundCall M.opening (seats_of pass.pass) (seat_of_pass pass.pass)
            (seen_of pass.pass) (told_by heard.answers) result.1 (seen_of result.0.pass) }
    {
        let CallPass { pass, calls } = pass;
        let seat = pass.seat();
        let told = heard.answers();
        let mut held = self.lock.take(rt, pass);
        let reply = held.value().round(self.policy, seat, calls, told);
        let pass = self.lock.give(held);
        let calls = counted_round(calls, reply, pass.seen());
        (CallPass { pass, calls }, reply)
    }

    /// Lists commands, as [`NotedBook::commands`] does in this pass's turn.
    pub fn commands<R: Wait>(
        &self,
        rt: &R,
        alloc: Global,
        pass: CallPass<NotedBook<D, M>>,
        switches: &[u32],
        out: &mut Listed<D, M>,
    ) -> (CallPass<NotedBook<D, M>>, ListReply)
        requires lock { IsPassOf self.now.lock pass.pass }
        requires calls { IsCounted pass.calls pass.pass }
        ensures lock { IsPassOf self.now.lock result.0.pass }
        ensures pass { IsSamePass pass.pass result.0.pass }
        ensures calls { IsCounted result.0.calls result.0.pass }
        ensures call { IsListCall M.opening (seats_of pass.pass) (seat_of_pass pass.pass)
            (seen_of pass.pass) switches.now out.old out.new result.1 (seen_of result.0.pass) }
    {
        let CallPass { pass, calls } = pass;
        let seat = pass.seat();
        let mut held = self.lock.take(rt, pass);
        let reply = held.value().commands(alloc, seat, calls, switches, out);
        let pass = self.lock.give(held);
        let calls = counted_list(calls, reply, pass.seen());
        (CallPass { pass, calls }, reply)
    }

    /// Asks that all stop, as [`NotedBook::stop`] does in this pass's turn. It takes no memory.
    pub fn stop<R: Wait>(
        &self,
        rt: &R,
        pass: CallPass<NotedBook<D, M>>,
        cause: Cause,
    ) -> (CallPass<NotedBook<D, M>>, Halt)
        requires lock { IsPassOf self.now.lock pass.pass }
        requires seat { seat_of_pass pass.pass < M.seats }
        requires calls { IsCounted pass.calls pass.pass }
        ensures lock { IsPassOf self.now.lock result.0.pass }
        ensures pass { IsSamePass pass.pass result.0.pass }
        ensures calls { IsCounted result.0.calls result.0.pass }
        ensures call { IsStopCall M.opening (seats_of pass.pass) (seat_of_pass pass.pass)
            (seen_of pass.pass) cause result.1 (seen_of result.0.pass) }
    {
        let CallPass { pass, calls } = pass;
        let seat = pass.seat();
        let mut held = self.lock.take(rt, pass);
        let before = held.value().count();
        let halt = held.value().stop(seat, calls, cause);
        let pass = self.lock.give(held);
        let calls = counted_stop(calls, before, pass.seen());
        (CallPass { pass, calls }, halt)
    }
}

// How many calls were made, with a round that was told this, where there are so many notes.
fn counted_round(calls: u64, reply: RoundReply, notes: u64) -> u64
    requires { calls + noted_count (round_notes reply) ≤ notes }
    ensures { result ≡ calls + noted_count (round_notes reply) }
{
    match reply {
        RoundReply::Memory => calls,
        _ => calls + 1,
    }
}

// The same with a stop, before which there were fewer.
fn counted_stop(calls: u64, before: u64, notes: u64) -> u64
    requires before { before ≤ notes }
    requires calls { calls + (notes - before) ≤ notes }
    ensures { result ≡ calls + (notes - before) }
{
    calls + (notes - before)
}

// The same with a call that lists.
fn counted_list(calls: u64, reply: ListReply, notes: u64) -> u64
    requires { calls + noted_count (list_notes reply) ≤ notes }
    ensures { result ≡ calls + noted_count (list_notes reply) }
{
    match reply {
        ListReply::Memory => calls,
        _ => calls + 1,
    }
}
