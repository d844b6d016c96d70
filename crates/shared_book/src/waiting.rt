//! Waiting for work: the lock is taken for a look alone, and the sleep between two looks is outside it.
ghost use Rattle.std.specs.Prelude.{◌≡◌, ◌+◌, ◌≤◌, Some};
ghost use Rattle.turn_lock.specs.Passes.{IsPassOf, IsSamePass, seat_of_pass, seats_of, seen_of};
ghost use Rattle.shared_book.specs.Calls.{IsCounted};
ghost use Rattle.shared_book.specs.Homes.{homes_of};
ghost use Rattle.shared_book.specs.Told.{noted_count};
ghost use Rattle.shared_book.specs.Waking.{wake_notes, IsLookCall};

use crate::Wake;
use crate::locked_book::{CallPass, LockedBook};
use crate::marker::Marker;
use crate::noted_book::NotedBook;
use disk_model::Disk;
use order_policy::Policy;
use std::sync::Wait;

impl<'d, D: Disk, M: Marker> LockedBook<NotedBook<D, M>, &'d Policy> {
    /// Waits until an operation of these switches is in flight, all is settled, nothing is in flight, or a
    /// stop stands in the history, and tells which. It sleeps while the history is as long as at its last
    /// look; only that one is noted.
    pub fn wait_work<R: Wait>(
        &self,
        rt: &R,
        mut pass: CallPass<NotedBook<D, M>>,
        switches: &[u32],
    ) -> (CallPass<NotedBook<D, M>>, Wake)
        requires lock { IsPassOf self.now.lock pass.pass }
        requires homes { self.now.homes ≡ homes_of M.opening.rollout.problem }
        requires calls { IsCounted pass.calls pass.pass }
        ensures lock { IsPassOf self.now.lock result.0.pass }
        ensures pass { IsSamePass pass.pass result.0.pass }
        ensures calls { IsCounted result.0.calls result.0.pass }
        ensures call { IsLookCall M.opening (seats_of pass.pass) (seat_of_pass pass.pass)
            (seen_of pass.pass) switches.now (Some result.1) (seen_of result.0.pass) }
    {
        for _ in rt.forever() {
            let (looked, woken) = self.look(rt, pass, switches);
            if let Some(woken) = woken {
                return (looked, woken);
            }
            self.lock.wait_past(rt, &looked.pass);
            pass = looked;
        }
        unreachable!()
    }

    /// Looks once, as [`NotedBook::look`] does in this pass's turn: what a wait would end with now, or none where it
    /// would go on, and then nothing is noted.
    pub fn look<R: Wait>(
        &self,
        rt: &R,
        pass: CallPass<NotedBook<D, M>>,
        switches: &[u32],
    ) -> (CallPass<NotedBook<D, M>>, Option<Wake>)
        requires lock { IsPassOf self.now.lock pass.pass }
        requires homes { self.now.homes ≡ homes_of M.opening.rollout.problem }
        requires calls { IsCounted pass.calls pass.pass }
        ensures lock { IsPassOf self.now.lock result.0.pass }
        ensures pass { IsSamePass pass.pass result.0.pass }
        ensures calls { IsCounted result.0.calls result.0.pass }
        ensures call { IsLookCall M.opening (seats_of pass.pass) (seat_of_pass pass.pass)
            (seen_of pass.pass) switches.now result.1 (seen_of result.0.pass) }
    {
        let CallPass { pass, calls } = pass;
        let seat = pass.seat();
        let mut held = self.lock.take(rt, pass);
        let woken = held
            .value()
            .look(self.homes.as_slice(), seat, calls, switches);
        let pass = self.lock.give(held);
        let calls = counted_look(calls, woken, pass.seen());
        (CallPass { pass, calls }, woken)
    }
}

// How many calls were made, with a look that was told this, where there are so many notes.
fn counted_look(calls: u64, woken: Option<Wake>, notes: u64) -> u64
    requires { calls + noted_count (wake_notes woken) ≤ notes }
    ensures { result ≡ calls + noted_count (wake_notes woken) }
{
    match woken {
        None | Some(Wake::Memory) => calls,
        Some(_) => calls + 1,
    }
}
