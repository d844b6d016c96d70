//! Giving seats out and taking them in, and the end of the lock.
ghost use Rattle.std.specs.Prelude.{◌≡◌, ◌<◌, length, All};
ghost use Rattle.turn_lock.specs.Histories.{Follows};
ghost use Rattle.turn_lock.specs.Passes.{IsPassOf, seen_of, seat_of_pass, given_of, out_of, seats_of, HasGiven, IsNewPass, HasJoined};

use crate::counted::Counted;
use crate::lock::TurnLock;
use crate::pass::Pass;
use crate::steps::{Give, Settle, TakeIn};

impl<V: Counted> Pass<V> {
    /// How many entries of the history it has seen.
    pub fn seen(&self) -> u64
        ensures { result ≡ length (seen_of self.now) }
    {
        self.seen
    }

    pub fn seat(&self) -> u32
        ensures { result ≡ seat_of_pass self.now }
    {
        self.seat
    }

    /// For the pass of seat 0: how many seats were made, its own included.
    pub fn given(&self) -> u32
        ensures { result ≡ given_of self.now }
    {
        self.given
    }

    /// For the pass of seat 0: how many seats were split off and not yet joined.
    pub fn out(&self) -> u32
        ensures { result ≡ out_of self.now }
    {
        self.out
    }
}

impl<V: Counted> TurnLock<V> {
    /// Splits the next seat off the pass of seat 0. Both passes have seen what the one had, in which there is
    /// nothing of the new seat.
    pub fn split(&self, pass: Pass<V>) -> (Pass<V>, Pass<V>)
        requires lock { IsPassOf self.now pass }
        requires first { seat_of_pass pass ≡ 0 }
        requires room { given_of pass < 4294967295 }
        ensures lock { IsPassOf self.now result.0 × IsPassOf self.now result.1 }
        ensures first { HasGiven pass result.0 }
        ensures second { IsNewPass pass result.1 }
        ensures made { All (λ e. V.seat_of e < given_of pass) (seen_of pass) }
    {
        let Pass {
            mut place,
            seat,
            seen,
            given,
            out,
        } = pass;
        let shared = &self.table.shared;
        shared.load::<Settle<V>>(&mut place, 0);
        let next = shared.split_seat::<Give>(&mut place);
        let first = Pass {
            place,
            seat,
            seen,
            given: given + 1,
            out: out + 1,
        };
        let second = Pass {
            place: next,
            seat: given,
            seen,
            given: 0,
            out: 0,
        };
        (first, second)
    }

    /// Takes another pass into that of seat 0, which keeps the longer of what the two have seen.
    pub fn join(&self, one: Pass<V>, other: Pass<V>) -> Pass<V>
        requires lock { IsPassOf self.now one × IsPassOf self.now other }
        requires first { seat_of_pass one ≡ 0 }
        ensures lock { IsPassOf self.now result }
        ensures pass { HasJoined one other result }
        ensures one { Follows V.seat_of (seats_of one) (seen_of one) (seen_of result) }
        ensures other { Follows V.seat_of (seats_of other) (seen_of other) (seen_of result) }
    {
        let Pass {
            mut place,
            seat,
            seen,
            given,
            out,
        } = one;
        let Pass {
            place: other_place,
            seat: _,
            seen: other_seen,
            given: _,
            out: _,
        } = other;
        let shared = &self.table.shared;
        shared.join_seat::<TakeIn>(&mut place, other_place);
        shared.load::<Settle<V>>(&mut place, 0);
        Pass {
            place,
            seat,
            seen: seen.max(other_seen),
            given,
            out: out - 1,
        }
    }

    /// The value, once all seats were joined. Its history is what the pass has seen.
    pub fn close(self, pass: Pass<V>) -> V
        requires lock { IsPassOf self pass }
        requires first { seat_of_pass pass ≡ 0 }
        requires all_in { out_of pass ≡ 0 }
        ensures history { V.history result ≡ seen_of pass }
        ensures made { All (λ e. V.seat_of e < given_of pass) (V.history result) }
    {
        let Pass {
            place,
            seat: _,
            seen: _,
            given: _,
            out: _,
        } = pass;
        let TurnLock { table } = self;
        let mut closed = table.close_with(place);
        let slot = closed.take(0);
        closed.free();
        match slot {
            Some(value) => value,
            None => unreachable!(),
        }
    }
}
