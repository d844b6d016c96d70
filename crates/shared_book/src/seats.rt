//! How a shared book begins, how seats are given out and taken in, and how it ends.
ghost use Rattle.std.specs.Prelude.{◌≡◌, ◌<◌, length, All, IfErr, IfOk, IsTrue};
ghost use Rattle.order_policy.specs.Answers.{rank_by};
ghost use Rattle.shared_book.specs.Legal.{is_legal_shared};
ghost use Rattle.shared_book.specs.Notes.{first_stop, notes_of};
ghost use Rattle.turn_lock.specs.Histories.{Follows};
ghost use Rattle.turn_lock.specs.Passes.{IsPassOf, IsFirstPass, HasGiven, HasJoined, IsNewPass, given_of, out_of, seat_of_pass, seats_of, seen_of};
ghost use Rattle.shared_book.specs.Calls.{seat_of, IsCounted};
ghost use Rattle.shared_book.specs.Homes.{home_if_any, homes_of};
ghost use Rattle.shared_book.specs.Images.{HasImages, StandsSo, StaysOpened};
ghost use Rattle.shared_book.specs.Lasting.{AllHeard};
ghost use Rattle.shared_book.specs.Opened.{IsClosed, IsOpenedOn};

use crate::homes::{home_in, homes};
use crate::locked_book::{CallPass, LockedBook};
use crate::marker::Marker;
use crate::noted_book::NotedBook;
use crate::{Halt, NoteList};
use disk_model::Disk;
use order_policy::Policy;
use rollout_book::Book;
use std::alloc::Global;
use turn_lock::{Counted, TurnLock};

impl<V: Counted> CallPass<V> {
    /// How many notes it has seen.
    pub fn seen(&self) -> u64
        ensures { result ≡ length (seen_of self.now.pass) }
    {
        self.pass.seen()
    }

    pub fn seat(&self) -> u32
        ensures { result ≡ seat_of_pass self.now.pass }
    {
        self.pass.seat()
    }

    /// For the pass of seat 0: how many seats were made, its own included.
    pub fn given(&self) -> u32
        ensures { result ≡ given_of self.now.pass }
    {
        self.pass.given()
    }

    /// For the pass of seat 0: how many seats were split off and not yet joined.
    pub fn out(&self) -> u32
        ensures { result ≡ out_of self.now.pass }
    {
        self.pass.out()
    }
}

impl<'d, D: Disk, M: Marker> LockedBook<NotedBook<D, M>, &'d Policy> {
    /// Puts a book under a lock, for so many seats, with a place for the stop of each. The pass is that of
    /// seat 0. The book comes back where memory runs out.
    pub fn new(
        alloc: Global,
        book: Book<'d, D>,
        seats: u32,
    ) -> Result<
        (
            LockedBook<NotedBook<D, M>, &'d Policy>,
            CallPass<NotedBook<D, M>>,
        ),
        Book<'d, D>,
    >
        requires opened { IsOpenedOn D.told M.opening M.moment M.faults book.chronicle }
        requires stood { StandsSo M.stood (D.told book.chronicle.disk) }
        requires policy { M.opening.policy ≡ rank_by book.policy.now.answers }
        requires seats { M.seats ≡ seats }
        ensures lock { IfOk result (λ r. IsPassOf r.0.lock r.1.pass × IsFirstPass r.1.pass) }
        ensures calls { IfOk result (λ r. IsCounted r.1.calls r.1.pass) }
        ensures policy { IfOk result (λ r. M.opening.policy ≡ rank_by r.0.policy.now.answers) }
        ensures homes { IfOk result (λ r. r.0.homes ≡ homes_of M.opening.rollout.problem) }
        ensures err { IfErr result
            (λ back. (back.chronicle ≡ book.entry.chronicle)
            × (back.policy.now ≡ book.entry.policy.now)) }
    {
        let Ok(homes) = homes(alloc, book.chronicle.graph().plan()) else {
            return Err(book);
        };
        let Book { chronicle, policy } = book;
        match NotedBook::first(alloc, chronicle, seats) {
            Ok(kept) => match TurnLock::new(alloc, kept) {
                Ok((lock, pass)) => Ok((
                    LockedBook {
                        lock,
                        policy,
                        homes,
                    },
                    CallPass { pass, calls: 0 },
                )),
                Err(kept) => Err(Book {
                    chronicle: kept.into_parts().0,
                    policy,
                }),
            },
            Err(chronicle) => Err(Book { chronicle, policy }),
        }
    }

    /// The switch that applies an item's operations; none of an item that doesn't exist or is a flow without
    /// tunnels. It takes neither the lock nor memory.
    pub fn home(&self, item: u32) -> Option<u32>
        requires { self.now.homes ≡ homes_of M.opening.rollout.problem }
        ensures { result ≡ home_if_any M.opening.rollout.problem item }
    {
        home_in(self.homes.as_slice(), item)
    }

    /// The switches that apply the operations of all items, by number.
    pub fn homes(&self) -> &[Option<u32>]
        ensures { result.now ≡ self.now.homes }
    {
        self.homes.as_slice()
    }

    /// Splits the next seat off the pass of seat 0. Both passes have seen what the one had, and the second
    /// has made no call.
    pub fn split(
        &self,
        pass: CallPass<NotedBook<D, M>>,
    ) -> (CallPass<NotedBook<D, M>>, CallPass<NotedBook<D, M>>)
        requires lock { IsPassOf self.now.lock pass.pass }
        requires first { seat_of_pass pass.pass ≡ 0 }
        requires calls { IsCounted pass.calls pass.pass }
        requires room { given_of pass.pass < 4294967295 }
        requires seats { given_of pass.pass < M.seats }
        ensures lock { IsPassOf self.now.lock result.0.pass × IsPassOf self.now.lock result.1.pass }
        ensures first { HasGiven pass.pass result.0.pass }
        ensures second { IsNewPass pass.pass result.1.pass }
        ensures no_call { result.1.calls ≡ 0 }
        ensures calls { IsCounted result.0.calls result.0.pass
            × IsCounted result.1.calls result.1.pass }
        ensures below { seat_of_pass result.1.pass < M.seats }
    {
        let CallPass { pass, calls } = pass;
        let (first, second) = self.lock.split(pass);
        (
            CallPass { pass: first, calls },
            CallPass {
                pass: second,
                calls: 0,
            },
        )
    }

    /// Takes another pass into that of seat 0, which keeps the longer of what the two have seen.
    pub fn join(
        &self,
        one: CallPass<NotedBook<D, M>>,
        other: CallPass<NotedBook<D, M>>,
    ) -> CallPass<NotedBook<D, M>>
        requires lock { IsPassOf self.now.lock one.pass × IsPassOf self.now.lock other.pass }
        requires first { seat_of_pass one.pass ≡ 0 }
        requires calls { IsCounted one.calls one.pass }
        ensures lock { IsPassOf self.now.lock result.pass }
        ensures pass { HasJoined one.pass other.pass result.pass }
        ensures one { Follows seat_of (seats_of one.pass) (seen_of one.pass) (seen_of result.pass) }
        ensures other { Follows seat_of (seats_of other.pass) (seen_of other.pass)
            (seen_of result.pass) }
        ensures calls { IsCounted result.calls result.pass }
    {
        let CallPass { pass, calls } = one;
        let CallPass {
            pass: other,
            calls: _,
        } = other;
        CallPass {
            pass: self.lock.join(pass, other),
            calls,
        }
    }

    /// The book, the notes and the first stop among them, once all seats were joined: those of the history that
    /// the pass has seen.
    pub fn close(self, pass: CallPass<NotedBook<D, M>>) -> (Book<'d, D>, NoteList, Option<Halt>)
        requires lock { IsPassOf self.lock pass.pass }
        requires first { seat_of_pass pass.pass ≡ 0 }
        requires all_in { out_of pass.pass ≡ 0 }
        ensures legal { IsTrue (is_legal_shared M.opening (seen_of pass.pass)) }
        ensures notes { result.1.items ≡ notes_of (seen_of pass.pass) }
        ensures halt { result.2 ≡ first_stop (seen_of pass.pass) }
        ensures book { IsClosed M.opening (seen_of pass.pass) result.0.chronicle }
        ensures images { HasImages D.told M.opening M.moment M.faults result.0.chronicle.disk
            (seen_of pass.pass) }
        ensures heard { AllHeard M.heard (seen_of pass.pass) }
        ensures stays { StaysOpened D.told M.opening M.stood result.0.chronicle.disk }
        ensures policy { result.0.policy.now ≡ self.entry.policy.now }
        ensures made { All (λ w. seat_of w < given_of pass.pass) (seen_of pass.pass) }
    {
        let CallPass { pass, calls: _ } = pass;
        let LockedBook {
            lock,
            policy,
            homes: _,
        } = self;
        let (chronicle, notes, halt) = lock.close(pass).into_parts();
        (Book { chronicle, policy }, notes, halt)
    }
}
