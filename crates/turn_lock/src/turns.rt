//! Taking the value out in one's turn, and giving it back.
ghost use Rattle.std.specs.Prelude.{◌≡◌, ◌%◌, ◌^◌, [], ◌∷◌, IfOk, IfErr, Some};
ghost use Rattle.turn_lock.specs.Tickets.{ticket_of};
ghost use Rattle.turn_lock.specs.Histories.{Follows, GoesOn};
ghost use Rattle.turn_lock.specs.Steps.{Waits, Turned};
ghost use Rattle.turn_lock.specs.Passes.{IsPassOf, IsHeldOf, seen_of, seats_of, taken_of, holder_of, IsFirstPass, IsOutWith};

use crate::counted::Counted;
use crate::held::{Grip, Held};
use crate::lock::TurnLock;
use crate::pass::Pass;
use crate::steps::{Count, Draw, Look, PassTurn};
use crate::view::View;
use atomic_table::{Refused, Seat, Table};
use std::alloc::{AllocFailed, Global};
use std::sync::Wait;

// The table's words: the next ticket, the ticket whose turn it is, and how many entries the history has.
const NEXT: usize = 0;

const TURN: usize = 1;

const ENTRIES: usize = 2;

impl<V: Counted> TurnLock<V> {
    /// A lock round a value with no history yet, and the pass of seat 0. The value comes back where memory runs out.
    pub fn new(alloc: Global, value: V) -> Result<(TurnLock<V>, Pass<V>), V>
        requires { V.history value ≡ [] }
        ensures ok { IfOk result (λ r. IsPassOf r.0 r.1 × IsFirstPass r.1) }
        ensures err { IfErr result (λ v. v ≡ value) }
    {
        let mut slots = Vec::new(alloc);
        if let Err(failed) = slots.push(Some(value)) {
            let AllocFailed { value } = failed;
            slots.destroy_empty();
            let Some(value) = value else { unreachable!() };
            return Err(value);
        }
        match Table::new(alloc, &[0, 0, 0], slots, &()) {
            Ok((table, place)) => {
                let pass = Pass {
                    place,
                    seat: 0,
                    seen: 0,
                    given: 1,
                    out: 0,
                };
                Ok((TurnLock { table }, pass))
            }
            Err(Refused { slots }) => Err(only(slots)),
        }
    }

    /// Waits for its turn, and takes the value out.
    pub fn take<R: Wait>(&self, rt: &R, pass: Pass<V>) -> Held<V>
        requires { IsPassOf self.now pass }
        ensures lock { IsHeldOf self.now result }
        ensures pass { IsOutWith pass result }
        ensures history { Follows V.seat_of (seats_of pass) (seen_of pass) (taken_of result) }
        ensures value { V.history result.value ≡ taken_of result }
    {
        let Pass {
            mut place,
            seat,
            seen: _,
            given,
            out,
        } = pass;
        let ticket = self.table.shared.fetch_add::<Draw>(&mut place, NEXT, 1);
        self.wait(rt, &mut place, ticket);
        let Some(value) = self.table.shared.exchange(&mut place, 0, None) else {
            unreachable!()
        };
        let taken = value.count();
        Held {
            grip: Grip {
                place,
                seat,
                taken,
                given,
                out,
            },
            value,
        }
    }

    /// Sleeps until the history is no longer as long as what the pass has seen. The pass knows no more for
    /// it; the next `take` shows what came.
    pub fn wait_past<R: Wait>(&self, rt: &R, pass: &Pass<V>)
        requires { IsPassOf self.now pass.now }
    {
        let shared = &self.table.shared;
        for _ in rt.forever() {
            let entries = shared.peek(ENTRIES);
            if entries != pass.seen {
                return;
            }
            shared.park(rt, ENTRIES, (entries & 0xffff_ffff) as u32);
        }
        unreachable!()
    }

    // Looks until the turn is the ticket's. It sleeps while the turn is another's.
    fn wait<R: Wait>(&self, rt: &R, place: &mut Seat<Option<V>, View<V::Entry>>, ticket: u64)
        requires table { place.old.table_id ≡ self.now.table.shared.table_id }
        requires waits { Waits ticket place.old.me }
        ensures table { place.new.table_id ≡ place.old.table_id }
        ensures turned { Turned V.history V.seat_of place.old.me place.new.me }
    {
        let shared = &self.table.shared;
        for _ in rt.forever() {
            let turn = shared.load::<Look<V>>(place, TURN);
            if turn == ticket {
                return;
            }
            shared.park(rt, TURN, (turn & 0xffff_ffff) as u32);
        }
        unreachable!()
    }

    /// Puts the value back, and passes the turn. The value's history is the one that was taken, and then
    /// entries of this seat alone.
    pub fn give(&self, held: Held<V>) -> Pass<V>
        requires lock { IsHeldOf self.now held }
        requires history { GoesOn V.seat_of (holder_of held) (taken_of held)
            (V.history held.value) }
        ensures lock { IsPassOf self.now result }
        ensures pass { IsOutWith result held }
        ensures seen { seen_of result ≡ V.history held.value }
    {
        let Held { grip, value } = held;
        let Grip {
            mut place,
            seat,
            taken,
            given,
            out,
        } = grip;
        let seen = value.count();
        let shared = &self.table.shared;
        match shared.exchange(&mut place, 0, Some(value)) {
            None => {}
            Some(_other) => unreachable!(),
        }
        shared.fetch_add::<Count<V>>(&mut place, ENTRIES, seen - taken);
        let turn = shared.fetch_add::<PassTurn>(&mut place, TURN, 1);
        // Who draws a ticket after this look finds the new turn, so only one drawn before may be asleep. One
        // wake alone could reach a pass whose turn it isn't.
        if shared.peek(NEXT) != turn.wrapping_add(1) {
            shared.wake_all(TURN);
        }
        // Who sleeps until there is more looked at the number of entries before the count above, since a sleep
        // on a number that has changed isn't begun: so all of them are asleep or on their way to look again.
        if seen != taken {
            shared.wake_all(ENTRIES);
        }
        Pass {
            place,
            seat,
            seen,
            given,
            out,
        }
    }
}

// The value of the one slot.
fn only<V>(mut slots: Vec<Option<V>>) -> V
    requires { (value : V) × (slots.items ≡ Some value ∷ []) }
    ensures { slots.items ≡ Some result ∷ [] }
{
    let Some(Some(value)) = slots.pop() else {
        unreachable!()
    };
    slots.destroy_empty();
    value
}
