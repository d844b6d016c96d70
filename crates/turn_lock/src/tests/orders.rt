//! Three seats of one lock in one thread, in every order in which they can be split off, take a turn each and
//! be joined.
ghost use Rattle.std.specs.Prelude.{◌≡◌};
ghost use Rattle.std.specs.Option.{ForSome};
ghost use Rattle.turn_lock.specs.Passes.{IsPassOf, seat_of_pass};

use super::notes::{Note, Notes, new_lock, turn};
use crate::{Pass, TurnLock};
use std::process::Abort;
use std::sync::Wait;
use std::test::Fail;

/// What is done with a seat, and how many entries its pass has seen after it (at a join, that of seat 0).
#[derive(Clone, Copy, Debug)]
enum Event {
    Split(u32, u64),
    Turn(u32, u64),
    Join(u32, u64),
}

use Event::{Join, Split, Turn};

struct Crew {
    lock: TurnLock<Notes>,
    first: Pass<Notes>,
    second: Option<Pass<Notes>>,
    third: Option<Pass<Notes>>,
    ghost first_of: { IsPassOf lock first },
    ghost first_is: { seat_of_pass first ≡ 0 },
    ghost second_of: { ForSome second (λ pass. IsPassOf lock pass) },
    ghost third_of: { ForSome third (λ pass. IsPassOf lock pass) },
}

impl Crew {
    fn split<R: Abort>(self, rt: &R) -> Crew {
        let Crew {
            lock,
            first,
            second,
            third,
        } = self;
        assert!(rt; first.given() < 3);
        let (first, new) = lock.split(first);
        let (second, third) = if new.seat() == 1 {
            (Some(new), third)
        } else {
            (second, Some(new))
        };
        Crew {
            lock,
            first,
            second,
            third,
        }
    }

    fn turn<R: Wait>(self, rt: &R, seat: u32) -> Crew {
        let Crew {
            lock,
            mut first,
            mut second,
            mut third,
        } = self;
        match seat {
            0 => first = turn(rt, &lock, first, 0),
            1 => second = turn_of(rt, &lock, second),
            _ => third = turn_of(rt, &lock, third),
        }
        Crew {
            lock,
            first,
            second,
            third,
        }
    }

    fn join<R: Abort>(self, rt: &R, seat: u32) -> Crew {
        let Crew {
            lock,
            first,
            second,
            third,
        } = self;
        let (other, second, third) = if seat == 1 {
            (second, None, third)
        } else {
            (third, second, None)
        };
        let first = joined(rt, &lock, first, other);
        Crew {
            lock,
            first,
            second,
            third,
        }
    }

    fn done<R: Abort + Wait>(self, rt: &R, event: Event) -> Crew {
        match event {
            Split(_, _) => self.split(rt),
            Turn(seat, _) => self.turn(rt, seat),
            Join(seat, _) => self.join(rt, seat),
        }
    }

    fn close<R: Abort>(self, rt: &R) -> Notes {
        let Crew {
            lock,
            first,
            second: _,
            third: _,
        } = self;
        assert!(rt; first.given() == 3 && first.out() == 0);
        lock.close(first)
    }

    // Whether the passes answer what they should after the event.
    fn shows(&self, event: Event) -> bool {
        let seen = match event {
            Split(seat, seen) => {
                self.first.given().checked_sub(1) == Some(seat) && self.has_seen(seat, seen)
            }
            Turn(seat, seen) => self.has_seen(seat, seen),
            Join(_, seen) => self.has_seen(0, seen),
        };
        seen && self.first.out() == self.others()
    }

    fn has_seen(&self, seat: u32, seen: u64) -> bool {
        match (seat, &self.second, &self.third) {
            (0, _, _) => self.first.seat() == 0 && self.first.seen() == seen,
            (1, Some(pass), _) => pass.seat() == 1 && pass.seen() == seen,
            (2, _, Some(pass)) => pass.seat() == 2 && pass.seen() == seen,
            _ => false,
        }
    }

    // How many passes there are beside that of seat 0.
    fn others(&self) -> u32 {
        match (&self.second, &self.third) {
            (Some(_), Some(_)) => 2,
            (None, None) => 0,
            _ => 1,
        }
    }
}

fn turn_of<R: Wait>(
    rt: &R,
    lock: &TurnLock<Notes>,
    pass: Option<Pass<Notes>>,
) -> Option<Pass<Notes>>
    requires { ForSome pass (λ p. IsPassOf lock.now p) }
    ensures { ForSome result (λ p. IsPassOf lock.now p) }
{
    Some(turn(rt, lock, pass?, 0))
}

fn joined<R: Abort>(
    rt: &R,
    lock: &TurnLock<Notes>,
    first: Pass<Notes>,
    other: Option<Pass<Notes>>,
) -> Pass<Notes>
    requires lock { IsPassOf lock.now first × ForSome other (λ p. IsPassOf lock.now p) }
    requires first { seat_of_pass first ≡ 0 }
    ensures lock { IsPassOf lock.now result }
    ensures first { seat_of_pass result ≡ 0 }
{
    let other = other.expect(rt, "the pass is there");
    lock.join(first, other)
}

fn played<R: Abort + Wait>(rt: &R, mut crew: Crew, events: &[Event]) -> Notes {
    for event in events {
        crew = crew.done(rt, *event);
        assert!(rt; crew.shows(*event), "{event:?} in {events:?}");
    }
    crew.close(rt)
}

// The notes are those of the turns, in the order of the turns.
fn are_turns(notes: &Notes, events: &[Event]) -> bool {
    let turns = events.iter().filter_map(|event| match *event {
        Turn(seat, _) => Some(Note { seat, number: 0 }),
        _ => None,
    });
    turns.eq(notes.list.iter().copied())
}

#[test]
fn every_order_of_three_seats_makes_the_history_of_its_turns(rt: HostRuntime) -> Result<(), Fail> {
    for events in &ORDERS {
        let Some((lock, first)) = new_lock(rt.alloc()) else {
            return Err(Fail::new("memory ran out"));
        };
        let crew = Crew {
            lock,
            first,
            second: None,
            third: None,
        };
        let notes = played(&rt, crew, events);
        assert!(rt; are_turns(&notes, events), "{events:?}");
    }
    Ok(())
}

// A new pass has seen what that of seat 0 had, a turn shows all that there was, and a join keeps the longer.
#[rattlefmt::skip]
const ORDERS: [[Event; 7]; 70] = [
    [Split(1, 0), Split(2, 0), Turn(0, 1), Turn(1, 2), Turn(2, 3), Join(1, 2), Join(2, 3)],
    [Split(1, 0), Split(2, 0), Turn(0, 1), Turn(1, 2), Turn(2, 3), Join(2, 3), Join(1, 3)],
    [Split(1, 0), Split(2, 0), Turn(0, 1), Turn(2, 2), Turn(1, 3), Join(1, 3), Join(2, 3)],
    [Split(1, 0), Split(2, 0), Turn(0, 1), Turn(2, 2), Turn(1, 3), Join(2, 2), Join(1, 3)],
    [Split(1, 0), Split(2, 0), Turn(1, 1), Turn(0, 2), Turn(2, 3), Join(1, 2), Join(2, 3)],
    [Split(1, 0), Split(2, 0), Turn(1, 1), Turn(0, 2), Turn(2, 3), Join(2, 3), Join(1, 3)],
    [Split(1, 0), Split(2, 0), Turn(1, 1), Turn(2, 2), Turn(0, 3), Join(1, 3), Join(2, 3)],
    [Split(1, 0), Split(2, 0), Turn(1, 1), Turn(2, 2), Turn(0, 3), Join(2, 3), Join(1, 3)],
    [Split(1, 0), Split(2, 0), Turn(2, 1), Turn(0, 2), Turn(1, 3), Join(1, 3), Join(2, 3)],
    [Split(1, 0), Split(2, 0), Turn(2, 1), Turn(0, 2), Turn(1, 3), Join(2, 2), Join(1, 3)],
    [Split(1, 0), Split(2, 0), Turn(2, 1), Turn(1, 2), Turn(0, 3), Join(1, 3), Join(2, 3)],
    [Split(1, 0), Split(2, 0), Turn(2, 1), Turn(1, 2), Turn(0, 3), Join(2, 3), Join(1, 3)],
    [Split(1, 0), Split(2, 0), Turn(0, 1), Turn(1, 2), Join(1, 2), Turn(2, 3), Join(2, 3)],
    [Split(1, 0), Split(2, 0), Turn(0, 1), Turn(2, 2), Join(2, 2), Turn(1, 3), Join(1, 3)],
    [Split(1, 0), Split(2, 0), Turn(1, 1), Join(1, 1), Turn(0, 2), Turn(2, 3), Join(2, 3)],
    [Split(1, 0), Split(2, 0), Turn(1, 1), Join(1, 1), Turn(2, 2), Join(2, 2), Turn(0, 3)],
    [Split(1, 0), Split(2, 0), Turn(1, 1), Join(1, 1), Turn(2, 2), Turn(0, 3), Join(2, 3)],
    [Split(1, 0), Split(2, 0), Turn(1, 1), Turn(0, 2), Join(1, 2), Turn(2, 3), Join(2, 3)],
    [Split(1, 0), Split(2, 0), Turn(1, 1), Turn(2, 2), Join(1, 1), Join(2, 2), Turn(0, 3)],
    [Split(1, 0), Split(2, 0), Turn(1, 1), Turn(2, 2), Join(1, 1), Turn(0, 3), Join(2, 3)],
    [Split(1, 0), Split(2, 0), Turn(1, 1), Turn(2, 2), Join(2, 2), Join(1, 2), Turn(0, 3)],
    [Split(1, 0), Split(2, 0), Turn(1, 1), Turn(2, 2), Join(2, 2), Turn(0, 3), Join(1, 3)],
    [Split(1, 0), Split(2, 0), Turn(2, 1), Join(2, 1), Turn(0, 2), Turn(1, 3), Join(1, 3)],
    [Split(1, 0), Split(2, 0), Turn(2, 1), Join(2, 1), Turn(1, 2), Join(1, 2), Turn(0, 3)],
    [Split(1, 0), Split(2, 0), Turn(2, 1), Join(2, 1), Turn(1, 2), Turn(0, 3), Join(1, 3)],
    [Split(1, 0), Split(2, 0), Turn(2, 1), Turn(0, 2), Join(2, 2), Turn(1, 3), Join(1, 3)],
    [Split(1, 0), Split(2, 0), Turn(2, 1), Turn(1, 2), Join(1, 2), Join(2, 2), Turn(0, 3)],
    [Split(1, 0), Split(2, 0), Turn(2, 1), Turn(1, 2), Join(1, 2), Turn(0, 3), Join(2, 3)],
    [Split(1, 0), Split(2, 0), Turn(2, 1), Turn(1, 2), Join(2, 1), Join(1, 2), Turn(0, 3)],
    [Split(1, 0), Split(2, 0), Turn(2, 1), Turn(1, 2), Join(2, 1), Turn(0, 3), Join(1, 3)],
    [Split(1, 0), Turn(0, 1), Split(2, 1), Turn(1, 2), Join(1, 2), Turn(2, 3), Join(2, 3)],
    [Split(1, 0), Turn(0, 1), Split(2, 1), Turn(1, 2), Turn(2, 3), Join(1, 2), Join(2, 3)],
    [Split(1, 0), Turn(0, 1), Split(2, 1), Turn(1, 2), Turn(2, 3), Join(2, 3), Join(1, 3)],
    [Split(1, 0), Turn(0, 1), Split(2, 1), Turn(2, 2), Join(2, 2), Turn(1, 3), Join(1, 3)],
    [Split(1, 0), Turn(0, 1), Split(2, 1), Turn(2, 2), Turn(1, 3), Join(1, 3), Join(2, 3)],
    [Split(1, 0), Turn(0, 1), Split(2, 1), Turn(2, 2), Turn(1, 3), Join(2, 2), Join(1, 3)],
    [Split(1, 0), Turn(0, 1), Turn(1, 2), Join(1, 2), Split(2, 2), Turn(2, 3), Join(2, 3)],
    [Split(1, 0), Turn(0, 1), Turn(1, 2), Split(2, 1), Join(1, 2), Turn(2, 3), Join(2, 3)],
    [Split(1, 0), Turn(0, 1), Turn(1, 2), Split(2, 1), Turn(2, 3), Join(1, 2), Join(2, 3)],
    [Split(1, 0), Turn(0, 1), Turn(1, 2), Split(2, 1), Turn(2, 3), Join(2, 3), Join(1, 3)],
    [Split(1, 0), Turn(1, 1), Join(1, 1), Split(2, 1), Turn(0, 2), Turn(2, 3), Join(2, 3)],
    [Split(1, 0), Turn(1, 1), Join(1, 1), Split(2, 1), Turn(2, 2), Join(2, 2), Turn(0, 3)],
    [Split(1, 0), Turn(1, 1), Join(1, 1), Split(2, 1), Turn(2, 2), Turn(0, 3), Join(2, 3)],
    [Split(1, 0), Turn(1, 1), Join(1, 1), Turn(0, 2), Split(2, 2), Turn(2, 3), Join(2, 3)],
    [Split(1, 0), Turn(1, 1), Split(2, 0), Join(1, 1), Turn(0, 2), Turn(2, 3), Join(2, 3)],
    [Split(1, 0), Turn(1, 1), Split(2, 0), Join(1, 1), Turn(2, 2), Join(2, 2), Turn(0, 3)],
    [Split(1, 0), Turn(1, 1), Split(2, 0), Join(1, 1), Turn(2, 2), Turn(0, 3), Join(2, 3)],
    [Split(1, 0), Turn(1, 1), Split(2, 0), Turn(0, 2), Join(1, 2), Turn(2, 3), Join(2, 3)],
    [Split(1, 0), Turn(1, 1), Split(2, 0), Turn(0, 2), Turn(2, 3), Join(1, 2), Join(2, 3)],
    [Split(1, 0), Turn(1, 1), Split(2, 0), Turn(0, 2), Turn(2, 3), Join(2, 3), Join(1, 3)],
    [Split(1, 0), Turn(1, 1), Split(2, 0), Turn(2, 2), Join(1, 1), Join(2, 2), Turn(0, 3)],
    [Split(1, 0), Turn(1, 1), Split(2, 0), Turn(2, 2), Join(1, 1), Turn(0, 3), Join(2, 3)],
    [Split(1, 0), Turn(1, 1), Split(2, 0), Turn(2, 2), Join(2, 2), Join(1, 2), Turn(0, 3)],
    [Split(1, 0), Turn(1, 1), Split(2, 0), Turn(2, 2), Join(2, 2), Turn(0, 3), Join(1, 3)],
    [Split(1, 0), Turn(1, 1), Split(2, 0), Turn(2, 2), Turn(0, 3), Join(1, 3), Join(2, 3)],
    [Split(1, 0), Turn(1, 1), Split(2, 0), Turn(2, 2), Turn(0, 3), Join(2, 3), Join(1, 3)],
    [Split(1, 0), Turn(1, 1), Turn(0, 2), Join(1, 2), Split(2, 2), Turn(2, 3), Join(2, 3)],
    [Split(1, 0), Turn(1, 1), Turn(0, 2), Split(2, 2), Join(1, 2), Turn(2, 3), Join(2, 3)],
    [Split(1, 0), Turn(1, 1), Turn(0, 2), Split(2, 2), Turn(2, 3), Join(1, 2), Join(2, 3)],
    [Split(1, 0), Turn(1, 1), Turn(0, 2), Split(2, 2), Turn(2, 3), Join(2, 3), Join(1, 3)],
    [Turn(0, 1), Split(1, 1), Split(2, 1), Turn(1, 2), Join(1, 2), Turn(2, 3), Join(2, 3)],
    [Turn(0, 1), Split(1, 1), Split(2, 1), Turn(1, 2), Turn(2, 3), Join(1, 2), Join(2, 3)],
    [Turn(0, 1), Split(1, 1), Split(2, 1), Turn(1, 2), Turn(2, 3), Join(2, 3), Join(1, 3)],
    [Turn(0, 1), Split(1, 1), Split(2, 1), Turn(2, 2), Join(2, 2), Turn(1, 3), Join(1, 3)],
    [Turn(0, 1), Split(1, 1), Split(2, 1), Turn(2, 2), Turn(1, 3), Join(1, 3), Join(2, 3)],
    [Turn(0, 1), Split(1, 1), Split(2, 1), Turn(2, 2), Turn(1, 3), Join(2, 2), Join(1, 3)],
    [Turn(0, 1), Split(1, 1), Turn(1, 2), Join(1, 2), Split(2, 2), Turn(2, 3), Join(2, 3)],
    [Turn(0, 1), Split(1, 1), Turn(1, 2), Split(2, 1), Join(1, 2), Turn(2, 3), Join(2, 3)],
    [Turn(0, 1), Split(1, 1), Turn(1, 2), Split(2, 1), Turn(2, 3), Join(1, 2), Join(2, 3)],
    [Turn(0, 1), Split(1, 1), Turn(1, 2), Split(2, 1), Turn(2, 3), Join(2, 3), Join(1, 3)],
];
