//! Several threads at one lock. What they made is one history, in which each has its own notes in order.
ghost use Rattle.std.specs.Prelude.{◌≡◌};
ghost use Rattle.std.specs.Thread.{IsSync};
ghost use Rattle.turn_lock.specs.Passes.{IsPassOf, IsFirstPass, IsSamePass, seat_of_pass, out_of};

use super::notes::{Note, Notes, new_lock, turn};
use crate::{Pass, TurnLock};
use std::process::Abort;
use std::sync::Wait;
use std::test::Fail;
use std::thread::{Threads, join};

const TURNS: u64 = 1000;

fn turns<R: Wait>(rt: &R, lock: &TurnLock<Notes>, mut pass: Pass<Notes>) -> Pass<Notes>
    requires { IsPassOf lock.now pass }
    ensures { IsPassOf lock.now result × IsSamePass pass result }
{
    for number in 0..TURNS {
        pass = turn(rt, lock, pass, number);
    }
    pass
}

fn two_work<R: Threads + Wait + Sync>(
    rt: &R,
    lock: &TurnLock<Notes>,
    one: Pass<Notes>,
    other: Pass<Notes>,
) -> (Pass<Notes>, Pass<Notes>)
    requires { IsPassOf lock.now one × IsPassOf lock.now other }
    ensures one { IsPassOf lock.now result.0 × IsSamePass one result.0 }
    ensures other { IsPassOf lock.now result.1 × IsSamePass other result.1 }
{
    join(
        rt,
        move || -> Pass<Notes>
            requires { IsPassOf lock.now one }
            ensures { IsPassOf lock.entry.now result × IsSamePass one result }
        { turns(rt, lock, one) },
        move || -> Pass<Notes>
            requires { IsPassOf lock.now other }
            ensures { IsPassOf lock.entry.now result × IsSamePass other result }
        { turns(rt, lock, other) },
    )
}

fn four_work<R: Threads + Wait + Sync>(
    rt: &R,
    lock: &TurnLock<Notes>,
    one: (Pass<Notes>, Pass<Notes>),
    other: (Pass<Notes>, Pass<Notes>),
) -> ((Pass<Notes>, Pass<Notes>), (Pass<Notes>, Pass<Notes>))
    requires one { IsPassOf lock.now one.0 × IsPassOf lock.now one.1 }
    requires other { IsPassOf lock.now other.0 × IsPassOf lock.now other.1 }
    ensures one_lock { IsPassOf lock.now result.0.0 × IsPassOf lock.now result.0.1 }
    ensures one { IsSamePass one.0 result.0.0 × IsSamePass one.1 result.0.1 }
    ensures other_lock { IsPassOf lock.now result.1.0 × IsPassOf lock.now result.1.1 }
    ensures other { IsSamePass other.0 result.1.0 × IsSamePass other.1 result.1.1 }
{
    join(
        rt,
        move || -> (Pass<Notes>, Pass<Notes>)
            requires { IsSync R.row × IsPassOf lock.now one.0 × IsPassOf lock.now one.1 }
            ensures lock { IsPassOf lock.entry.now result.0 × IsPassOf lock.entry.now result.1 }
            ensures same { IsSamePass one.0 result.0 × IsSamePass one.1 result.1 }
        { two_work(rt, lock, one.0, one.1) },
        move || -> (Pass<Notes>, Pass<Notes>)
            requires { IsSync R.row × IsPassOf lock.now other.0 × IsPassOf lock.now other.1 }
            ensures lock { IsPassOf lock.entry.now result.0 × IsPassOf lock.entry.now result.1 }
            ensures same { IsSamePass other.0 result.0 × IsSamePass other.1 result.1 }
        { two_work(rt, lock, other.0, other.1) },
    )
}

// A turn after another seat has added something.
fn late_turn<R: Wait>(rt: &R, lock: &TurnLock<Notes>, pass: Pass<Notes>) -> Pass<Notes>
    requires { IsPassOf lock.now pass }
    ensures { IsPassOf lock.now result × IsSamePass pass result }
{
    lock.wait_past(rt, &pass);
    turn(rt, lock, pass, 0)
}

fn one_waits<R: Threads + Wait + Sync>(
    rt: &R,
    lock: &TurnLock<Notes>,
    one: Pass<Notes>,
    other: Pass<Notes>,
) -> (Pass<Notes>, Pass<Notes>)
    requires { IsPassOf lock.now one × IsPassOf lock.now other }
    ensures one { IsPassOf lock.now result.0 × IsSamePass one result.0 }
    ensures other { IsPassOf lock.now result.1 × IsSamePass other result.1 }
{
    join(
        rt,
        move || -> Pass<Notes>
            requires { IsPassOf lock.now one }
            ensures { IsPassOf lock.entry.now result × IsSamePass one result }
        { late_turn(rt, lock, one) },
        move || -> Pass<Notes>
            requires { IsPassOf lock.now other }
            ensures { IsPassOf lock.entry.now result × IsSamePass other result }
        { turn(rt, lock, other, 0) },
    )
}

// The numbers of the seat's notes are 0, 1, .. up to the last turn, in this order.
fn has_all_in_order(notes: &[Note], seat: u32) -> bool {
    notes
        .iter()
        .filter(|note| note.seat == seat)
        .map(|note| note.number)
        .eq(0..TURNS)
}

fn see_history<R: Abort>(rt: &R, notes: &Notes, seats: u32) {
    let list = notes.list.as_slice();
    assert!(rt; list.len() as u64 == u64::from(seats) * TURNS);
    assert!(rt; list.iter().all(|note| note.seat < seats));
    for seat in 0..seats {
        assert!(rt; has_all_in_order(list, seat), "seat {seat}");
    }
}

// Three more seats, split off the pass of seat 0.
fn split_four(
    lock: &TurnLock<Notes>,
    pass: Pass<Notes>,
) -> ((Pass<Notes>, Pass<Notes>), (Pass<Notes>, Pass<Notes>))
    requires { IsPassOf lock.now pass × IsFirstPass pass }
    ensures one { IsPassOf lock.now result.0.0 × IsPassOf lock.now result.0.1 }
    ensures other { IsPassOf lock.now result.1.0 × IsPassOf lock.now result.1.1 }
    ensures first { (seat_of_pass result.0.0 ≡ 0) × (out_of result.0.0 ≡ 3) }
{
    let (first, second) = lock.split(pass);
    let (first, third) = lock.split(first);
    let (first, fourth) = lock.split(first);
    ((first, second), (third, fourth))
}

fn join_four(
    lock: &TurnLock<Notes>,
    one: (Pass<Notes>, Pass<Notes>),
    other: (Pass<Notes>, Pass<Notes>),
) -> Pass<Notes>
    requires one { IsPassOf lock.now one.0 × IsPassOf lock.now one.1 }
    requires other { IsPassOf lock.now other.0 × IsPassOf lock.now other.1 }
    requires first { (seat_of_pass one.0 ≡ 0) × (out_of one.0 ≡ 3) }
    ensures lock { IsPassOf lock.now result }
    ensures all_in { (seat_of_pass result ≡ 0) × (out_of result ≡ 0) }
{
    let first = lock.join(one.0, one.1);
    let first = lock.join(first, other.0);
    lock.join(first, other.1)
}

#[test]
fn a_pass_waits_for_what_another_seat_adds(rt: HostRuntime) -> Result<(), Fail> {
    let Some((lock, pass)) = new_lock(rt.alloc()) else {
        return Err(Fail::new("memory ran out"));
    };
    let (one, other) = lock.split(pass);
    let (one, other) = one_waits(&rt, &lock, one, other);
    let all = lock.join(one, other);
    assert!(rt; all.seen() == 2 && all.out() == 0);
    let notes = lock.close(all);
    assert!(rt; notes.list.iter().map(|note| note.seat).eq([1, 0]));
    Ok(())
}

#[test]
fn two_threads_make_a_thousand_turns_each(rt: HostRuntime) -> Result<(), Fail> {
    let Some((lock, pass)) = new_lock(rt.alloc()) else {
        return Err(Fail::new("memory ran out"));
    };
    let (one, other) = lock.split(pass);
    let (one, other) = two_work(&rt, &lock, one, other);
    let all = lock.join(one, other);
    assert!(rt; all.seen() == 2000 && all.given() == 2 && all.out() == 0);
    see_history(&rt, &lock.close(all), 2);
    Ok(())
}

#[test]
fn four_threads_make_a_thousand_turns_each(rt: HostRuntime) -> Result<(), Fail> {
    let Some((lock, pass)) = new_lock(rt.alloc()) else {
        return Err(Fail::new("memory ran out"));
    };
    let (one, other) = split_four(&lock, pass);
    let (one, other) = four_work(&rt, &lock, one, other);
    let all = join_four(&lock, one, other);
    assert!(rt; all.seen() == 4000 && all.given() == 4 && all.out() == 0);
    see_history(&rt, &lock.close(all), 4);
    Ok(())
}
