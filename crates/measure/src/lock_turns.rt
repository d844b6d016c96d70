//! Turns under the turn lock.
ghost use Rattle.std.specs.Prelude.{◌≡◌, ◌+◌, ◌-◌, ◌<◌};
ghost use Rattle.std.specs.Thread.{IsSync};
ghost use Rattle.turn_lock.specs.Passes.{IsPassOf, IsSamePass, given_of, out_of, seat_of_pass};

use crate::log::Log;
use std::sync::Wait;
use std::thread::{Threads, join};
use turn_lock::{Pass, TurnLock};

/// The log of so many threads. There is none where memory runs out.
pub(crate) fn log_of<R: Threads + Wait + Sync + AllocGlobal>(
    rt: &R,
    threads: u32,
    turns: u32,
) -> Option<Log>
    requires { 0 < threads }
{
    let (lock, pass) = TurnLock::new(rt.alloc(), Log::new(rt.alloc())).ok()?;
    let all = work(rt, &lock, pass, turns, threads - 1);
    Some(lock.close(all))
}

// Makes the turns in this thread, and in so many others.
#[cycle(seats)]
fn work<R: Threads + Wait + Sync>(
    rt: &R,
    lock: &TurnLock<Log>,
    pass: Pass<Log>,
    turns: u32,
    others: u32,
) -> Pass<Log>
    requires lock { IsPassOf lock.now pass }
    requires first { seat_of_pass pass ≡ 0 }
    requires room { given_of pass + others < 4294967296 }
    ensures lock { IsPassOf lock.now result }
    ensures first { seat_of_pass result ≡ 0 }
    ensures all_in { out_of result ≡ out_of pass }
{
    if others == 0 {
        return take_turns(rt, lock, pass, turns);
    }
    let (pass, other) = lock.split(pass);
    let more = move || -> Pass<Log>
        requires { IsSync R.row
            × (0 < others)
            × IsPassOf lock.now pass
            × (seat_of_pass pass ≡ 0)
            × (given_of pass + (others - 1) < 4294967296) }
        ensures { IsPassOf lock.entry.now result
            × (seat_of_pass result ≡ 0)
            × (out_of result ≡ out_of pass) }
    { work(rt, lock, pass, turns, others - 1) };
    let own = move || -> Pass<Log>
        requires { IsPassOf lock.now other }
        ensures { IsPassOf lock.entry.now result }
    { take_turns(rt, lock, other, turns) };
    let (pass, other) = join(rt, more, own);
    lock.join(pass, other)
}

fn take_turns<R: Wait>(rt: &R, lock: &TurnLock<Log>, mut pass: Pass<Log>, turns: u32) -> Pass<Log>
    requires { IsPassOf lock.now pass }
    ensures { IsPassOf lock.now result × IsSamePass pass result }
{
    for _turn in 0..turns {
        pass = take_turn(rt, lock, pass);
    }
    pass
}

fn take_turn<R: Wait>(rt: &R, lock: &TurnLock<Log>, pass: Pass<Log>) -> Pass<Log>
    requires { IsPassOf lock.now pass }
    ensures { IsPassOf lock.now result × IsSamePass pass result }
{
    let seat = pass.seat();
    let mut held = lock.take(rt, pass);
    held.value().add(seat);
    lock.give(held)
}
