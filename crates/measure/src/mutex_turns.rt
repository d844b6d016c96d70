//! Turns under std's lock.
ghost use Rattle.std.specs.Prelude.{◌<◌};
ghost use Rattle.std.specs.Thread.{IsSync};

use crate::log::Log;
use std::sync::{Mutex, Wait};
use std::thread::{Threads, join};

/// The log of so many threads.
pub(crate) fn log_of<R: Threads + Wait + Sync + AllocGlobal>(
    rt: &R,
    threads: u32,
    turns: u32,
) -> Log
    requires { 0 < threads }
{
    let log = Mutex::new(Log::new(rt.alloc()));
    work(rt, &log, turns, threads - 1);
    log.into_inner()
}

// Makes the turns in this thread, and in so many others.
#[cycle(seats)]
fn work<R: Threads + Wait + Sync>(rt: &R, log: &Mutex<Log>, turns: u32, others: u32) {
    if others == 0 {
        return take_turns(rt, log, 0, turns);
    }
    let more = || -> ()
        requires { IsSync R.row × (0 < others) }
    { work(rt, log, turns, others - 1) };
    join(rt, more, || take_turns(rt, log, others, turns));
}

fn take_turns<R: Wait>(rt: &R, log: &Mutex<Log>, seat: u32, turns: u32) {
    for _turn in 0..turns {
        log.lock(rt).add(seat);
    }
}
