//! Threads that take turns at one value, under the turn lock or under std's lock.
ghost use Rattle.std.specs.Prelude.{◌<◌};

use crate::log::Log;
use crate::{lock_turns, mutex_turns};
use anyhow::{Context, Result, bail, ensure};
use std::sync::Wait;
use std::thread::Threads;
use turn_lock::Counted;

/// What the value is under.
#[derive(Clone, Copy, Debug, PartialEq, Eq)]
enum Guard {
    Lock,
    Mutex,
}

/// So many threads that make so many turns each.
#[derive(Drop)]
pub(crate) struct Crowd {
    threads: u32,
    turns: u32,
    guard: Guard,
    ghost some: { 0 < threads },
}

impl Crowd {
    pub(crate) fn new(threads: u32, turns: u32, guard: &str) -> Result<Self> {
        ensure!(threads > 0 && threads <= 4, "1 to 4 threads");
        let guard = guard_named(guard)?;
        Ok(Crowd {
            threads,
            turns,
            guard,
        })
    }
}

fn guard_named(word: &str) -> Result<Guard> {
    match word {
        "lock" => Ok(Guard::Lock),
        "mutex" => Ok(Guard::Mutex),
        _ => bail!("lock or mutex"),
    }
}

/// Prints how many turns there were, and the sum of the seats that had them.
pub(crate) fn measure<R: Threads + Wait + Sync + AllocGlobal + Print>(
    rt: &R,
    crowd: &Crowd,
) -> Result<()> {
    let log = log_of(rt, crowd)?;
    println!(rt; "turns {}, sum {}", log.count(), log.sum())?;
    Ok(())
}

fn log_of<R: Threads + Wait + Sync + AllocGlobal>(rt: &R, crowd: &Crowd) -> Result<Log> {
    match crowd.guard {
        Guard::Lock => {
            lock_turns::log_of(rt, crowd.threads, crowd.turns).context("memory is short")
        }
        Guard::Mutex => Ok(mutex_turns::log_of(rt, crowd.threads, crowd.turns)),
    }
}
