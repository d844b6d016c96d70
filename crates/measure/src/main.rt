//! What bench/ times. The words choose what is measured and how often; what is printed is an end, a
//! count or a checksum, never a time.
#![tactic(auto)]

use anyhow::Result;
use std::env;
use std::io::Read;
use subject::Subject;

mod agent;
mod case;
mod checksum;
mod frames;
mod journal;
mod linear;
mod lock_turns;
mod log;
mod mutex_turns;
mod printing;
mod program;
mod recovery;
mod rollout;
mod rounds;
mod slow_port;
mod subject;
mod tries;
mod turns;
mod waiting;
mod workers;

fn main(rt: HostRuntime) -> Result<()> {
    match subject_named(&rt)? {
        Subject::Linear { times } => linear::measure(&rt, times),
        Subject::Frames(load) => frames::measure(&rt, &load),
        Subject::Agent => agent::measure(&rt),
        Subject::Journal => journal::measure(&rt),
        Subject::Recovery { times } => recovery::measure(&rt, times),
        Subject::Tries { times } => tries::measure(&rt, times),
        Subject::Turns(crowd) => turns::measure(&rt, &crowd),
        Subject::Rounds(load) => rounds::measure(&rt, all_input(&rt)?, load),
        Subject::Waiting { milliseconds } => waiting::measure(&rt, all_input(&rt)?, milliseconds),
        Subject::Workers(crew) => workers::measure(&rt, all_input(&rt)?, crew),
    }
}

// What the program's words name.
fn subject_named(rt: &HostRuntime) -> Result<Subject> {
    let words = env::args(rt)?.skip(1).collect::<Vec<String>>(rt.alloc())?;
    let subject = subject::of(&words);
    drop(words);
    subject
}

// All of standard input.
fn all_input(rt: &HostRuntime) -> Result<Vec<u8>> {
    let mut given = Vec::new(rt.alloc());
    rt.stdin().read_to_end(&mut given)?;
    Ok(given)
}
