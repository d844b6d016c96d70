use crate::frames::Load;
use crate::rounds;
use crate::turns::Crowd;
use crate::workers::{Pace, Workload};
use anyhow::{Context, Result, bail};

const SUBJECTS: &str =
    "linear [TIMES], frames ITEMS COMMANDS PIECE TIMES, agent, journal, recovery TIMES, tries TIMES, turns THREADS TURNS lock|mutex, waiting MILLISECONDS, workers WORKERS ROUNDS [slow], or rounds alone|shared led|idle ROUNDS";

/// What is measured.
#[derive(Drop)]
pub(crate) enum Subject {
    /// So many solutions of the linear program on standard input.
    Linear { times: u32 },
    /// Commands over bytes in memory.
    Frames(Load),
    /// The serving of the guest whose bytes are standard input.
    Agent,
    /// Calls of a journal over the images on standard input.
    Journal,
    /// So many openings of the journal on standard input.
    Recovery { times: u32 },
    /// So many releases, each after one operation that is done.
    Tries { times: u32 },
    /// Turns of threads at one value.
    Turns(Crowd),
    /// A wait for work that begins after so many milliseconds.
    Waiting { milliseconds: u32 },
    /// A rollout by workers.
    Workers(Workload),
    /// Rounds of a book.
    Rounds(rounds::Load),
}

/// The subject that the words name. The program's own name isn't among them.
pub(crate) fn of(words: &[String]) -> Result<Subject> {
    let (name, given) = words.split_first().context(SUBJECTS)?;
    match name.as_str() {
        "linear" => linear_of(given),
        "frames" => frames_of(given),
        "agent" => without_words(given, Subject::Agent),
        "journal" => without_words(given, Subject::Journal),
        "recovery" => recovery_of(given),
        "tries" => tries_of(given),
        "turns" => turns_of(given),
        "waiting" => waiting_of(given),
        "workers" => workers_of(given),
        "rounds" => rounds_of(given),
        _ => bail!(SUBJECTS),
    }
}

fn without_words(given: &[String], subject: Subject) -> Result<Subject> {
    if given.is_empty() {
        Ok(subject)
    } else {
        drop(subject);
        bail!(SUBJECTS)
    }
}

// The number that is the only word.
fn only_number(given: &[String]) -> Result<u32> {
    match given {
        [word] => number(word),
        _ => bail!(SUBJECTS),
    }
}

fn linear_of(given: &[String]) -> Result<Subject> {
    let times = if given.is_empty() {
        1
    } else {
        only_number(given)?
    };
    Ok(Subject::Linear { times })
}

fn frames_of(given: &[String]) -> Result<Subject> {
    match given {
        [items, commands, piece, times] => Ok(Subject::Frames(Load::new(
            number(items)?,
            number(commands)?,
            number(piece)?,
            number(times)?,
        )?)),
        _ => bail!(SUBJECTS),
    }
}

fn recovery_of(given: &[String]) -> Result<Subject> {
    let times = only_number(given)?;
    Ok(Subject::Recovery { times })
}

fn tries_of(given: &[String]) -> Result<Subject> {
    let times = only_number(given)?;
    Ok(Subject::Tries { times })
}

fn turns_of(given: &[String]) -> Result<Subject> {
    match given {
        [threads, turns, guard] => Ok(Subject::Turns(Crowd::new(
            number(threads)?,
            number(turns)?,
            guard.as_str(),
        )?)),
        _ => bail!(SUBJECTS),
    }
}

fn waiting_of(given: &[String]) -> Result<Subject> {
    let milliseconds = only_number(given)?;
    Ok(Subject::Waiting { milliseconds })
}

fn workers_of(given: &[String]) -> Result<Subject> {
    match given {
        [workers, rounds] => crew_of(workers, rounds, Pace::AtOnce),
        [workers, rounds, pace] => crew_of(workers, rounds, pace_named(pace)?),
        _ => bail!(SUBJECTS),
    }
}

fn crew_of(workers: &str, rounds: &str, pace: Pace) -> Result<Subject> {
    Ok(Subject::Workers(Workload {
        workers: number(workers)?,
        rounds: number(rounds)?,
        pace,
    }))
}

fn rounds_of(given: &[String]) -> Result<Subject> {
    match given {
        [guard, answers, rounds] => Ok(Subject::Rounds(rounds::Load::new(
            guard.as_str(),
            answers.as_str(),
            number(rounds)?,
        )?)),
        _ => bail!(SUBJECTS),
    }
}

fn number(word: &str) -> Result<u32> {
    word.parse::<u32>().context("a whole number")
}

fn pace_named(word: &str) -> Result<Pace> {
    match word {
        "slow" => Ok(Pace::Slow),
        _ => bail!("slow"),
    }
}
