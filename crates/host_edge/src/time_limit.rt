use std::cmp::min;
use std::time::{Clock, Duration, Instant};

/// How many milliseconds a rest lasts at the most.
const REST: u64 = 1;

/// How long something may take, above 0.
#[derive(Clone, Copy, Drop)]
pub(crate) struct TimeLimit {
    whole: Duration,
}

impl TimeLimit {
    pub(crate) fn of_millis(milliseconds: u64) -> Self {
        TimeLimit {
            whole: Duration::from_millis(milliseconds),
        }
    }

    pub(crate) fn whole(&self) -> Duration {
        self.whole
    }

    /// What is left of it since a moment: nothing where there was none, and all of it where the clock can't
    /// be read.
    pub(crate) fn left<R: Clock>(&self, rt: &R, since: Option<Instant>) -> Duration {
        match since {
            Some(moment) => match moment.elapsed(rt) {
                Ok(gone) => self.whole.saturating_sub(gone),
                Err(_) => self.whole,
            },
            None => Duration::ZERO,
        }
    }

    /// Whether it has passed since a moment. Where there was none, or the clock can't be read, nobody is to
    /// wait for it.
    pub(crate) fn has_passed<R: Clock>(&self, rt: &R, since: Option<Instant>) -> bool {
        match since {
            Some(moment) => match moment.elapsed(rt) {
                Ok(gone) => self.whole.saturating_sub(gone).is_zero(),
                Err(_) => true,
            },
            None => true,
        }
    }
}

/// How long a rest lasts after a moment: a quarter of what has passed since, so that a thing that comes soon
/// is seen soon, and never longer than a millisecond.
pub(crate) fn rest_behind<R: Clock>(rt: &R, since: Option<Instant>) -> Duration {
    let most = Duration::from_millis(REST);
    match since {
        Some(moment) => match moment.elapsed(rt) {
            Ok(gone) => min(gone.checked_div(4).unwrap_or(most), most),
            Err(_) => most,
        },
        None => most,
    }
}
