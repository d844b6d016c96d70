//! A thread that does one job.
ghost use Rattle.std.specs.Prelude.{◌≡◌, IfErr, IfOk};

use std::sync::atomic::{AtomicU32, Ordering};
use std::thread::{Promise, PromisedHandle, Scope};

/// What a thread may be given to do.
pub(crate) trait Job {
    /// What comes of it.
    type Output;

    /// Whether it may be begun.
    ghost may_begin: { Self → Type 0 };

    /// Whether this may come of it.
    ghost may_leave: { Self → Self.Output → Type 0 };

    /// Does it.
    fn run(self) -> Self::Output
        requires { may_begin self }
        ensures { may_leave self result };
}

/// Starts a thread for a job, with a promise that all that may come of it keeps. Where none can be started
/// this number is noted as refused, and the job is begun at once.
pub(crate) fn start<'s, J, P, E>(
    scope: &Scope<'s, E>,
    job: J,
    promise: P,
    number: u32,
    refused: &AtomicU32,
) -> Result<PromisedHandle<J::Output, P>, J::Output>
where
    J: Job + Drop + Send + 's,
    J::Output: Send + Drop + 's,
    P: Promise<J::Output> + Drop,
    requires begins { J.may_begin job }
    requires keeps { (left : _) → J.may_leave job left → P.kept_by promise left }
    ensures ok { IfOk result (λ thread. thread.promise ≡ promise) }
    ensures err { IfErr result (λ left. J.may_leave job left) }
{
    match scope.spawn_with(promise, move || job.run()) {
        Ok(thread) => Ok(thread),
        Err(error) => {
            refused.store(number, Ordering::Relaxed);
            Err((error.value)())
        }
    }
}
