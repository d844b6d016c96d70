//! How a command ends by what its rollout has come to: the one place at which the end of a run is turned into that of a
//! command. `run`, `drain`, `rollback` and a takeover take it for each end that they don't tell in a line of their own.
ghost use Rattle.std.specs.Prelude.{◌≡◌};
ghost use Rattle.swanroll_top.specs.Rollouts.{ending_of_rollout, ending_of_stop};

use controller_run::{RunEnd, RunOutcome};
use shared_book::Cause;
use text_commands::{CommandEnd, Unfinished};
use wan_model::CheckedPlan;

/// How a command ends whose rollout has come to this: done where it is finished, and else why it isn't.
pub fn ending_of_rollout(outcome: RunOutcome) -> CommandEnd
    ensures { result ≡ ending_of_rollout outcome }
{
    let RunOutcome {
        plan,
        left,
        end,
        ..
    } = outcome;
    match end {
        RunEnd::Finished => {
            drop(plan);
            CommandEnd::Done
        }
        RunEnd::Held => {
            drop(plan);
            CommandEnd::NotFinished(Unfinished::Held(left))
        }
        RunEnd::Stopped(halt) => ending_of_stop(plan, halt.cause),
        RunEnd::NoPort(switch) => CommandEnd::NotFinished(Unfinished::PortFault(plan, switch)),
        RunEnd::Memory => {
            drop(plan);
            CommandEnd::OutOfMemory
        }
    }
}

// How a command ends whose rollout was stopped for this cause.
fn ending_of_stop(plan: CheckedPlan, cause: Cause) -> CommandEnd
    ensures { result ≡ ending_of_stop plan cause }
{
    match cause {
        Cause::Spent {
            rounds,
            item,
            number,
        } => {
            drop(plan);
            CommandEnd::NotFinished(Unfinished::RoundsSpent {
                rounds,
                item,
                number,
            })
        }
        Cause::Port(switch) => CommandEnd::NotFinished(Unfinished::PortFault(plan, switch)),
        Cause::Above { item, held, begun } => {
            drop(plan);
            CommandEnd::NotFinished(Unfinished::Above { item, held, begun })
        }
        Cause::NotMine { switch, item } => {
            CommandEnd::NotFinished(Unfinished::NotMine(plan, switch, item))
        }
        Cause::NoAnswer { switch, byte } => {
            CommandEnd::NotFinished(Unfinished::NoAnswer(plan, switch, byte))
        }
        Cause::Disk => {
            drop(plan);
            CommandEnd::DiskFault
        }
        Cause::Memory => {
            drop(plan);
            CommandEnd::OutOfMemory
        }
    }
}
