//! How a takeover ends.
ghost use Rattle.std.specs.Prelude.{◌≡◌};
ghost use Rattle.takeover_top.specs.Endings.{ending_of_fence, ending_of_not_begun, ending_of_start};

use dependency_graph::StartFault;
use fence_takeover::{FenceEnd, NotBegun};
use text_commands::{CommandEnd, Unfinished};
use wan_model::CheckedPlan;

/// How a takeover ends: as any command, or for a cause that only a takeover has.
#[derive(Debug, Drop)]
pub enum TakeoverEnding {
    /// As a command of the program may end.
    Ended(CommandEnd),
    /// The home of this item holds a pair of this migration, which is a later one.
    Later { item: u32, migration: u32 },
    /// What the switches hold is no start of this rollout: this is what it breaks first.
    Unsound(CheckedPlan, StartFault),
}

/// How a takeover ends that wasn't begun.
pub(crate) fn ending_of_not_begun(why: NotBegun) -> TakeoverEnding
    ensures { result ≡ ending_of_not_begun why }
{
    match why {
        NotBegun::Fence(plan, end) => ending_of_fence(plan, end),
        NotBegun::Start(plan, fault) => ending_of_start(plan, fault),
        NotBegun::Journal(cause) => TakeoverEnding::Ended(CommandEnd::from(cause)),
    }
}

// Where not all switches told, or what one holds can't be taken over. A question is named as operation 0 of its item.
fn ending_of_fence(plan: CheckedPlan, end: FenceEnd) -> TakeoverEnding
    ensures { result ≡ ending_of_fence plan end }
{
    match end {
        FenceEnd::NoPort(switch) | FenceEnd::Port(switch) => {
            unfinished(Unfinished::PortFault(plan, switch))
        }
        FenceEnd::Above { item, held, count } => {
            drop(plan);
            unfinished(Unfinished::Above {
                item,
                held,
                begun: count,
            })
        }
        FenceEnd::Later { item, migration } => {
            drop(plan);
            TakeoverEnding::Later { item, migration }
        }
        FenceEnd::NotMine { switch, item } => unfinished(Unfinished::NotMine(plan, switch, item)),
        FenceEnd::NoAnswer { switch, byte } => {
            unfinished(Unfinished::NoAnswer(plan, switch, byte))
        }
        FenceEnd::Spent { rounds, item } => unfinished(question_spent(plan, rounds, item)),
        FenceEnd::Memory => {
            drop(plan);
            TakeoverEnding::Ended(CommandEnd::OutOfMemory)
        }
    }
}

fn question_spent(plan: CheckedPlan, rounds: u32, item: u32) -> Unfinished
    ensures { result ≡ Unfinished.RoundsSpent rounds item 0 }
{
    drop(plan);
    Unfinished::RoundsSpent {
        rounds,
        item,
        number: 0,
    }
}

fn unfinished(why: Unfinished) -> TakeoverEnding
    ensures { result ≡ TakeoverEnding.Ended (CommandEnd.NotFinished why) }
{
    TakeoverEnding::Ended(CommandEnd::NotFinished(why))
}

// Where no rollout may begin at what they hold.
fn ending_of_start(plan: CheckedPlan, fault: StartFault) -> TakeoverEnding
    ensures { result ≡ ending_of_start plan fault }
{
    match fault {
        StartFault::Memory => {
            drop(plan);
            TakeoverEnding::Ended(CommandEnd::OutOfMemory)
        }
        _ => TakeoverEnding::Unsound(plan, fault),
    }
}
