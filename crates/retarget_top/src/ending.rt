use retarget_plan::{Aim, Unleft};
use retarget_service::Unwritten;
use target_json::TargetFault;
use text_commands::CommandEnd;
use wan_model::CheckedPlan;

/// A rollout, and where it is to go from where it stands.
#[derive(Debug, Drop)]
pub struct Wanted {
    pub plan: CheckedPlan,
    pub aim: Aim,
}

/// How the command ends: as others do, or since there is no target, no link, or no problem from where the rollout
/// stands.
#[derive(Debug, Drop)]
pub enum RetargetEnding {
    Ended(CommandEnd),
    /// The document has no target for its problem.
    Target(TargetFault),
    /// The document's problem has no link of the name that was asked for.
    NoLink,
    /// There is no problem from where the rollout stands.
    Unleft(Unleft),
}

impl From<TargetFault> for RetargetEnding {
    ghost use Rattle.std.specs.Prelude.{◌≡◌};
    ghost use Rattle.retarget_top.specs.Endings.{ending_of_target};

    ghost from_gives = { λ fault ending. ending ≡ ending_of_target fault };

    fn from(fault: TargetFault) -> RetargetEnding {
        match fault {
            TargetFault::Memory => RetargetEnding::Ended(CommandEnd::OutOfMemory),
            other => RetargetEnding::Target(other),
        }
    }
}

impl From<Unwritten> for RetargetEnding {
    ghost use Rattle.std.specs.Prelude.{◌≡◌};
    ghost use Rattle.retarget_top.specs.Endings.{ending_of_unwritten};

    ghost from_gives = { λ why ending. ending ≡ ending_of_unwritten why };

    fn from(why: Unwritten) -> RetargetEnding {
        match why {
            Unwritten::Refused(cause) => RetargetEnding::Ended(CommandEnd::from(cause)),
            Unwritten::Unleft(cause) => RetargetEnding::Unleft(cause),
            Unwritten::Memory => RetargetEnding::Ended(CommandEnd::OutOfMemory),
        }
    }
}
