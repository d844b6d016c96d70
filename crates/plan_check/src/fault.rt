use crate::broken::Broken;
use lists::Memory as OutOfMemory;

/// Why a plan isn't taken.
#[derive(Clone, Copy, Debug, Drop, PartialEq, Eq)]
pub enum PlanFault {
    /// The first clause that it breaks.
    Broken(Broken),
    /// Memory ran out. This says nothing of the plan.
    Memory,
}

impl From<OutOfMemory> for PlanFault {
    ghost use Rattle.std.specs.Prelude.{◌≡◌};
    ghost use Rattle.plan_check.specs.declared.fault.PlanFault.TheVariants.{Memory};

    ghost from_gives = { λ _ fault. fault ≡ Memory };

    fn from(_refused: OutOfMemory) -> PlanFault {
        PlanFault::Memory
    }
}
