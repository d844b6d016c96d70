use lists::Memory as OutOfMemory;
use scratch_plan::NoPlan;
use wan_model::Problem;

/// Why no plan is found.
#[derive(Clone, Copy, Debug, Drop, PartialEq, Eq)]
pub enum Cause {
    /// Without the greedy rule, for the cause that [`plan_choose::choose`] gives.
    Unchosen(NoPlan),
    /// With the rule neither: the cause without it, a link without slack.
    Unfound(NoPlan),
    /// No plan of any number of steps exists: this link stays full, and something across it is to move.
    Stuck(u32),
}

/// A problem for which no plan is found, and why.
#[derive(Debug, Drop)]
pub struct NotFound {
    pub problem: Problem,
    pub cause: Cause,
}

impl From<OutOfMemory> for Cause {
    ghost use Rattle.std.specs.Prelude.{◌≡◌};
    ghost use Rattle.scratch_plan.specs.declared.no_plan.NoPlan.TheVariants.{Memory};
    ghost use Rattle.fewest_plan.specs.declared.cause.Cause.TheVariants.{Unchosen};

    ghost from_gives = { λ _ cause. cause ≡ Unchosen Memory };

    fn from(_refused: OutOfMemory) -> Cause {
        Cause::Unchosen(NoPlan::Memory)
    }
}
