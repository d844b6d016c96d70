use std::alloc::AllocError;

/// Why a step has no result.
#[derive(Debug, Drop)]
pub(crate) enum StepFault {
    /// A number left the type.
    Overflow,
    Memory,
}

impl From<AllocError> for StepFault {
    ghost use Rattle.std.specs.Prelude.{◌≡◌};
    ghost use Rattle.fraction_lp.specs.declared.step_fault.StepFault.TheVariants.{Memory};

    ghost from_gives = { λ error unfinished. unfinished ≡ Memory };

    fn from(_error: AllocError) -> StepFault {
        StepFault::Memory
    }
}
