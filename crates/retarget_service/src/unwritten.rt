use intent_journal::JournalFault;
use lists::Memory as OutOfMemory;
use retarget_plan::Unleft;

/// Why no problem is written of what a rollout leaves.
#[derive(Debug, Drop)]
pub enum Unwritten {
    /// The bytes aren't the journal of this rollout, or it can't be followed.
    Refused(JournalFault),
    /// The rollout leaves none where it stands.
    Unleft(Unleft),
    Memory,
}

impl From<OutOfMemory> for Unwritten {
    ghost use Rattle.std.specs.Prelude.{◌≡◌};
    ghost use Rattle.retarget_service.specs.declared.unwritten.Unwritten.TheVariants.{Memory};

    ghost from_gives = { λ _ cause. cause ≡ Memory };

    fn from(_refused: OutOfMemory) -> Unwritten {
        Unwritten::Memory
    }
}
