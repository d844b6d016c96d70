use lists::Memory as OutOfMemory;

/// A row of numbers of the problem that is left.
#[derive(Clone, Copy, Debug, Drop, PartialEq, Eq)]
pub enum Row {
    Capacities,
    OldRates,
    NewRates,
}

/// Why no problem is left of a rollout where it stands.
#[derive(Clone, Copy, Debug, Drop, PartialEq, Eq)]
pub enum Unleft {
    /// An operation of an item, by its number from 1 on, is in flight.
    Flying { item: u32, operation: u32 },
    /// Some of a tunnel's entries are there, and others aren't.
    Partly { tunnel: u32 },
    /// In the units in which all settled rates are whole a number of a link or a tunnel is above its limit.
    TooLarge { row: Row, place: u32, found: u64 },
    /// Memory ran out. This says nothing of the rollout.
    Memory,
}

impl From<OutOfMemory> for Unleft {
    ghost use Rattle.std.specs.Prelude.{◌≡◌};
    ghost use Rattle.retarget_plan.specs.declared.unleft.Unleft.TheVariants.{Memory};

    ghost from_gives = { λ _ cause. cause ≡ Memory };

    fn from(_refused: OutOfMemory) -> Unleft {
        Unleft::Memory
    }
}
