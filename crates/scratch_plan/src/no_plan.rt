use lists::Memory as OutOfMemory;
use wan_model::Side;

/// Why there is no plan.
#[derive(Clone, Copy, Debug, Drop, PartialEq, Eq)]
pub enum NoPlan {
    /// The load of a link in a split exceeds its capacity.
    OverCapacity {
        link: u32,
        side: Side,
        load: u64,
        capacity: u64,
    },
    /// The entries that a switch is to hold at once don't fit in its table: at first, or while rates move.
    TableFull {
        switch: u32,
        wanted: u64,
        size: u64,
    },
    /// No equal share of every link, down to 1/64, is free in both splits: on this link it isn't.
    NoSlack {
        link: u32,
        side: Side,
        load: u64,
        capacity: u64,
    },
    /// Memory ran out. This says nothing of the problem.
    Memory,
}

impl From<OutOfMemory> for NoPlan {
    ghost use Rattle.std.specs.Prelude.{◌≡◌};
    ghost use Rattle.scratch_plan.specs.declared.no_plan.NoPlan.TheVariants.{Memory};

    ghost from_gives = { λ _ cause. cause ≡ Memory };

    fn from(_refused: OutOfMemory) -> NoPlan {
        NoPlan::Memory
    }
}
