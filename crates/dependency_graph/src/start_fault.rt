use lists::Memory as OutOfMemory;
use rollout_rules::Spot;

/// Why no rollout begins at a start: what the start breaks first.
#[derive(Clone, Copy, Debug, Drop, PartialEq, Eq)]
pub enum StartFault {
    /// More operations of an item are settled than the item has.
    Above {
        item: u32,
        held: u32,
        count: u32,
    },
    /// The needs of a settled operation of an item, by its number from 1 on, aren't met.
    Need {
        item: u32,
        number: u32,
    },
    /// At a stage more is taken of a link or a table than there is of it.
    Room {
        stage: u32,
        spot: Spot,
        found: u64,
        wanted: u64,
    },
    /// Memory ran out. This says nothing of the start.
    Memory,
}

impl From<OutOfMemory> for StartFault {
    ghost use Rattle.std.specs.Prelude.{◌≡◌};
    ghost use Rattle.dependency_graph.specs.declared.start_fault.StartFault.TheVariants.{Memory};

    ghost from_gives = { λ _ fault. fault ≡ Memory };

    fn from(_refused: OutOfMemory) -> StartFault {
        StartFault::Memory
    }
}
