ghost use Rattle.std.specs.Prelude.{◌≡◌};
ghost use Rattle.fence_takeover.specs.Ends.{end_of};

use held_service::NotTold;
use lists::Memory as OutOfMemory;

/// Why a takeover doesn't begin.
#[derive(Clone, Copy, Debug, PartialEq, Eq)]
pub enum FenceEnd {
    /// The fleet has no port for this switch.
    NoPort(u32),
    /// The port of this switch failed.
    Port(u32),
    /// The home of this item holds a pair of the migration above the operations that the item has, so many.
    Above { item: u32, held: u32, count: u32 },
    /// The home of this item holds a pair of this migration, which is a later one.
    Later { item: u32, migration: u32 },
    /// The port of this switch gave an answer about an item that the switch isn't asked about.
    NotMine { switch: u32, item: u32 },
    /// The port of this switch gave a byte with which no answer begins.
    NoAnswer { switch: u32, byte: u8 },
    /// So many rounds are spent, and the home of this item hasn't told of it.
    Spent { rounds: u32, item: u32 },
    /// No memory was found.
    Memory,
}

impl From<OutOfMemory> for FenceEnd {
    ghost use Rattle.fence_takeover.specs.declared.end.FenceEnd.TheVariants as fence;

    ghost from_gives = { λ _ given. given ≡ fence.Memory };

    fn from(_: OutOfMemory) -> Self {
        FenceEnd::Memory
    }
}

/// Why no takeover begins where switches didn't tell what they hold in so many rounds.
pub(crate) fn end_of(rounds: u32, why: NotTold) -> FenceEnd
    ensures { result ≡ end_of rounds why }
{
    match why {
        NotTold::Spent(item) => FenceEnd::Spent { rounds, item },
        NotTold::NoPort(switch) => FenceEnd::NoPort(switch),
        NotTold::Port(switch) => FenceEnd::Port(switch),
        NotTold::NotAsked { switch, item } => FenceEnd::NotMine { switch, item },
        NotTold::NoAnswer { switch, byte } => FenceEnd::NoAnswer { switch, byte },
        NotTold::Memory => FenceEnd::Memory,
    }
}
