//! The bytes in front of a journal's parts: its gate, and two slots that name parts.
ghost use Rattle.std.specs.Prelude.{◌≡◌, ◌≤◌};
ghost use Rattle.intent_journal.specs.Makings.{name_of, slots_bytes};

/// The journal's gate where it is open, and a slot's.
pub(crate) const OPEN_JOURNAL: u8 = 0x54;

pub(crate) const OPEN_SLOT: u8 = 0x53;

/// Where the first part may start.
pub(crate) const FIRST_START: u64 = 35;

// What the field of a size has more where the part is of the second format.
const SECOND: u64 = 1 << 62;

/// The bytes of a slot after its gate: where its part starts, and its size in the second format.
#[tactic(auto, unfolding(disk_model::specs::Numbers::bytes_8))]
pub(crate) fn name_bytes(start: u64, size: u64) -> [u8; 16]
    requires { size ≤ 1000000000 }
    ensures { result ≡ name_of start size }
{
    let mut bytes = [0; 16];
    bytes[..8].copy_from_slice(&start.to_be_bytes());
    bytes[8..].copy_from_slice(&(SECOND + size).to_be_bytes());
    bytes
}

/// The slots of a journal that is made: the first is open, the other was never written.
pub(crate) fn made_slots(size: u64) -> [u8; 34]
    requires { size ≤ 1000000000 }
    ensures { result ≡ slots_bytes size }
{
    let mut bytes = [0; 34];
    bytes[0] = OPEN_SLOT;
    bytes[1..17].copy_from_slice(&name_bytes(FIRST_START, size));
    bytes
}
