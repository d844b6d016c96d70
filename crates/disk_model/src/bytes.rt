//! Bytes and numbers at a place of an image. A byte that is missing counts as 0.
ghost use Rattle.std.specs.Prelude.{◌≡◌, drop, take};
ghost use Rattle.disk_model.specs.Numbers.{byte_at, number_4, number_8};

/// The bytes from a place on; none past the end.
pub fn from_place(bytes: &[u8], place: usize) -> &[u8]
    ensures { result.now ≡ drop place bytes.now }
{
    if place < bytes.len() {
        &bytes[place..]
    } else {
        &[]
    }
}

/// The first bytes, at most this many.
pub fn up_to(bytes: &[u8], most: usize) -> &[u8]
    ensures { result.now ≡ take most bytes.now }
{
    if most < bytes.len() {
        &bytes[..most]
    } else {
        bytes
    }
}

/// The byte at a place; 0 past the end.
pub fn byte_in(bytes: &[u8], place: usize) -> u8
    ensures { result ≡ byte_at place bytes.now }
{
    match bytes.get(place) {
        Some(byte) => *byte,
        None => 0,
    }
}

/// The number in the first four bytes.
#[tactic(auto, unfolding(crate::specs::Numbers::number_4), using(crate::proofs::FirstBytes::first_4))]
pub fn number_of_4(bytes: &[u8]) -> u32
    ensures { result ≡ number_4 bytes.now }
{
    let first = [
        byte_in(bytes, 0),
        byte_in(bytes, 1),
        byte_in(bytes, 2),
        byte_in(bytes, 3),
    ];
    u32::from_be_bytes(first)
}

/// The number in the first eight bytes.
#[tactic(auto, unfolding(crate::specs::Numbers::number_8), using(crate::proofs::FirstBytes::first_8))]
pub fn number_of_8(bytes: &[u8]) -> u64
    ensures { result ≡ number_8 bytes.now }
{
    let first = [
        byte_in(bytes, 0),
        byte_in(bytes, 1),
        byte_in(bytes, 2),
        byte_in(bytes, 3),
        byte_in(bytes, 4),
        byte_in(bytes, 5),
        byte_in(bytes, 6),
        byte_in(bytes, 7),
    ];
    u64::from_be_bytes(first)
}
