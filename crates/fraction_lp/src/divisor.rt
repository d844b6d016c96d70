ghost use Rattle.std.specs.Prelude.{◌≡◌};
ghost use Rattle.fraction_lp.specs.Divisors.{gcd};

/// The greatest common divisor, by Euclid's algorithm: at full width only while both numbers need it,
/// and at once for a whole number.
pub fn greatest_common_divisor(a: u128, b: u128) -> u128
    ensures { result ≡ gcd a b }
{
    if b == 1 {
        return 1;
    }
    let mut greater = a;
    let mut lesser = b;
    while lesser > u64::MAX as u128 {
        let rest = greater % lesser;
        greater = lesser;
        lesser = rest;
    }
    if lesser == 0 {
        return greater;
    }
    let rest = greater % lesser;
    narrow(lesser as u64, rest as u64) as u128
}

/// The same for numbers of one machine word.
fn narrow(a: u64, b: u64) -> u64
    ensures { result ≡ gcd a b }
{
    let mut greater = a;
    let mut lesser = b;
    while lesser != 0 {
        let rest = greater % lesser;
        greater = lesser;
        lesser = rest;
    }
    greater
}
