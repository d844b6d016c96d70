ghost use Rattle.std.specs.Prelude.{◌≡◌, ◌+◌, ◌*◌, ◌^◌, ◌<◌, ◌≤◌, pos, nat_abs, Some, None, if◌then◌else◌};
ghost use Rattle.problem_json.specs.GrammarFractions as spec;
ghost use Rattle.problem_json.specs.declared.spelling.Spelling.TheVariants as so_far;

use fraction_lp::{Fraction, greatest_common_divisor};

/// The largest number in a fraction.
const LARGEST: u128 = 170_141_183_460_469_231_731_687_303_715_884_105_727;

/// The largest number to which a digit may be added.
const TENTH: u128 = 17_014_118_346_046_923_173_168_730_371_588_410_572;

/// What was read of a fraction's text.
#[derive(Clone, Copy, Debug, Drop)]
pub(crate) enum Spelling {
    /// Nothing yet.
    Front,
    /// A minus.
    Minus,
    /// Whether there was a minus, and the number above the line so far.
    Top(bool, u128),
    /// The same, and the line.
    Slash(bool, u128),
    /// The same, and the number below the line so far.
    Bottom(bool, u128, u128),
    /// What no fraction begins with.
    Wrong,
}

/// The fraction that a text is.
#[tactic(auto, unfolding(crate::specs::GrammarFractions::fraction_of_text))]
pub(crate) fn fraction_of_text(text: &str) -> Option<Fraction>
    ensures { result ≡ spec.fraction_of_text text.now }
{
    let spelling = spell(text.as_bytes());
    fraction_spelled(spelling)
}

fn spell(bytes: &[u8]) -> Spelling
    ensures { result ≡ spec.spelled_from so_far.Front bytes.now }
{
    let mut spelling = Spelling::Front;
    let mut rest = bytes;
    while let [byte, more @ ..] = rest {
        spelling = spelled_on(spelling, *byte);
        rest = more;
    }
    spelling
}

/// What was read, with a byte more.
fn spelled_on(spelling: Spelling, byte: u8) -> Spelling
    ensures { result ≡ spec.spelled_on spelling byte }
{
    match spelling {
        Spelling::Front => front_with(byte),
        Spelling::Minus => minus_with(byte),
        Spelling::Top(minus, top) => top_on(minus, top, byte),
        Spelling::Slash(minus, top) => slash_with(minus, top, byte),
        Spelling::Bottom(minus, top, bottom) => bottom_on(minus, top, bottom, byte),
        Spelling::Wrong => Spelling::Wrong,
    }
}

fn front_with(byte: u8) -> Spelling
    ensures { result ≡ spec.spelled_on so_far.Front byte }
{
    if byte == b'-' {
        return Spelling::Minus;
    }
    top_with(false, with_digit(0, byte))
}

fn minus_with(byte: u8) -> Spelling
    ensures { result ≡ spec.spelled_on so_far.Minus byte }
{
    if byte == b'0' {
        return Spelling::Wrong;
    }
    top_with(true, with_digit(0, byte))
}

fn top_on(minus: bool, top: u128, byte: u8) -> Spelling
    ensures { result ≡ spec.spelled_on (so_far.Top minus top) byte }
{
    if byte == b'/' {
        return Spelling::Slash(minus, top);
    }
    if top == 0 {
        return Spelling::Wrong;
    }
    top_with(minus, with_digit(top, byte))
}

fn slash_with(minus: bool, top: u128, byte: u8) -> Spelling
    ensures { result ≡ spec.spelled_on (so_far.Slash minus top) byte }
{
    if byte == b'0' {
        return Spelling::Wrong;
    }
    bottom_with(minus, top, with_digit(0, byte))
}

fn bottom_on(minus: bool, top: u128, bottom: u128, byte: u8) -> Spelling
    ensures { result ≡ spec.spelled_on (so_far.Bottom minus top bottom) byte }
{
    bottom_with(minus, top, with_digit(bottom, byte))
}

fn top_with(minus: bool, top: Option<u128>) -> Spelling
    ensures { result ≡ spec.top_with minus top }
{
    match top {
        Some(top) => Spelling::Top(minus, top),
        None => Spelling::Wrong,
    }
}

fn bottom_with(minus: bool, top: u128, bottom: Option<u128>) -> Spelling
    ensures { result ≡ spec.bottom_with minus top bottom }
{
    match bottom {
        Some(bottom) => Spelling::Bottom(minus, top, bottom),
        None => Spelling::Wrong,
    }
}

/// A number with a digit more, where it is one and the number isn't too large.
fn with_digit(number: u128, byte: u8) -> Option<u128>
    ensures { result ≡ spec.with_digit number byte }
{
    if !byte.is_ascii_digit() {
        return None;
    }
    grown(number, byte - b'0')
}

fn grown(number: u128, digit: u8) -> Option<u128>
    requires { digit ≤ 9 }
    ensures { result ≡ spec.grown number digit }
{
    if number > TENTH {
        return None;
    }
    let more = number * 10 + u128::from(digit);
    if more > LARGEST {
        return None;
    }
    Some(more)
}

/// The fraction of a text that ends here.
fn fraction_spelled(spelling: Spelling) -> Option<Fraction>
    ensures { result ≡ spec.fraction_spelled spelling }
{
    match spelling {
        Spelling::Bottom(minus, top, bottom) => reduced_of(minus, top, bottom),
        Spelling::Front
        | Spelling::Minus
        | Spelling::Top(..)
        | Spelling::Slash(..)
        | Spelling::Wrong => None,
    }
}

fn reduced_of(minus: bool, top: u128, bottom: u128) -> Option<Fraction>
    ensures { result ≡ spec.reduced_of minus top bottom }
{
    if top > LARGEST {
        return None;
    }
    if bottom > LARGEST {
        return None;
    }
    let divisor = greatest_common_divisor(top, bottom);
    if divisor == 1 {
        let above = with_sign(minus, as_signed(top));
        return Fraction::new(above, as_signed(bottom));
    }
    None
}

fn as_signed(number: u128) -> i128
    requires { number < 2 ^ 127 }
    ensures value { result ≡ pos number }
    ensures size { nat_abs result < 2 ^ 127 }
{
    number as i128
}

fn with_sign(minus: bool, number: i128) -> i128
    requires { nat_abs number < 2 ^ 127 }
    ensures { result ≡ spec.signed minus number }
{
    if minus { -number } else { number }
}
